//! The methods of calls by their names: the kernel's own, and where users' methods begin.
ghost use Rattle.std.specs.Prelude.{◌≡◌};
ghost use Rattle.ipc_ids.specs.Methods.{kind_of};

/// Tells that a phone that led to the receiver was hung up. The kernel alone makes such a call.
pub const PHONE_HUNGUP: u64 = 0;

/// Asks the receiver to keep a phone that leads to the caller.
pub const CONNECT_TO_ME: u64 = 1;

/// Asks for a phone that leads to the task that answers.
pub const CONNECT_ME_TO: u64 = 2;

/// Offers bytes of the caller's memory to the receiver.
pub const DATA_WRITE: u64 = 3;

/// Asks for bytes of the receiver's memory.
pub const DATA_READ: u64 = 4;

/// Offers an area of the caller's memory to the receiver.
pub const SHARE_OUT: u64 = 5;

/// Asks for an area of the receiver's memory.
pub const SHARE_IN: u64 = 6;

/// The least method that means what the two tasks make of it. Those below are the system's, and
/// those from 7 on among them have no meaning.
pub const FIRST_USER_METHOD: u64 = 512;

/// The kinds of methods, as far as the kernel tells them apart.
#[derive(Clone, Copy, PartialEq, Eq)]
pub enum MethodKind {
    /// Tells that a phone was hung up.
    PhoneHungUp,
    /// Asks the receiver to keep a phone that leads to the caller.
    ConnectToMe,
    /// Asks for a phone that leads to the task that answers.
    ConnectMeTo,
    /// Offers bytes of the caller's memory to the receiver.
    DataWrite,
    /// Asks for bytes of the receiver's memory.
    DataRead,
    /// Offers an area of the caller's memory to the receiver.
    ShareOut,
    /// Asks for an area of the receiver's memory.
    ShareIn,
    /// A method of the system that no call is accepted with.
    Unused,
    /// Means what the two tasks make of it.
    User,
}

impl MethodKind {
    /// The kind of the method with this number.
    pub fn of(method: u64) -> MethodKind
        ensures { result ≡ kind_of method }
    {
        match method {
            PHONE_HUNGUP => MethodKind::PhoneHungUp,
            CONNECT_TO_ME => MethodKind::ConnectToMe,
            CONNECT_ME_TO => MethodKind::ConnectMeTo,
            DATA_WRITE => MethodKind::DataWrite,
            DATA_READ => MethodKind::DataRead,
            SHARE_OUT => MethodKind::ShareOut,
            SHARE_IN => MethodKind::ShareIn,
            0..FIRST_USER_METHOD => MethodKind::Unused,
            FIRST_USER_METHOD.. => MethodKind::User,
        }
    }
}
