//! Numbers of tasks, phones, calls, stores, fibrils and exchanges, and the codes of answers.

/// A task, from 1 on in the order in which tasks are added.
#[derive(Clone, Copy, Debug, PartialEq, Eq, Hash)]
pub struct TaskNo(pub u64);

/// A phone of a task, from 0 on.
#[derive(Clone, Copy, Debug, PartialEq, Eq, Hash)]
pub struct PhoneNo(pub u32);

/// A call, from 1 on in the order of acceptance. No number is used twice.
#[derive(Clone, Copy, Debug, PartialEq, Eq)]
pub struct CallNo(pub u64);

/// A store of bytes, from 1 on in the order in which stores are made. No number is used twice.
#[derive(Clone, Copy, Debug, PartialEq, Eq)]
pub struct StoreNo(pub u64);

/// A fibril of a task, from 1 on in the order in which the task makes its fibrils. No number is used
/// twice.
#[derive(Clone, Copy, Debug, PartialEq, Eq)]
pub struct FibrilNo(pub u64);

/// An exchange of a task, from 1 on in the order in which the task begins new ones. No number is used
/// twice.
#[derive(Clone, Copy, Debug, PartialEq, Eq)]
pub struct ExchangeNo(pub u64);

/// What an answer says. 0 is success; a task may answer with any number.
#[derive(Clone, Copy, Debug, PartialEq, Eq)]
pub struct Code(pub u64);

/// A phone of a task: where a call comes from.
#[derive(Clone, Copy, Debug, PartialEq, Eq, Hash)]
pub struct Label {
    pub task: TaskNo,
    pub phone: PhoneNo,
}

impl Code {
    /// Success.
    pub const EOK: Code = Code(0);

    /// No such call, phone, task or area.
    pub const ENOENT: Code = Code(1);

    /// This is not allowed.
    pub const EPERM: Code = Code(2);

    /// It is there already.
    pub const EEXIST: Code = Code(3);

    /// An argument has no meaning.
    pub const EINVAL: Code = Code(4);

    /// A limit is reached.
    pub const ELIMIT: Code = Code(5);

    /// The other side has hung up or has ended.
    pub const EHANGUP: Code = Code(6);

    /// The call could not be passed on.
    pub const EFORWARD: Code = Code(7);

    /// The session is in use.
    pub const EBUSY: Code = Code(8);

    /// The pool of buffers has no room.
    pub const ENOMEM: Code = Code(9);
}
