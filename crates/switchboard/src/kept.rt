//! The phones that connect calls keep for their connections.
ghost use Rattle.std.specs.Prelude.{◌≡◌};
ghost use Rattle.switchboard.specs.Kept.{keeper_of, phone_of, held_phone, asked_phone, kept_phone, lent_phone, phone_in, unless_freed, kept_note};

use call_slab::{Call, Place};
use ipc_ids::{Code, Entry, Label, MethodKind, PhoneNo, PhoneState, TaskNo};

/// Who keeps a phone for a call.
#[derive(Clone, Copy)]
pub(crate) enum Keeper {
    /// No task.
    Nobody,
    /// The task that holds the call.
    Receiver,
    /// The task that made the call.
    Caller,
}

impl Keeper {
    /// Who keeps a phone for a call of this kind.
    fn of(kind: MethodKind) -> Keeper
        ensures { result ≡ keeper_of kind }
    {
        match kind {
            MethodKind::ConnectToMe => Keeper::Receiver,
            MethodKind::ConnectMeTo => Keeper::Caller,
            MethodKind::PhoneHungUp
            | MethodKind::DataWrite
            | MethodKind::DataRead
            | MethodKind::ShareOut
            | MethodKind::ShareIn
            | MethodKind::Unused
            | MethodKind::User => Keeper::Nobody,
        }
    }
}

/// The phone that the call keeps: a CONNECT_TO_ME one of the task that holds it, a CONNECT_ME_TO
/// one of the task that made it, until it is accepted.
pub(crate) fn kept_phone(call: &Call) -> Option<Label>
    ensures { result ≡ kept_phone call.now }
{
    match Keeper::of(MethodKind::of(call.request.method)) {
        Keeper::Nobody => None,
        Keeper::Receiver => held_phone(call),
        Keeper::Caller => asked_phone(call),
    }
}

/// The phone that the call keeps, where it is one of the task that holds it.
pub(crate) fn lent_phone(call: &Call) -> Option<Label>
    ensures { result ≡ lent_phone call.now }
{
    match Keeper::of(MethodKind::of(call.request.method)) {
        Keeper::Receiver => held_phone(call),
        Keeper::Nobody | Keeper::Caller => None,
    }
}

/// The phone of the task that holds the call.
fn held_phone(call: &Call) -> Option<Label>
    ensures { result ≡ held_phone call.now.place call.now.reserved }
{
    match call.place {
        Place::Dispatched(holder) => phone_of(holder, call.reserved),
        Place::Incoming(_) | Place::Answers(_) => None,
    }
}

/// The phone of the task that made the call, which was not accepted yet.
fn asked_phone(call: &Call) -> Option<Label>
    ensures { result
        ≡ asked_phone call.now.from.task call.now.place call.now.reply.code call.now.reserved }
{
    match call.place {
        Place::Answers(_) if call.reply.code == Code::EOK => None,
        _ => phone_of(call.from.task, call.reserved),
    }
}

/// The phone, where it is one of that task.
fn phone_of(task: TaskNo, phone: Option<Label>) -> Option<Label>
    ensures { result ≡ phone_of task phone }
{
    match phone {
        Some(label) if label.task.0 == task.0 => Some(label),
        _ => None,
    }
}

/// The number of the phone, where there is one.
pub(crate) fn phone_in(kept: Option<Label>) -> Option<PhoneNo>
    ensures { result ≡ phone_in kept }
{
    match kept {
        Some(label) => Some(label.phone),
        None => None,
    }
}

/// What a call still reserves when that phone was freed.
pub(crate) fn unless_freed(freed: Option<Label>, reserved: Option<Label>) -> Option<Label>
    ensures { result ≡ unless_freed freed reserved }
{
    match freed {
        Some(_) => None,
        None => reserved,
    }
}

/// The entry that tells of the state that the phone is in now, where there is a phone.
pub fn kept_note(phone: Option<Label>, state: PhoneState) -> Option<Entry>
    ensures { result ≡ kept_note phone state }
{
    match phone {
        Some(phone) => Some(Entry::PhoneIs { phone, state }),
        None => None,
    }
}
