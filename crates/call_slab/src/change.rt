//! What a live call may be given.

ghost use Rattle.std.specs.Prelude.{◌≡◌};
ghost use Rattle.call_slab.specs.Change.{changed};

use crate::call::Call;
use ipc_ids::{Buffer, Label, Msg, Reply};

/// What a live call is given. It leaves the number, the caller, the place and the stamp.
#[derive(Drop)]
pub enum Change {
    /// The message and the reserved phone of its receipt.
    Receipt(Msg, Option<Label>),
    /// The reply and a reserved phone.
    Answer(Reply, Option<Label>),
    /// The reply and the bytes that the call carries.
    AnswerWith(Reply, Buffer),
    /// Another message, label and reserved phone.
    Address(Msg, Label, Option<Label>),
    /// Another message and label.
    Message(Msg, Label),
    /// Another request.
    Request(Msg),
    /// The reply.
    Reply(Reply),
    /// Another reserved phone, or none.
    Reserved(Option<Label>),
    /// Other bytes.
    Bytes(Buffer),
}

/// Gives the call what is in `change`.
#[inline(always)]
pub fn give(call: &mut Call, change: Change)
    ensures { call.new ≡ changed change call.old }
{
    match change {
        Change::Receipt(msg, reserved) => {
            call.msg = msg;
            call.reserved = reserved;
        }
        Change::Answer(reply, reserved) => {
            call.reply = reply;
            call.reserved = reserved;
        }
        Change::AnswerWith(reply, bytes) => {
            call.reply = reply;
            call.buffer = bytes;
        }
        Change::Address(msg, label, reserved) => {
            call.msg = msg;
            call.label = label;
            call.reserved = reserved;
        }
        Change::Message(msg, label) => {
            call.msg = msg;
            call.label = label;
        }
        Change::Request(request) => call.request = request,
        Change::Reply(reply) => call.reply = reply,
        Change::Reserved(reserved) => call.reserved = reserved,
        Change::Bytes(bytes) => call.buffer = bytes,
    }
}
