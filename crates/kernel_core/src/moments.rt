//! The four moments of a call at which its method does more than carry a message.
ghost use Rattle.std.specs.Prelude.{◌≡◌, ◌≤◌, true, Some, IsSome};
ghost use Rattle.ipc_ids.specs.Methods.{kind_of};
ghost use Rattle.call_slab.specs.declared.call.Place.TheVariants.{Incoming};
ghost use Rattle.answerbox.specs.Calls.{call_at};
ghost use Rattle.answerbox.specs.Places.{IsAt};
ghost use Rattle.switchboard.specs.Board.{IsAdded, IsNewCall};
ghost use Rattle.switchboard.specs.Joins.{on_call, answer_to};
ghost use Rattle.switchboard.specs.Kept.{accepts};
ghost use Rattle.switchboard.specs.Rooms.{KeepsCalls, MayAccept, UsesRoom};
ghost use Rattle.switchboard.specs.Serving.{DoesOrLeaves};
ghost use Rattle.kernel_core.specs.Moments.{cut_call, cut_down, with_fifth, with_phone_named, number_of, reply_of, brings_bytes, before_send as before_send_of, on_accept as on_accept_of};
ghost use Rattle.kernel_core.specs.Handing.{IsSent, Arrives};

use address_space::SpaceFault;
use answerbox::Found;
use call_slab::Call;
use data_hooks::{cut_args, read_before_send};
use ipc_ids::{Code, Entry, Label, MethodKind, Msg, NoMemory, PhoneState, Reply, TaskNo, Trace};
use share_hooks::in_before_send;
use switchboard::{Arrival, Share, Switchboard, kept_note};

/// The phone number that a CONNECT_TO_ME names where its receiver has no usable phone.
const NO_PHONE: u64 = 64;

/// Before the new call is sent: the caller of a CONNECT_ME_TO keeps its first usable phone for it,
/// and the message names the caller and the phone; a DATA_WRITE takes the caller's bytes with it; and
/// a data call that asks for it is cut down. Returns what is told of it.
///
/// # Errors
///
/// `Refused` with the code with which the call is answered at once; `NoMemory`. Then nothing has
/// changed.
pub(crate) fn before_send(
    board: &mut Switchboard,
    call: &mut Call,
) -> Result<Option<Entry>, SpaceFault>
    requires new_call { IsNewCall board.old.state call.old }
    requires added { IsAdded board.old.state call.old.from.task }
    requires few { call.old.from.task.0 ≤ 64 }
    ensures sent { IsSent board.old board.new call.old call.new result
        (before_send_of board.old.state call.old) }
    ensures keeps { KeepsCalls board.old board.new }
{
    match MethodKind::of(call.request.method) {
        MethodKind::ConnectMeTo => match board.keep_to_send(call.from.task) {
            Ok(kept) => {
                let number = 64 * call.from.task.0 + u64::from(kept.phone.0);
                call.msg = with_fifth(&call.msg, number);
                call.reserved = Some(kept);
                Ok(kept_note(Some(kept), PhoneState::Connecting))
            }
            Err(code) => Err(SpaceFault::Refused(code)),
        },
        MethodKind::DataWrite => match board.bytes_to_send(call.from.task, &call.request.args) {
            Ok(bytes) => {
                cut_call(call);
                call.buffer = bytes;
                Ok(None)
            }
            Err(fault) => Err(fault),
        },
        MethodKind::DataRead => match read_before_send(&call.request.args) {
            Ok(_) => {
                cut_call(call);
                Ok(None)
            }
            Err(code) => Err(SpaceFault::Refused(code)),
        },
        MethodKind::ShareOut => match board.may_share_out(call.from.task, &call.request.args) {
            Ok(()) => Ok(None),
            Err(code) => Err(SpaceFault::Refused(code)),
        },
        MethodKind::ShareIn => match in_before_send(&call.request.args) {
            Ok(()) => Ok(None),
            Err(code) => Err(SpaceFault::Refused(code)),
        },
        MethodKind::PhoneHungUp | MethodKind::ConnectToMe | MethodKind::Unused | MethodKind::User =>
            Ok(None),
    }
}

/// As the task receives the call: it keeps its first usable phone for a CONNECT_TO_ME, and the
/// message names the phone, or 64. Returns what the call takes with it.
pub(crate) fn on_receive(board: &mut Switchboard, found: Found, who: TaskNo) -> Arrival
    requires live { IsSome (call_at board.old.state.calls found.number.0) }
    requires incoming { IsAt board.old.state.calls found.number.0 (Incoming who) }
    requires added { IsAdded board.old.state who }
    ensures arrives { Arrives board.old board.new result who
        (call_at board.old.state.calls found.number.0) }
    ensures keeps { KeepsCalls board.old board.new }
{
    let call = board.read(found);
    let (kind, msg, reserved) = (MethodKind::of(call.request.method), call.msg, call.reserved);
    match kind {
        MethodKind::ConnectToMe => {
            let kept = board.keep_to_receive(who);
            Arrival {
                msg: with_fifth(&msg, number_of(kept)),
                reserved: kept,
                note: kept_note(kept, PhoneState::Connecting),
            }
        }
        MethodKind::PhoneHungUp
        | MethodKind::ConnectMeTo
        | MethodKind::DataWrite
        | MethodKind::DataRead
        | MethodKind::ShareOut
        | MethodKind::ShareIn
        | MethodKind::Unused
        | MethodKind::User => Arrival {
            msg,
            reserved,
            note: None,
        },
    }
}

/// As the task accepts a call of that caller: a phone that was kept for it leads to the other of
/// the two, the bytes of a DATA_WRITE are written, those of a DATA_READ are taken along, and a
/// share gives one of the two an area.
///
/// # Errors
///
/// `NoMemory` where no memory was found for bytes; then nothing has changed.
pub(crate) fn on_accept(
    board: &mut Switchboard,
    found: Found,
    kind: MethodKind,
    reply: &Reply,
    who: TaskNo,
    caller: TaskNo,
    out: &mut Trace,
) -> Result<(), NoMemory>
    requires accepting { MayAccept board.old out.old found.number kind who caller }
    requires accepts { accepts reply.now.code ≡ true }
    ensures step { DoesOrLeaves result board.old board.new out.old out.new
        (on_call (λ k c. answer_to (on_accept_of k c reply.now who caller) (Some who) caller)
        board.old.state found.number.0) }
    ensures room { UsesRoom board.old board.new out.old out.new 0 1 2 }
{
    match kind {
        MethodKind::ConnectToMe => {
            board.accept_to_me(found, reply, who, caller, out);
            Ok(())
        }
        MethodKind::ConnectMeTo => {
            board.accept_me_to(found, reply, who, caller, out);
            Ok(())
        }
        MethodKind::DataWrite => {
            board.accept_write(found, reply, who, caller, out);
            Ok(())
        }
        MethodKind::DataRead => board.accept_read(found, reply, who, caller, out),
        MethodKind::ShareOut => {
            board.accept_share(Share::Out, found, reply, who, caller, out);
            Ok(())
        }
        MethodKind::ShareIn => {
            board.accept_share(Share::In, found, reply, who, caller, out);
            Ok(())
        }
        MethodKind::PhoneHungUp | MethodKind::Unused | MethodKind::User => {
            board.finish(found, reply, who, caller, out);
            Ok(())
        }
    }
}

/// Whether the answer brings bytes: that of a DATA_READ that was accepted.
pub(crate) fn brings_bytes(call: &Call) -> bool
    ensures { result ≡ brings_bytes call.now }
{
    match MethodKind::of(call.request.method) {
        MethodKind::DataRead => call.reply.code == Code::EOK,
        MethodKind::PhoneHungUp
        | MethodKind::ConnectToMe
        | MethodKind::ConnectMeTo
        | MethodKind::DataWrite
        | MethodKind::ShareOut
        | MethodKind::ShareIn
        | MethodKind::Unused
        | MethodKind::User => false,
    }
}

/// As an answer is delivered that brings no bytes: the answer of a CONNECT_ME_TO that was accepted
/// names the phone.
/// Returns the reply that its caller is told.
pub(crate) fn on_delivery(call: &Call) -> Reply
    ensures { result ≡ reply_of (kind_of call.now.request.method) call.now }
{
    match MethodKind::of(call.request.method) {
        MethodKind::ConnectMeTo if call.reply.code == Code::EOK => {
            with_phone_named(call.reserved, &call.reply)
        }
        _ => call.reply,
    }
}

/// The reply, which names the phone where there is one.
fn with_phone_named(phone: Option<Label>, reply: &Reply) -> Reply
    ensures { result ≡ with_phone_named phone reply.now }
{
    match phone {
        Some(label) => {
            let mut args = reply.args;
            args[4] = u64::from(label.phone.0);
            Reply {
                code: reply.code,
                args,
            }
        }
        None => *reply,
    }
}

/// Cuts a data call down, in what it asks and in what is received of it.
fn cut_call(call: &mut Call)
    ensures { call.new ≡ cut_call call.old }
{
    call.request = cut_down(&call.request);
    call.msg = cut_down(&call.msg);
}

/// The message of a data call, where the second argument is cut down to the most.
fn cut_down(msg: &Msg) -> Msg
    ensures { result ≡ cut_down msg.now }
{
    Msg {
        method: msg.method,
        args: cut_args(&msg.args),
    }
}

/// The message with this fifth argument.
fn with_fifth(msg: &Msg, number: u64) -> Msg
    ensures { result ≡ with_fifth msg.now number }
{
    let mut args = msg.args;
    args[4] = number;
    Msg {
        method: msg.method,
        args,
    }
}

/// The number by which a message names the phone.
fn number_of(phone: Option<Label>) -> u64
    ensures { result ≡ number_of phone }
{
    match phone {
        Some(label) => u64::from(label.phone.0),
        None => NO_PHONE,
    }
}
