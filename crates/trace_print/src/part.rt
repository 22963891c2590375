//! The parts that the lines of entries share.
ghost use Rattle.std.specs.Prelude.{◌≡◌, ◌+◌, ◌≤◌, ◌++◌, IsTrue, length, decimal, map, slice_index};
ghost use Rattle.trace_print.specs.Text.{task_text, label_text, code_text, spaced_text, args_text, msg_text, reply_text};

use crate::pen::Pen;
use ipc_ids::{Code, Label, Msg, Reply, TaskNo};

#[tactic(auto, using(crate::proofs::Marks::map_append))]
#[inline(always)]
pub fn push_numbered<P: Pen>(pen: &mut P, word: &[u8], number: u64)
    requires room { length word.now + 20 ≤ P.left pen.old }
    ensures text { P.seen pen.new ≡ P.seen pen.old ++ map P.mark (word.now ++ decimal number) }
    ensures left { P.left pen.old ≤ P.left pen.new + length word.now + 20 }
{
    pen.word(word);
    pen.number(number);
}

#[tactic(auto, using(crate::proofs::Marks::map_append))]
#[inline(always)]
pub fn push_task<P: Pen>(pen: &mut P, task: TaskNo)
    requires room { 21 ≤ P.left pen.old }
    ensures text { P.seen pen.new ≡ P.seen pen.old ++ map P.mark (task_text task) }
    ensures left { P.left pen.old ≤ P.left pen.new + 21 }
{
    pen.byte(b't');
    pen.number(task.0);
}

#[tactic(auto, using(crate::proofs::Marks::map_append))]
#[inline(always)]
pub fn push_label<P: Pen>(pen: &mut P, label: Label)
    requires room { 42 ≤ P.left pen.old }
    ensures text { P.seen pen.new ≡ P.seen pen.old ++ map P.mark (label_text label) }
    ensures left { P.left pen.old ≤ P.left pen.new + 42 }
{
    push_task(pen, label.task);
    pen.byte(b'.');
    pen.number(label.phone.0 as u64);
}

#[tactic(auto, using(crate::proofs::Marks::map_append))]
#[inline(always)]
pub fn push_code<P: Pen>(pen: &mut P, code: Code)
    requires room { 20 ≤ P.left pen.old }
    ensures text { P.seen pen.new ≡ P.seen pen.old ++ map P.mark (code_text code) }
    ensures left { P.left pen.old ≤ P.left pen.new + 20 }
{
    match code.0 {
        0 => pen.word(b"EOK"),
        1 => pen.word(b"ENOENT"),
        2 => pen.word(b"EPERM"),
        3 => pen.word(b"EEXIST"),
        4 => pen.word(b"EINVAL"),
        5 => pen.word(b"ELIMIT"),
        6 => pen.word(b"EHANGUP"),
        7 => pen.word(b"EFORWARD"),
        8 => pen.word(b"EBUSY"),
        9 => pen.word(b"ENOMEM"),
        number => pen.number(number),
    }
}

#[tactic(auto, using(crate::proofs::Marks::map_append))]
#[inline(always)]
pub fn push_spaced<P: Pen>(pen: &mut P, number: u64)
    requires room { 21 ≤ P.left pen.old }
    ensures text { P.seen pen.new ≡ P.seen pen.old ++ map P.mark (spaced_text number) }
    ensures left { P.left pen.old ≤ P.left pen.new + 21 }
{
    pen.byte(b' ');
    pen.number(number);
}

/// Whether all arguments but the first are 0, as in most messages and replies.
#[inline(always)]
fn ends_in_zeros(args: &[u64; 5]) -> bool
    ensures { IsTrue result → (slice_index args.now 1 ≡ 0) × (slice_index args.now 2 ≡ 0)
        × (slice_index args.now 3 ≡ 0) × (slice_index args.now 4 ≡ 0) }
{
    args[1] == 0 && args[2] == 0 && args[3] == 0 && args[4] == 0
}

#[tactic(auto, using(crate::proofs::Marks::map_append))]
#[inline(always)]
fn push_args<P: Pen>(pen: &mut P, args: &[u64; 5])
    requires room { 105 ≤ P.left pen.old }
    ensures text { P.seen pen.new ≡ P.seen pen.old ++ map P.mark (args_text args.now) }
    ensures left { P.left pen.old ≤ P.left pen.new + 105 }
{
    push_spaced(pen, args[0]);
    if ends_in_zeros(args) {
        pen.word(b" 0 0 0 0");
        return;
    }
    push_spaced(pen, args[1]);
    push_spaced(pen, args[2]);
    push_spaced(pen, args[3]);
    push_spaced(pen, args[4]);
}

#[tactic(auto, using(crate::proofs::Marks::map_append))]
#[inline(always)]
pub fn push_msg<P: Pen>(pen: &mut P, msg: &Msg)
    requires room { 125 ≤ P.left pen.old }
    ensures text { P.seen pen.new ≡ P.seen pen.old ++ map P.mark (msg_text msg.now) }
    ensures left { P.left pen.old ≤ P.left pen.new + 125 }
{
    pen.number(msg.method);
    push_args(pen, &msg.args);
}

#[tactic(auto, using(crate::proofs::Marks::map_append))]
#[inline(always)]
pub fn push_reply<P: Pen>(pen: &mut P, reply: &Reply)
    requires room { 125 ≤ P.left pen.old }
    ensures text { P.seen pen.new ≡ P.seen pen.old ++ map P.mark (reply_text reply.now) }
    ensures left { P.left pen.old ≤ P.left pen.new + 125 }
{
    push_code(pen, reply.code);
    push_args(pen, &reply.args);
}
