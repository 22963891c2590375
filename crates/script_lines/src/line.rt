//! What one line adds to a script.
ghost use Rattle.std.specs.Prelude.{◌≡◌, ◌≢◌, ◌≤◌, ◌++◌, length, drop, IfSome, IfOk, OnOk, Some, IsTrue, true};
ghost use Rattle.ipc_ids.specs.declared.op.Op.{Op};
ghost use Rattle.std.specs.Option.{ForSome, option_map};
ghost use Rattle.script_lines.specs.declared.plan.Kind.TheVariants.{Naming, Raw};
ghost use Rattle.script_lines.specs.Text.{texts, first_line, behind};
ghost use Rattle.script_lines.specs.Line.{kind_of, counted_kind_of, service_kind_of, number_up_to, most_behind, head, plain_task, counted_task, service_task, task_of, template_of, wire_of, ns, task, template, body, wire, operation, body_of_last, operation_of_last, after_verb, after_words, after_line};
ghost use Rattle.script_lines.specs.Draft.{IsStep, IsWhole, Follows, with_new, plan_of, taker, present};
ghost use Rattle.script_lines.specs.LastLine.{is_op, last_op, SaysLastOp, TakesLastOp, KeepsLastOp, IsFirstLine, Keeps, last_draft, op_of_last};
ghost use Rattle.script_lines.specs.Ranges.{IsOpOf};
ghost use Rattle.script_lines.specs.declared.word.OpVerb.TheVariants.{Call};
ghost use Rattle.script_lines.specs.declared.word.Verb.TheVariants.{Ns};
ghost use Rattle.script_lines.specs.ScriptParts.{parts_of, AreWhole};
ghost use Rattle.script_lines.specs.Sound.{HeadFits};

use crate::draft::{Draft, Drafts, MOST_PHONES, TaskHead};
use crate::fault::{LineFault, Reason};
use crate::name::Name;
use crate::names::Names;
use crate::operation::{op_in, two_and_arguments};
use crate::plan::Kind;
use crate::same::are_same;
use crate::text::split_line;
use crate::word::{OpVerb, Verb, number, verb_of};
use ipc_ids::{Op, look_up};
use std::alloc::Global;

const MOST_BLOCKS: u32 = 64;

/// The kinds whose lines may go without a number.
const KINDS: [(&[u8], Kind); 2] = [(b"raw", Kind::Raw), (b"async", Kind::Async)];

/// The kinds whose lines may have one number.
const COUNTED_KINDS: [(&[u8], Kind); 3] = [
    (b"raw", Kind::Raw),
    (b"async", Kind::Async),
    (b"block", Kind::Block),
];

/// The kind whose lines may have two.
const SERVICE_KINDS: [(&[u8], Kind); 1] = [(b"block", Kind::Block)];

fn kind_of(word: &[u8]) -> Option<Kind>
    ensures { result ≡ kind_of word.now }
{
    look_up(&KINDS, word)
}

fn counted_kind_of(word: &[u8]) -> Option<Kind>
    ensures { result ≡ counted_kind_of word.now }
{
    look_up(&COUNTED_KINDS, word)
}

fn service_kind_of(word: &[u8]) -> Option<Kind>
    ensures { result ≡ service_kind_of word.now }
{
    look_up(&SERVICE_KINDS, word)
}

/// How great the number behind a kind may be.
fn most_behind(kind: Kind) -> u32
    ensures { result ≡ most_behind kind }
{
    match kind {
        Kind::Block => MOST_BLOCKS,
        Kind::Naming | Kind::Raw | Kind::Async => MOST_PHONES,
    }
}

/// A number from 1 up to a limit.
#[tactic(auto, unfolding(crate::specs::Line::number_up_to))]
fn number_up_to(most: u32, word: &[u8]) -> Option<u32>
    ensures { result ≡ number_up_to most word.now }
{
    let number = number(word)?;
    if 1 <= number && number <= u64::from(most) {
        Some(number as u32)
    } else {
        None
    }
}

/// What a line says that has this number behind the kind.
fn head(name: Name, kind: Kind, count: u32, service: Option<u64>) -> TaskHead
    ensures { result ≡ head name kind count service }
{
    match kind {
        Kind::Block => TaskHead {
            name,
            kind,
            limit: MOST_PHONES,
            blocks: u64::from(count),
            service,
        },
        Kind::Naming | Kind::Raw | Kind::Async => TaskHead {
            name,
            kind,
            limit: count,
            blocks: 0,
            service: None,
        },
    }
}

/// `NAME raw` or `NAME async`
#[tactic(auto, unfolding(crate::specs::Line::plain_task))]
fn plain_task(name: &[u8], kind: &[u8]) -> Result<TaskHead, Reason>
    ensures { result ≡ plain_task name.now kind.now }
{
    let name = needed!(Name::from_slice(name));
    let kind = needed!(kind_of(kind));
    Ok(head(name, kind, MOST_PHONES, None))
}

/// A name, a kind that was looked up, and a number.
#[tactic(auto, unfolding(crate::specs::Line::counted_task))]
fn counted_task(name: &[u8], found: Option<Kind>, count: &[u8]) -> Result<TaskHead, Reason>
    ensures { result ≡ counted_task name.now found count.now }
{
    let name = needed!(Name::from_slice(name));
    let kind = needed!(found);
    let count = needed!(number_up_to(most_behind(kind), count));
    Ok(head(name, kind, count, None))
}

/// `NAME block N N`
#[tactic(auto, unfolding(crate::specs::Line::service_task))]
fn service_task(name: &[u8], kind: &[u8], count: &[u8], service: &[u8]) -> Result<TaskHead, Reason>
    ensures { result ≡ service_task name.now kind.now count.now service.now }
{
    let name = needed!(Name::from_slice(name));
    let kind = needed!(service_kind_of(kind));
    let count = needed!(number_up_to(most_behind(kind), count));
    let service = needed!(number(service));
    Ok(head(name, kind, count, Some(service)))
}

/// The words behind `task`: a name, a kind, and maybe numbers.
#[tactic(auto, unfolding(crate::specs::Line::task_of))]
fn task_of(words: &[&[u8]]) -> Result<TaskHead, Reason>
    ensures { result ≡ task_of (texts words.now) }
{
    match words {
        [name, kind] => plain_task(*name, *kind),
        [name, kind, count] => counted_task(*name, counted_kind_of(*kind), *count),
        [name, kind, count, service] => service_task(*name, *kind, *count, *service),
        _ => Err(Reason::WrongCount),
    }
}

/// The words behind `template`: a name, `raw` or `async`, and maybe a number.
#[tactic(auto, unfolding(crate::specs::Line::template_of))]
fn template_of(words: &[&[u8]]) -> Result<TaskHead, Reason>
    ensures { result ≡ template_of (texts words.now) }
{
    match words {
        [name, kind] => plain_task(*name, *kind),
        [name, kind, count] => counted_task(*name, kind_of(*kind), *count),
        _ => Err(Reason::WrongCount),
    }
}

/// `NAME N NAME`
#[tactic(auto, unfolding(crate::specs::Line::wire_of))]
fn wire_of(words: &[&[u8]]) -> Result<(Name, u64, Name), Reason>
    ensures { result ≡ wire_of (texts words.now) }
{
    match words {
        [from, phone, to] => {
            let from = needed!(Name::from_slice(*from));
            let phone = needed!(number(*phone));
            let to = needed!(Name::from_slice(*to));
            Ok((from, phone, to))
        }
        _ => Err(Reason::WrongCount),
    }
}

/// Only as the first line that has words; none behind it.
#[tactic(auto, unfolding(crate::specs::Line::ns))]
fn add_service(drafts: &mut Drafts, alloc: Global, words: &[&[u8]]) -> Result<(), LineFault>
    requires { AreWhole drafts.old }
    ensures value { Follows result (parts_of drafts.new)
        (after_verb (parts_of drafts.old) (Some Ns) (texts words.now)) }
    ensures whole { OnOk result (AreWhole drafts.new) }
{
    if !drafts.are_empty() {
        return Err(LineFault::Bad(Reason::OutOfPlace));
    }
    match words {
        [] => {
            drafts.on_template = false;
            drafts.tasks.add_service(alloc)
        }
        _ => Err(LineFault::Bad(Reason::WrongCount)),
    }
}

/// A task or template with this head, whose name is none of the others.
#[tactic(auto, unfolding(crate::specs::Draft::with_new))]
fn add_new(
    draft: &mut Draft,
    alloc: Global,
    others: &Names,
    head: TaskHead,
) -> Result<(), LineFault>
    requires not_naming { head.kind ≢ Naming }
    requires fits { HeadFits head.kind head }
    requires whole { IsWhole draft.old }
    ensures value { IsStep result draft.old draft.new (λ plan. with_new others.now plan head) }
    ensures whole { OnOk result (IsWhole draft.new) }
{
    if others.place_of(head.name.as_slice()).is_some() {
        return Err(LineFault::Bad(Reason::NameTaken));
    }
    draft.add_task(alloc, head)
}

/// A task, whose name is none of the templates'.
#[tactic(auto, unfolding(crate::specs::Line::task))]
fn add_task(
    draft: &mut Draft,
    alloc: Global,
    others: &Names,
    words: &[&[u8]],
) -> Result<(), LineFault>
    requires { IsWhole draft.old }
    ensures value { IsStep result draft.old draft.new
        (λ plan. task others.now plan (texts words.now)) }
    ensures whole { OnOk result (IsWhole draft.new) }
{
    let head = task_of(words)?;
    add_new(draft, alloc, others, head)
}

/// A template, whose name is none of the tasks'.
#[tactic(auto, unfolding(crate::specs::Line::template))]
fn add_template(
    draft: &mut Draft,
    alloc: Global,
    others: &Names,
    words: &[&[u8]],
) -> Result<(), LineFault>
    requires { IsWhole draft.old }
    ensures value { IsStep result draft.old draft.new
        (λ plan. template others.now plan (texts words.now)) }
    ensures whole { OnOk result (IsWhole draft.new) }
{
    let head = template_of(words)?;
    add_new(draft, alloc, others, head)
}

/// A body of connections or of a fibril, only in an async task; no words.
#[tactic(auto, unfolding(crate::specs::Line::body))]
fn add_body(
    draft: &mut Draft,
    alloc: Global,
    connection: bool,
    words: &[&[u8]],
) -> Result<(), LineFault>
    requires { IsWhole draft.old }
    ensures value { IsStep result draft.old draft.new
        (λ plan. body plan connection (texts words.now)) }
    ensures whole { OnOk result (IsWhole draft.new) }
{
    if !draft.takes_bodies() {
        return Err(LineFault::Bad(Reason::OutOfPlace));
    }
    match words {
        [] => draft.add_body(alloc, connection),
        _ => Err(LineFault::Bad(Reason::WrongCount)),
    }
}

#[tactic(auto, unfolding(crate::specs::Line::wire))]
fn add_wire(draft: &mut Draft, words: &[&[u8]]) -> Result<(), LineFault>
    requires { IsWhole draft.old }
    ensures value { IsStep result draft.old draft.new (λ plan. wire plan (texts words.now)) }
    ensures whole { OnOk result (IsWhole draft.new) }
{
    let (from, phone, to) = wire_of(words)?;
    draft.add_wire(from.as_slice(), phone, to.as_slice())
}

/// A call of a raw task, the commonest line of a script.
#[inline(always)]
#[tactic(auto, unfolding(crate::specs::Line::operation, crate::specs::Operation::call_op))]
fn add_call(draft: &mut Draft, words: &[&[u8]]) -> Result<(), LineFault>
    requires raw { taker draft.old ≡ Some Raw }
    requires present { present (plan_of draft.old) ≡ Some Raw }
    requires whole { IsWhole draft.old }
    ensures value { IsStep result draft.old draft.new
        (λ plan. operation plan Call (texts words.now)) }
    ensures whole { OnOk result (IsWhole draft.new
        × SaysLastOp draft.new (λ w. operation_of_last w Call (texts words.now))) }
{
    let (phone, method, args) = two_and_arguments(words)?;
    draft.add_op(Op::Call {
        phone,
        method,
        args,
    })
}

/// An operation of any kind.
#[inline(never)]
#[tactic(auto, unfolding(crate::specs::Line::operation))]
fn add_any_operation(draft: &mut Draft, verb: OpVerb, words: &[&[u8]]) -> Result<(), LineFault>
    requires { IsWhole draft.old }
    ensures value { IsStep result draft.old draft.new
        (λ plan. operation plan verb (texts words.now)) }
    ensures whole { OnOk result (IsWhole draft.new
        × SaysLastOp draft.new (λ w. operation_of_last w verb (texts words.now))) }
{
    let op = op_in(draft.present(), verb, words)?;
    draft.add_op(op)
}

fn add_operation(draft: &mut Draft, verb: OpVerb, words: &[&[u8]]) -> Result<(), LineFault>
    requires { IsWhole draft.old }
    ensures value { IsStep result draft.old draft.new
        (λ plan. operation plan verb (texts words.now)) }
    ensures whole { OnOk result (IsWhole draft.new
        × SaysLastOp draft.new (λ w. operation_of_last w verb (texts words.now))) }
{
    match (draft.present(), verb) {
        (Some(Kind::Raw), OpVerb::Call) => add_call(draft, words),
        _ => add_any_operation(draft, verb, words),
    }
}

/// A body of the last task or template.
fn add_body_to_last(
    drafts: &mut Drafts,
    alloc: Global,
    connection: bool,
    words: &[&[u8]],
) -> Result<(), LineFault>
    requires { AreWhole drafts.old }
    ensures value { Follows result (parts_of drafts.new)
        (body_of_last (parts_of drafts.old) connection (texts words.now)) }
    ensures whole { OnOk result (AreWhole drafts.new) }
{
    match drafts.on_template {
        true => add_body(&mut drafts.templates, alloc, connection, words),
        false => add_body(&mut drafts.tasks, alloc, connection, words),
    }
}

/// An operation of the last task or template.
fn add_operation_to_last(
    drafts: &mut Drafts,
    verb: OpVerb,
    words: &[&[u8]],
) -> Result<(), LineFault>
    requires { AreWhole drafts.old }
    ensures value { Follows result (parts_of drafts.new)
        (operation_of_last (parts_of drafts.old) verb (texts words.now)) }
    ensures whole { OnOk result (AreWhole drafts.new × SaysLastOp (last_draft drafts.new)
        (λ w. operation_of_last w verb (texts words.now))) }
{
    match drafts.on_template {
        true => add_operation(&mut drafts.templates, verb, words),
        false => add_operation(&mut drafts.tasks, verb, words),
    }
}

/// Whether a first word is that of an operation.
fn is_op(verb: Verb) -> bool
    ensures { result ≡ is_op verb }
{
    match verb {
        Verb::Op(_) => true,
        Verb::Ns | Verb::Task | Verb::Template | Verb::Fibril | Verb::Connection | Verb::Wire =>
            false,
    }
}

/// Adds what a first word and the words behind it say.
fn add_by_verb(
    drafts: &mut Drafts,
    alloc: Global,
    verb: Verb,
    words: &[&[u8]],
) -> Result<(), LineFault>
    requires { AreWhole drafts.old }
    ensures value { Follows result (parts_of drafts.new)
        (after_verb (parts_of drafts.old) (Some verb) (texts words.now)) }
    ensures whole { OnOk result (AreWhole drafts.new × (is_op verb ≡ true
        → SaysLastOp (last_draft drafts.new) (λ w. after_verb w (Some verb) (texts words.now)))) }
{
    match verb {
        Verb::Ns => add_service(drafts, alloc, words),
        Verb::Task => {
            drafts.on_template = false;
            add_task(&mut drafts.tasks, alloc, &drafts.templates.names, words)
        }
        Verb::Template => {
            drafts.on_template = true;
            add_template(&mut drafts.templates, alloc, &drafts.tasks.names, words)
        }
        Verb::Fibril => add_body_to_last(drafts, alloc, false, words),
        Verb::Connection => add_body_to_last(drafts, alloc, true, words),
        Verb::Wire => add_wire(&mut drafts.tasks, words),
        Verb::Op(verb) => add_operation_to_last(drafts, verb, words),
    }
}

/// Adds what the words of a line say, and tells whether that is an operation.
fn add_words(drafts: &mut Drafts, alloc: Global, words: &[&[u8]]) -> Result<bool, LineFault>
    requires { AreWhole drafts.old }
    ensures value { Follows result (parts_of drafts.new)
        (after_words (parts_of drafts.old) (texts words.now)) }
    ensures whole { IfOk result (λ is_op. AreWhole drafts.new × (is_op ≡ true
        → SaysLastOp (last_draft drafts.new) (λ w. after_words w (texts words.now)))) }
{
    let [first, others @ ..] = words else {
        return Ok(false);
    };
    match verb_of(*first) {
        None => Err(LineFault::Bad(Reason::UnknownOperation)),
        Some(verb) => {
            add_by_verb(drafts, alloc, verb, others)?;
            Ok(is_op(verb))
        }
    }
}

/// Gives the last task or template its last operation once more.
#[inline(always)]
fn repeat_op(drafts: &mut Drafts) -> Result<(), LineFault>
    requires { AreWhole drafts.old × TakesLastOp (last_draft drafts.old) }
    ensures value { (op : Op) → last_op (last_draft drafts.old) ≡ Some op
        → Follows result (parts_of drafts.new) (op_of_last (parts_of drafts.old) op) }
    ensures whole { OnOk result (AreWhole drafts.new
        × KeepsLastOp (last_draft drafts.old) (last_draft drafts.new)) }
{
    match drafts.on_template {
        true => drafts.templates.repeat_op(),
        false => drafts.tasks.repeat_op(),
    }
}

/// The first line of a text with its line feed, where it is an operation and has one.
#[inline(always)]
fn line_to_keep<'a>(is_op: bool, text: &'a [u8], others: Option<&'a [u8]>) -> Option<&'a [u8]>
    requires { option_map (λ t. t.now) others ≡ behind text.now }
    ensures { IfSome result (λ line. (is_op ≡ true) × IsFirstLine line.now text.now) }
{
    match others {
        Some(others) if is_op => Some(&text[..text.len() - others.len()]),
        _ => None,
    }
}

/// Whether a text begins with a line. A byte near the line's end is looked at first: two lines that
/// differ mostly differ there.
#[inline(always)]
#[tactic(auto, using(crate::proofs::LastLines::begins))]
fn begins_with(text: &[u8], line: &[u8]) -> bool
    ensures within { IsTrue result → length line.now ≤ length text.now }
    ensures front { IsTrue result → text.now ≡ line.now ++ drop (length line.now) text.now }
{
    let at = line.len().saturating_sub(2);
    match (text.get(at), line.get(at)) {
        (Some(found), Some(wanted)) if *found == *wanted && line.len() <= text.len() => {
            are_same(&text[..line.len()], line)
        }
        _ => false,
    }
}

/// Adds what the first line of a text says, and keeps the line where it is an operation.
#[inline(always)]
#[tactic(auto, unfolding(crate::specs::Line::after_line))]
fn add_new_line<'a>(
    drafts: &mut Drafts,
    alloc: Global,
    words: &mut Vec<&'a [u8]>,
    kept: &mut Option<&'a [u8]>,
    text: &'a [u8],
) -> Result<Option<&'a [u8]>, LineFault>
    requires { AreWhole drafts.old }
    ensures value { Follows result (parts_of drafts.new)
        (after_line (parts_of drafts.old) (first_line text.now)) }
    ensures whole { OnOk result (AreWhole drafts.new) }
    ensures kept { OnOk result (Keeps drafts.new kept.new) }
    ensures behind { IfOk result (λ others. option_map (λ t. t.now) others ≡ behind text.now) }
{
    let (allowed, others) = split_line(text, words)?;
    if !allowed {
        return Err(LineFault::Bad(Reason::BadByte));
    }
    let is_op = add_words(drafts, alloc, words.as_slice())?;
    *kept = line_to_keep(is_op, text, others);
    Ok(others)
}

/// Adds what the first line of a text says, and returns what stands behind it; `None` where it is
/// the last. A line that was an operation is kept, and where it stands there once more it is not
/// split into its words again.
#[inline(always)]
pub fn add_line<'a>(
    drafts: &mut Drafts,
    alloc: Global,
    words: &mut Vec<&'a [u8]>,
    kept: &mut Option<&'a [u8]>,
    text: &'a [u8],
) -> Result<Option<&'a [u8]>, LineFault>
    requires whole { AreWhole drafts.old }
    requires kept { Keeps drafts.old kept.old }
    ensures value { Follows result (parts_of drafts.new)
        (after_line (parts_of drafts.old) (first_line text.now)) }
    ensures whole { OnOk result (AreWhole drafts.new) }
    ensures kept { OnOk result (Keeps drafts.new kept.new) }
    ensures behind { IfOk result (λ others. option_map (λ t. t.now) others ≡ behind text.now) }
{
    match *kept {
        Some(line) if begins_with(text, line) => match repeat_op(drafts) {
            Ok(()) => Ok(Some(&text[line.len()..])),
            Err(fault) => Err(fault),
        },
        _ => add_new_line(drafts, alloc, words, kept, text),
    }
}
