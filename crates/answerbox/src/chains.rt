//! The two lists that a call is linked in: the queue of its place, and the calls of its caller.
ghost use Rattle.std.specs.Prelude.{◌≡◌, ◌+◌, ◌*◌, ◌^◌, ◌<◌, ◌≤◌, ℕ, None, Some, IsSome, IfSome, IfNone, OnOk, OnErr, length, vec_len};
ghost use Rattle.std.specs.Vec.{vec_capacity};
ghost use Rattle.std.specs.FinMap.{get};
ghost use Rattle.answerbox.specs.Calls.{task_of};
ghost use Rattle.answerbox.specs.Chain.{place_index, row_of, next_link, previous_link, with_next, with_previous, with_slots, next_set, previous_set, next_put, previous_put, first_put, last_put, passed_slots, passed_ends, joined_slots, joined_ends, IsBetween, unlinked_slots, unlinked_rows, IsBehind, appended_slots, appended_rows, first_of, count_at, more_queues, more_owns, IsGrown};

use call_slab::{Call, CallKey, Calls, Links, Place};
use ipc_ids::{NoMemory, Steps, TaskNo};
use std::sync::ledger::Ledger;

/// One of the two lists that a call is linked in.
#[derive(Clone, Copy, PartialEq, Eq)]
pub enum Chain {
    /// The calls at its place, by rising stamp.
    Queue,
    /// The calls of its caller, by rising number.
    Own,
}

/// The first and the last call of a list, both `None` where it is empty, and how many it has.
#[derive(Clone, Copy, PartialEq, Eq)]
pub struct Ends {
    pub first: Option<CallKey>,
    pub last: Option<CallKey>,
    pub count: usize,
}

const NO_ENDS: Ends = Ends {
    first: None,
    last: None,
    count: 0,
};

impl Chain {
    /// The link to the next call of this list.
    pub fn next(self, links: &Links) -> Option<CallKey>
        ensures { result ≡ next_link self links.now }
    {
        match self {
            Chain::Queue => links.after,
            Chain::Own => links.newer,
        }
    }

    /// The link to the call before in this list.
    fn previous(self, links: &Links) -> Option<CallKey>
        ensures { result ≡ previous_link self links.now }
    {
        match self {
            Chain::Queue => links.before,
            Chain::Own => links.older,
        }
    }

    fn with_next(self, links: Links, next: Option<CallKey>) -> Links
        ensures { result ≡ with_next self links next }
    {
        match self {
            Chain::Queue => Links {
                after: next,
                ..links
            },
            Chain::Own => Links {
                newer: next,
                ..links
            },
        }
    }

    fn with_previous(self, links: Links, previous: Option<CallKey>) -> Links
        ensures { result ≡ with_previous self links previous }
    {
        match self {
            Chain::Queue => Links {
                before: previous,
                ..links
            },
            Chain::Own => Links {
                older: previous,
                ..links
            },
        }
    }

    /// The number of the list in which the call stands; `None` where it has no caller any more.
    pub fn row_of(self, call: &Call) -> Option<usize>
        requires few { 3 * task_of call.now.place + 2 < 2 ^ 64 }
        ensures { result ≡ row_of self call.now }
    {
        match self {
            Chain::Queue => Some(index_of(call.place)),
            Chain::Own => match call.caller {
                Some(task) => Some(task.0 as usize),
                None => None,
            },
        }
    }
}

/// The number of a place among the queues.
pub fn index_of(place: Place) -> usize
    requires few { 3 * task_of place + 2 < 2 ^ 64 }
    ensures { result ≡ place_index place }
{
    match place {
        Place::Incoming(task) => 3 * task.0 as usize,
        Place::Dispatched(task) => 3 * task.0 as usize + 1,
        Place::Answers(task) => 3 * task.0 as usize + 2,
    }
}

/// The first call of that list; `None` where it is empty, or there is no such list.
pub fn first_in(rows: &[Ends], row: usize) -> Option<CallKey>
    ensures { result ≡ first_of rows.now row }
{
    match rows.get(row) {
        Some(ends) => ends.first,
        None => None,
    }
}

/// The first call at that place; `None` where there is none, or no such queue.
pub fn first_at(queues: &[Ends], place: Place) -> Option<CallKey>
    ensures { result ≡ first_of queues.now (place_index place) }
{
    match row_at(queues, place) {
        Some(row) => first_in(queues, row),
        None => None,
    }
}

/// The number of the queue of that place; `None` where there is no such queue.
pub fn row_at(queues: &[Ends], place: Place) -> Option<usize>
    ensures some { IfSome result (λ i. i ≡ place_index place) }
    ensures none { IfNone result (length queues.now ≤ place_index place) }
{
    // So many queues do not fit into memory, and three times such a number would not fit 64 bits.
    if task_at(place).0 >= 1 << 62 {
        return None;
    }
    Some(index_of(place))
}

/// The task whose place it is.
fn task_at(place: Place) -> TaskNo
    ensures { result.0 ≡ task_of place }
{
    match place {
        Place::Incoming(task) => task,
        Place::Dispatched(task) => task,
        Place::Answers(task) => task,
    }
}

/// Links a call to another next one.
fn set_next<L: Ledger>(
    calls: &mut Calls,
    chain: Chain,
    key: CallKey,
    next: Option<CallKey>,
    steps: &mut Steps<L>,
)
    requires live { IsSome (get calls.old.slots key) }
    ensures calls { calls.new ≡
        with_slots calls.old (next_set chain calls.old.slots key next) }
    ensures steps { steps.new ≡ steps.old + 2 }
{
    let links = calls.links(key, steps);
    calls.set_links(key, chain.with_next(links, next), steps);
}

/// Links a call to another one before.
fn set_previous<L: Ledger>(
    calls: &mut Calls,
    chain: Chain,
    key: CallKey,
    previous: Option<CallKey>,
    steps: &mut Steps<L>,
)
    requires live { IsSome (get calls.old.slots key) }
    ensures calls { calls.new ≡
        with_slots calls.old (previous_set chain calls.old.slots key previous) }
    ensures steps { steps.new ≡ steps.old + 2 }
{
    let links = calls.links(key, steps);
    calls.set_links(key, chain.with_previous(links, previous), steps);
}

/// What stands before is followed by `next`; where nothing does, `next` is the first.
fn put_next<L: Ledger>(
    calls: &mut Calls,
    ends: &mut Ends,
    chain: Chain,
    before: Option<CallKey>,
    next: Option<CallKey>,
    steps: &mut Steps<L>,
)
    requires live { IfSome before (λ k. IsSome (get calls.old.slots k)) }
    ensures calls { calls.new ≡
        with_slots calls.old (next_put chain calls.old.slots before next) }
    ensures ends { ends.new ≡ first_put before next ends.old }
    ensures steps { steps.new ≤ steps.old + 2 }
{
    match before {
        Some(key) => set_next(calls, chain, key, next, steps),
        None => ends.first = next,
    }
}

/// What stands after follows `previous`; where nothing does, `previous` is the last.
fn put_previous<L: Ledger>(
    calls: &mut Calls,
    ends: &mut Ends,
    chain: Chain,
    after: Option<CallKey>,
    previous: Option<CallKey>,
    steps: &mut Steps<L>,
)
    requires live { IfSome after (λ k. IsSome (get calls.old.slots k)) }
    ensures calls { calls.new ≡
        with_slots calls.old (previous_put chain calls.old.slots after previous) }
    ensures ends { ends.new ≡ last_put after previous ends.old }
    ensures steps { steps.new ≤ steps.old + 2 }
{
    match after {
        Some(key) => set_previous(calls, chain, key, previous, steps),
        None => ends.last = previous,
    }
}

/// Links the neighbours of a call with these links to each other.
#[inline(always)]
fn pass_over<L: Ledger>(
    calls: &mut Calls,
    ends: &mut Ends,
    chain: Chain,
    links: &Links,
    steps: &mut Steps<L>,
)
    requires before { IfSome (previous_link chain links.now)
        (λ k. IsSome (get calls.old.slots k)) }
    requires after { IfSome (next_link chain links.now) (λ k. IsSome (get calls.old.slots k)) }
    ensures calls { calls.new ≡
        with_slots calls.old (passed_slots chain calls.old.slots links.now) }
    ensures ends { ends.new ≡ passed_ends chain links.now ends.old }
    ensures steps { steps.new ≤ steps.old + 4 }
{
    let count = ends.count;
    put_next(
        calls,
        ends,
        chain,
        chain.previous(links),
        chain.next(links),
        steps,
    );
    put_previous(
        calls,
        ends,
        chain,
        chain.next(links),
        chain.previous(links),
        steps,
    );
    ends.count = count.saturating_sub(1);
}

/// Links a call behind the last one.
#[inline(always)]
fn join_last<L: Ledger>(
    calls: &mut Calls,
    ends: &mut Ends,
    chain: Chain,
    key: CallKey,
    steps: &mut Steps<L>,
)
    requires live { IsSome (get calls.old.slots key) }
    requires last { IfSome ends.old.last (λ k. IsSome (get calls.old.slots k)) }
    requires few { ends.old.count < 2 ^ 63 }
    ensures calls { calls.new ≡
        with_slots calls.old (joined_slots chain calls.old.slots key ends.old.last) }
    ensures ends { ends.new ≡ joined_ends key ends.old }
    ensures steps { steps.new ≤ steps.old + 4 }
{
    let (last, count) = (ends.last, ends.count);
    put_next(calls, ends, chain, ends.last, Some(key), steps);
    let links = calls.links(key, steps);
    let behind = chain.with_previous(links, last);
    calls.set_links(key, chain.with_next(behind, None), steps);
    ends.last = Some(key);
    ends.count = count + 1;
}

/// Takes a call with these links out of that list, if it stands in one.
#[inline(always)]
pub fn unlink<L: Ledger>(
    calls: &mut Calls,
    rows: &mut Vec<Ends>,
    chain: Chain,
    row: Option<usize>,
    links: &Links,
    steps: &mut Steps<L>,
)
    requires between { IsBetween chain calls.old.slots rows.old.items row links.now }
    ensures calls { calls.new ≡
        with_slots calls.old (unlinked_slots chain calls.old.slots row links.now) }
    ensures rows { rows.new.items ≡ unlinked_rows chain rows.old.items row links.now }
    ensures steps { steps.new ≤ steps.old + 4 }
{
    match row {
        Some(i) => pass_over(calls, &mut rows[i], chain, links, steps),
        None => (),
    }
}

/// Puts a call at the end of that list, if it is to stand in one.
#[inline(always)]
pub fn append<L: Ledger>(
    calls: &mut Calls,
    rows: &mut Vec<Ends>,
    chain: Chain,
    row: Option<usize>,
    key: CallKey,
    steps: &mut Steps<L>,
)
    requires behind { IsBehind calls.old.slots rows.old.items row key }
    requires few { IfSome row (λ i. count_at rows.old.items i < 2 ^ 63) }
    ensures calls { calls.new ≡
        with_slots calls.old (appended_slots chain calls.old.slots rows.old.items row key) }
    ensures rows { rows.new.items ≡ appended_rows rows.old.items row key }
    ensures steps { steps.new ≤ steps.old + 4 }
{
    match row {
        Some(i) => join_last(calls, &mut rows[i], chain, key, steps),
        None => (),
    }
}

/// How many calls stand in that list; none where there is no such list.
pub fn count_in(rows: &[Ends], row: usize) -> usize
    ensures { result ≡ count_at rows.now row }
{
    match rows.get(row) {
        Some(ends) => ends.count,
        None => 0,
    }
}

/// How many calls stand at that place; none where there is no such queue.
pub fn count_place(queues: &[Ends], place: Place) -> usize
    ensures { result ≡ count_at queues.now (place_index place) }
{
    match row_at(queues, place) {
        Some(row) => count_in(queues, row),
        None => 0,
    }
}

/// Gives task 0 its lists, unless it has them.
pub fn open_rows(queues: &mut Vec<Ends>, owns: &mut Vec<Ends>) -> Result<(), NoMemory>
    ensures some { OnOk result (0 < length owns.new.items) }
    ensures rows { IsGrown queues.old.items owns.old.items queues.new.items owns.new.items }
{
    if !owns.is_empty() {
        return Ok(());
    }
    push_rows(queues, owns)
}

/// Gives one more task its lists: three queues and that of its own calls.
pub fn push_rows(queues: &mut Vec<Ends>, owns: &mut Vec<Ends>) -> Result<(), NoMemory>
    ensures queues { OnOk result (queues.new.items ≡ more_queues queues.old.items) }
    ensures owns { OnOk result (owns.new.items ≡ more_owns owns.old.items) }
    ensures queues_same { OnErr result (queues.new.items ≡ queues.old.items) }
    ensures owns_same { OnErr result (owns.new.items ≡ owns.old.items) }
{
    if queues.reserve(3).is_err() {
        return Err(NoMemory);
    }
    if owns.reserve(1).is_err() {
        return Err(NoMemory);
    }
    push_queues(queues);
    push_own(owns);
    Ok(())
}

/// Three empty queues more.
fn push_queues(queues: &mut Vec<Ends>)
    requires room { vec_len queues.old + 3 ≤ vec_capacity queues.old }
    ensures { queues.new.items ≡ more_queues queues.old.items }
{
    queues.push_reserved(NO_ENDS);
    queues.push_reserved(NO_ENDS);
    queues.push_reserved(NO_ENDS);
}

/// One empty list of a caller more.
fn push_own(owns: &mut Vec<Ends>)
    requires room { vec_len owns.old + 1 ≤ vec_capacity owns.old }
    ensures { owns.new.items ≡ more_owns owns.old.items }
{
    owns.push_reserved(NO_ENDS);
}
