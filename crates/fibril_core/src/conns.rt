//! The connections of a task.
ghost use Rattle.std.specs.Prelude.{◌≡◌, ◌+◌, ◌-◌, ◌++◌, ◌<◌, ◌≤◌, OnOk, OnErr, None, IfOk, IfSome};
ghost use Rattle.std.specs.Prelude.{length, position, slice_get, remove, true};
ghost use Rattle.std.specs.Option.{option_copied};
ghost use Rattle.std.specs.VecDeque.{deque_capacity, deque_len};
ghost use Rattle.fibril_core.specs.Conns.{no_conns, serves, leads_to, conn_of_fibril};
ghost use Rattle.fibril_core.specs.Conns.{conn_of_label, fibril_of, lose_labels, start};
ghost use Rattle.fibril_core.specs.Conns.{take_answer, take_next, route_answer, route, owed_by};
ghost use Rattle.fibril_core.specs.Conns.{finish};
ghost use Rattle.fibril_core.specs.ConnIndex.{DoRise, KeepsLabel, ForgetsLabel};
ghost use Rattle.fibril_core.specs.ConnLaws.{IsSound};
ghost use Rattle.indexmap.specs.IndexMap.{spare};
ghost use Rattle.ipc_ids.specs.declared.numbers.Label.{Label};

mod beside;

use crate::conn::{
    Conn, Queue, Routed, Taken, count_owed, fibril_of, lose_label, owed_by, route_to, take_first,
};
use crate::owed::Owed;
use indexmap::IndexMap;
use ipc_ids::{CallNo, FibrilNo, Label, Msg, NoMemory};
use std::alloc::Global;
use std::collections::VecDeque;
use std::marker::Model;

/// The connections of a task, with room for `spare` more.
#[derive(Drop)]
pub struct Conns {
    conns: VecDeque<Conn>,
    /// Whether the numbers of their fibrils rise. So they do where each connection gets a new
    /// fibril.
    rising: bool,
    /// For each label that leads to a connection the fibril of that connection.
    labels: IndexMap<Label, FibrilNo>,
    /// Where the connection stood that started last or that a call went to last. It is looked at
    /// first.
    last: usize,
    alloc: Global,
}

impl Model for Conns {
    ghost use Rattle.std.specs.Prelude.{◌-◌, min};
    ghost use Rattle.std.specs.VecDeque.{deque_capacity, deque_len};
    ghost use Rattle.indexmap.specs.IndexMap.{spare};
    ghost use Rattle.fibril_core.specs.Conns.{ConnsState};
    ghost use Rattle.fibril_core.specs.ConnIndex.{IsIndex};

    ghost Value = { ConnsState };

    ghost view = { λ a. record {
      conns = a.conns.items;
      spare = min (deque_capacity a.conns - deque_len a.conns) (spare a.labels);
    } };

    ghost invariant = { λ a. IsIndex a.rising a.labels.entries a.conns.items };
}

impl Conns {
    /// No connections; it takes no memory.
    pub fn new(alloc: Global) -> Conns
        ensures { result.conns ≡ no_conns }
    {
        Conns {
            conns: VecDeque::new(alloc),
            rising: true,
            labels: IndexMap::new(alloc),
            last: 0,
            alloc,
        }
    }

    /// The connections in the order of their start, in two slices. Takes no memory.
    pub fn as_slices(&self) -> (&[Conn], &[Conn])
        ensures { result.0.now ++ result.1.now ≡ self.now.conns }
    {
        self.conns.as_slices()
    }

    /// The fibril of the connection to which the label leads. Takes no memory.
    pub fn holder(&self, label: Label) -> Option<FibrilNo>
        ensures { result ≡ fibril_of (conn_of_label label self.now.conns) }
    {
        match self.place_of_label(label) {
            Some(i) => fibril_of(self.conns.get(i)),
            None => None,
        }
    }

    /// Makes room for one more connection.
    ///
    /// # Errors
    ///
    /// `NoMemory` where there was no room and no memory was found.
    pub fn reserve(&mut self) -> Result<(), NoMemory>
        ensures conns { self.new.conns ≡ self.old.conns }
        ensures room { OnOk result (0 < self.new.spare) }
        ensures full { OnErr result (self.old.spare ≡ 0) }
        ensures spare { self.old.spare ≤ self.new.spare }
    {
        if self.conns.reserve(1).is_err() || self.labels.reserve(1).is_err() {
            return Err(NoMemory);
        }
        Ok(())
    }

    /// Starts a connection, which the fibril serves. An older one with that label loses the label
    /// and is closed. There is room for it.
    pub fn start_reserved(&mut self, label: Label, f: FibrilNo)
        requires room { 0 < self.old.spare }
        requires serves_none { conn_of_fibril f self.old.conns ≡ None }
        ensures conns { self.new.conns ≡ start label f self.old.conns }
        ensures spare { self.old.spare ≤ self.new.spare + 1 }
    {
        let older = self.place_of_label(label);
        self.rising = rise_with(&self.conns, self.rising, f);
        lose_label_at(&mut self.conns, older, label);
        keep_label(&mut self.labels, label, f);
        self.last = self.conns.len();
        self.conns.push_back_reserved(Conn {
            fibril: f,
            label,
            routes: true,
            queue: Queue::new(self.alloc),
            closed: false,
            close_call: None,
        });
    }

    /// Takes a received call to the connection to which its label leads.
    ///
    /// # Errors
    ///
    /// `NoMemory` where no memory was found. Nothing has changed then.
    #[inline(always)]
    pub fn route(&mut self, label: Label, call: CallNo, msg: Msg) -> Result<Routed, NoMemory>
        ensures told { IfOk result (λ r. r
            ≡ route_answer msg.method (conn_of_label label self.old.conns)) }
        ensures conns { OnOk result (self.new.conns ≡ route label call msg self.old.conns) }
        ensures unchanged { OnErr result (self.new.conns ≡ self.old.conns) }
        ensures spare { self.old.spare ≤ self.new.spare }
    {
        match self.place_of_label(label) {
            Some(i) => {
                self.last = i;
                route_to(&mut self.conns[i], call, msg)
            }
            None => Ok(Routed::Unknown),
        }
    }

    /// Takes the first queued call of the fibril's connection. Takes no memory.
    #[inline(always)]
    pub fn take_next(&mut self, f: FibrilNo) -> Taken
        ensures told { result ≡ take_answer (conn_of_fibril f self.old.conns) }
        ensures conns { self.new.conns ≡ take_next f self.old.conns }
        ensures spare { self.old.spare ≤ self.new.spare }
    {
        match self.place_of_fibril(f) {
            Some(i) => take_first(&mut self.conns[i]),
            None => Taken::NoConnection,
        }
    }

    /// How many answers `finish` would give. Takes no memory.
    pub fn owed(&self, f: FibrilNo) -> u64
        ensures { result ≡ length (owed_by (conn_of_fibril f self.now.conns)) }
    {
        match self.conn_of_fibril(f) {
            Some(conn) => count_owed(conn),
            None => 0,
        }
    }

    /// Ends the connection of the fibril, if it has one, and gives the answers that it owes:
    /// `EHANGUP` for each queued call in order, then `EOK` for the close call.
    ///
    /// # Errors
    ///
    /// `NoMemory` where no memory was found. Nothing has changed then.
    pub fn finish(&mut self, f: FibrilNo) -> Result<Owed, NoMemory>
        ensures owed { IfOk result (λ owed. owed ≡ owed_by (conn_of_fibril f self.old.conns)) }
        ensures conns { OnOk result (self.new.conns ≡ finish f self.old.conns) }
        ensures unchanged { OnErr result (self.new.conns ≡ self.old.conns) }
        ensures spare { self.old.spare ≤ self.new.spare }
    {
        match self.place_of_fibril(f) {
            Some(i) => self.finish_at(i),
            None => Ok(Owed::new(self.alloc)),
        }
    }

    fn finish_at(&mut self, i: usize) -> Result<Owed, NoMemory>
        requires in_range { i < length self.old.conns }
        ensures owed { IfOk result (λ owed. owed ≡ owed_by (slice_get self.old.conns i)) }
        ensures conns { OnOk result (self.new.conns ≡ remove self.old.conns i) }
        ensures unchanged { OnErr result (self.new.conns ≡ self.old.conns) }
        ensures spare { self.old.spare ≤ self.new.spare }
    {
        match owed_by(self.alloc, self.conns.get(i)) {
            Ok(owed) => {
                let over = self.conns.remove(i).unwrap();
                forget_label(&mut self.labels, &over);
                Ok(owed)
            }
            Err(e) => Err(e),
        }
    }

    /// Where the connection of this fibril stands.
    fn place_of_fibril(&self, f: FibrilNo) -> Option<usize>
        ensures place { result ≡ position (serves f) self.now.conns }
        ensures in_range { IfSome result (λ i. i < length self.now.conns) }
    {
        if self.rising {
            return place_among_rising(&self.conns, f);
        }
        self.conns.iter().position(|conn| conn.fibril == f)
    }

    /// Where the connection to which the label leads stands.
    fn place_of_label(&self, label: Label) -> Option<usize>
        ensures place { result ≡ position (leads_to label) self.now.conns }
        ensures in_range { IfSome result (λ i. i < length self.now.conns) }
    {
        match self.conns.get(self.last) {
            Some(conn) if conn.routes && conn.label == label => Some(self.last),
            _ => self.search_label(label),
        }
    }

    /// The same by the fibril that the label has in the map.
    fn search_label(&self, label: Label) -> Option<usize>
        ensures place { result ≡ position (leads_to label) self.now.conns }
        ensures in_range { IfSome result (λ i. i < length self.now.conns) }
    {
        match self.labels.get(&label) {
            Some(f) => self.place_of_fibril(*f),
            None => None,
        }
    }

    /// The connection of this fibril.
    fn conn_of_fibril(&self, f: FibrilNo) -> Option<&Conn>
        ensures { option_copied result ≡ conn_of_fibril f self.now.conns }
    {
        match self.place_of_fibril(f) {
            Some(i) => self.conns.get(i),
            None => None,
        }
    }
}

/// Where the connection of this fibril stands, among connections whose fibrils rise.
fn place_among_rising(conns: &VecDeque<Conn>, f: FibrilNo) -> Option<usize>
    requires rise { DoRise conns.now.items }
    ensures place { result ≡ position (serves f) conns.now.items }
    ensures in_range { IfSome result (λ i. i < length conns.now.items) }
{
    match conns.binary_search_by_key(&f.0, |conn| conn.fibril.0) {
        Ok(i) => Some(i),
        Err(_) => None,
    }
}

/// Whether the fibrils rise still when the connection of this one comes behind them.
fn rise_with(conns: &VecDeque<Conn>, rising: bool, f: FibrilNo) -> bool
    requires rise { rising ≡ true → DoRise conns.now.items }
    ensures { result ≡ true → (label : Label) → DoRise (start label f conns.now.items) }
{
    if !rising {
        return false;
    }
    match conns.back() {
        Some(conn) => conn.fibril.0 < f.0,
        None => true,
    }
}

/// The label leads to none of these from now on, and the one at this place, to which it led, is
/// closed.
fn lose_label_at(conns: &mut VecDeque<Conn>, place: Option<usize>, label: Label)
    requires sound { IsSound conns.old.items }
    requires place { place ≡ position (leads_to label) conns.old.items }
    ensures lost { conns.new.items ≡ lose_labels label conns.old.items }
    ensures room { deque_capacity conns.new - deque_len conns.new
        ≡ deque_capacity conns.old - deque_len conns.old }
{
    match place {
        Some(i) => lose_label(&mut conns[i], label),
        None => {}
    }
}

/// The label leads to the connection of this fibril from now on. There is room for it.
fn keep_label(labels: &mut IndexMap<Label, FibrilNo>, label: Label, f: FibrilNo)
    requires room { 0 < spare labels.old }
    ensures kept { KeepsLabel label f labels.old.entries labels.new.entries }
    ensures room { spare labels.old ≤ spare labels.new + 1 }
{
    labels.insert(label, f).unwrap();
}

/// The label of a connection that is over leads nowhere from now on, where it led there.
fn forget_label(labels: &mut IndexMap<Label, FibrilNo>, over: &Conn)
    ensures forgotten { ForgetsLabel over.now labels.old.entries labels.new.entries }
    ensures room { spare labels.old ≤ spare labels.new }
{
    if over.routes {
        labels.swap_remove(&over.label);
    }
}
