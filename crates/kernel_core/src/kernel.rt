//! The kernel.
ghost use Rattle.ipc_ids.specs.declared.entry.Entry.{Entry};
ghost use Rattle.std.specs.Prelude.{List, [], ◌≡◌, ◌+◌, ◌^◌, ◌<◌, ◌++◌, true, Some, IfOk, OnOk, OnErr, length};
ghost use Rattle.ipc_ids.specs.Program.{fits};
ghost use Rattle.switchboard.specs.State.{start, is_alive, phone_at, with_task, with_phone};
ghost use Rattle.switchboard.specs.Board.{IsLimit};
ghost use Rattle.switchboard.specs.Sound.{IsSound};
ghost use Rattle.kernel_core.specs.Kernel.{IsSteady, serve, kill_event, next_task, spawn_event};
ghost use Rattle.kernel_core.specs.History.{HistoryFits, served_entries, killed_entries};

use crate::request::{room_of, serve_request};
use crate::spawning::spawn;
use cleanup::end;
use ipc_ids::{NoMemory, Outcome, PhoneNo, PhoneState, Request, TaskNo, Trace};
use std::alloc::Global;
use std::marker::Model;
use switchboard::Switchboard;

/// The kernel of all tasks. They are added and wired before the first event, or made by one.
#[derive(Drop)]
pub struct Kernel {
    board: Switchboard,
}

impl Model for Kernel {
    ghost use Rattle.call_slab.specs.contracts.call.Call as call;
    ghost use Rattle.ipc_ids.specs.contracts.message.PhoneState as phone;
    ghost use Rattle.switchboard.specs.State.{KernelState, state_code};
    ghost use Rattle.kernel_core.specs.Kernel.{IsSteady};

    ghost Value = { KernelState };

    ghost coded = { state_code phone.the_row.coded call.the_row.coded };

    ghost view = { λ a. a.board.state };

    ghost invariant = { λ a. IsSteady a.board.state };
}

impl Kernel {
    /// No tasks.
    pub fn new(alloc: Global) -> Kernel
        ensures state { result ≡ start }
        ensures sound { IsSound result }
        ensures history { HistoryFits [] result }
    {
        Kernel {
            board: Switchboard::new(alloc),
        }
    }

    /// Adds a task with so many phones, all free.
    ///
    /// # Errors
    ///
    /// `NoMemory` where no memory was found.
    pub fn add_task(&mut self, limit: u32) -> Result<TaskNo, NoMemory>
        requires limit { IsLimit limit }
        requires few_tasks { length self.old.tasks.alive < 64 }
        requires no_event { self.old.events ≡ 0 }
        ensures state { OnOk result (self.new ≡ with_task self.old limit) }
        ensures number { IfOk result (λ t. t.0 ≡ length self.old.tasks.alive + 1) }
        ensures unchanged { OnErr result (self.new ≡ self.old) }
        ensures sound { IsSound self.new }
        ensures history { (h : List Entry) → HistoryFits h self.old → HistoryFits h self.new }
    {
        self.board.add_task(limit)
    }

    /// The free phone of the first task leads to the second, which may be the same.
    pub fn wire(&mut self, t: TaskNo, p: PhoneNo, to: TaskNo)
        requires no_event { self.old.events ≡ 0 }
        requires alive { is_alive self.old t ≡ true }
        requires target { is_alive self.old to ≡ true }
        requires free { phone_at self.old t p.0 ≡ Some PhoneState.Free }
        ensures state { self.new ≡ with_phone self.old t p.0 (PhoneState.Connected to) }
        ensures sound { IsSound self.new }
        ensures history { (h : List Entry) → HistoryFits h self.old → HistoryFits h self.new }
    {
        self.board.wire(t, p, to);
    }

    /// Whether a task has this number and has not ended.
    pub fn alive(&self, t: TaskNo) -> bool
        ensures { result ≡ is_alive self.now t }
    {
        self.board.is_alive(t)
    }

    /// What it is made of. It is steady.
    pub fn board(&self) -> &Switchboard
        ensures state { result.now.state ≡ self.now }
        ensures steady { IsSteady self.now }
    {
        &self.board
    }

    /// How many events there were.
    pub fn events(&self) -> u64
        ensures { result ≡ self.now.events }
    {
        self.board.events()
    }

    /// Serves one system call of the task: an event.
    ///
    /// # Errors
    ///
    /// `NoMemory` where no memory was found.
    pub fn serve(
        &mut self,
        who: TaskNo,
        request: &Request,
        out: &mut Trace,
    ) -> Result<Outcome, NoMemory>
        requires alive { is_alive self.old who ≡ true }
        requires few_events { self.old.events < 2 ^ 24 }
        ensures state { OnOk result (self.new ≡ (serve self.old who request.now).state) }
        ensures outcome { IfOk result (λ outcome. outcome
            ≡ (serve self.old who request.now).outcome) }
        ensures fits { IfOk result (λ outcome. fits request.now outcome ≡ true) }
        ensures entries { OnOk result (out.new.entries
            ≡ out.old.entries ++ (serve self.old who request.now).entries) }
        ensures events { OnOk result (self.new.events ≡ self.old.events + 1) }
        ensures unchanged { OnErr result (self.new ≡ self.old) }
        ensures trace_unchanged { OnErr result (out.new.entries ≡ out.old.entries) }
        ensures sound { IsSound self.new }
        ensures history { OnOk result ((h : List Entry) → HistoryFits h self.old
            → HistoryFits (h ++ served_entries who request.now
            (serve self.old who request.now)) self.new) }
    {
        self.board.check_numbers();
        let (calls, entries) = room_of(&self.board, who, request);
        self.board.reserve(calls)?;
        out.reserve(entries)?;
        match serve_request(&mut self.board, who, request, out) {
            Ok(outcome) => {
                self.board.count_event();
                Ok(outcome)
            }
            Err(NoMemory) => Err(NoMemory),
        }
    }

    /// Kills the task: an event.
    ///
    /// # Errors
    ///
    /// `NoMemory` where no memory was found.
    pub fn kill(&mut self, who: TaskNo, out: &mut Trace) -> Result<(), NoMemory>
        requires alive { is_alive self.old who ≡ true }
        requires few_events { self.old.events < 2 ^ 24 }
        ensures state { OnOk result (self.new ≡ (kill_event self.old who).state) }
        ensures entries { OnOk result (out.new.entries
            ≡ out.old.entries ++ (kill_event self.old who).entries) }
        ensures events { OnOk result (self.new.events ≡ self.old.events + 1) }
        ensures unchanged { OnErr result (self.new ≡ self.old) }
        ensures trace_unchanged { OnErr result (out.new.entries ≡ out.old.entries) }
        ensures sound { IsSound self.new }
        ensures history { OnOk result ((h : List Entry) → HistoryFits h self.old
            → HistoryFits (h ++ killed_entries who (kill_event self.old who)) self.new) }
    {
        self.board.check_numbers();
        end(&mut self.board, who, out)?;
        self.board.count_event();
        Ok(())
    }

    /// The number that the next task will have, from 1 on; 65 once there can be no more. Takes no
    /// memory.
    pub fn next_task(&self) -> TaskNo
        ensures { result ≡ next_task self.now }
    {
        TaskNo(self.board.tasks() + 1)
    }

    /// Makes a task with so many phones: an event. Phone 0 leads to `names`, where that is given and
    /// has not ended; all other phones are free.
    ///
    /// # Errors
    ///
    /// `NoMemory` where no memory was found.
    pub fn spawn(
        &mut self,
        limit: u32,
        names: Option<TaskNo>,
        out: &mut Trace,
    ) -> Result<TaskNo, NoMemory>
        requires limit { IsLimit limit }
        requires few_tasks { length self.old.tasks.alive < 64 }
        requires few_events { self.old.events < 2 ^ 24 }
        ensures state { OnOk result (self.new ≡ (spawn_event self.old limit names).state) }
        ensures entries { OnOk result (out.new.entries
            ≡ out.old.entries ++ (spawn_event self.old limit names).entries) }
        ensures number { IfOk result (λ t. t ≡ next_task self.old) }
        ensures events { OnOk result (self.new.events ≡ self.old.events + 1) }
        ensures unchanged { OnErr result (self.new ≡ self.old) }
        ensures trace_unchanged { OnErr result (out.new.entries ≡ out.old.entries) }
        ensures sound { IsSound self.new }
        ensures history { OnOk result ((h : List Entry) → HistoryFits h self.old
            → HistoryFits (h ++ (spawn_event self.old limit names).entries) self.new) }
    {
        // So a proof learns what the kernel keeps.
        let _events = self.board.events();
        out.reserve(2)?;
        match spawn(&mut self.board, limit, names, out) {
            Ok(task) => {
                self.board.count_event();
                Ok(task)
            }
            Err(NoMemory) => Err(NoMemory),
        }
    }
}
