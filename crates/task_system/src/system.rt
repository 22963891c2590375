//! The kernel and the programs of a script's tasks.
ghost use Rattle.std.specs.Prelude.{◌≡◌, ◌+◌, ◌^◌, ◌<◌, ◌≤◌, ◌++◌, ◌∷◌, [], true, Some};
ghost use Rattle.script_lines.specs.Sound.{IsSoundTask};
ghost use Rattle.std.specs.Prelude.{IfOk, OnOk, OnErr, option_map, vec_len, length};
ghost use Rattle.std.specs.Vec.{vec_capacity};
ghost use Rattle.std.specs.Option.{option_copied};
ghost use Rattle.ipc_ids.specs.Program.{fits};
ghost use Rattle.switchboard.specs.State.{is_alive};
ghost use Rattle.switchboard.specs.Board.{IsLimit};
ghost use Rattle.kernel_core.specs.History.{served_entries, killed_entries, gone_entries};
ghost use Rattle.kernel_core.specs.Kernel.{serve, kill_event, spawn_event};
ghost use Rattle.task_system.specs.Any.{wanted};
ghost use Rattle.task_system.specs.Run.{Tells, TellsPart};
ghost use Rattle.ipc_ids.specs.declared.entry.Entry.TheVariants as entry;

use crate::any::AnyProgram;
use crate::starting::{kernel_of, program_of, programs_of, service_of};
use ipc_ids::{Entry, Event, NoMemory, Outcome, Program, Request, TaskNo, Trace};
use kernel_core::Kernel;
use script_reader::{Script, TaskPlan, TaskPlans, copies_of_plans};
use std::alloc::Global;
use std::marker::Model;

/// The kernel, the program of each task, and what more tasks can be made from.
#[derive(Drop)]
pub struct System {
    alloc: Global,
    kernel: Kernel,
    programs: Vec<AnyProgram>,
    // What more tasks can be made from.
    templates: TaskPlans,
    // The naming service, where there is one.
    names: Option<TaskNo>,
}

impl Model for System {
    ghost use Rattle.kernel_core.specs.contracts.kernel.Kernel as kernels;
    ghost use Rattle.task_system.specs.contracts.any.AnyProgram as any_program;
    ghost use Rattle.script_lines.specs.contracts.plan.TaskPlans as plans;
    ghost use Rattle.ipc_ids.specs.contracts.numbers.TaskNo as task;
    ghost use Rattle.std.specs.Coded.{coded_option};
    ghost use Rattle.std.specs.Prelude.{All};
    ghost use Rattle.script_lines.specs.Sound.{IsSoundTask};
    ghost use Rattle.task_system.specs.Any.{TookFew};
    ghost use Rattle.task_system.specs.Run.{RunState, run_code};

    ghost Value = { RunState };

    ghost coded = { run_code kernels.the_row.coded any_program.the_row.coded
        plans.the_row.coded (coded_option task.the_row.coded) };

    ghost view = { λ a. record {
      kernel = a.kernel;
      programs = a.programs.items;
      templates = a.templates;
      names = a.names;
    } };

    ghost invariant = { λ a. TookFew a.kernel.events a.programs.items
        × All IsSoundTask a.templates };
}

impl System {
    ghost use Rattle.task_system.specs.Run.{start, program_at, turn, step, kill, hangup, spawn, MayHappen};

    /// The tasks of a script before the first event.
    ///
    /// # Errors
    ///
    /// `NoMemory` where no memory was found.
    pub fn new(alloc: Global, script: &Script) -> Result<System, NoMemory>
        ensures state { IfOk result (λ system. system ≡ start script.now) }
        ensures no_event { IfOk result (λ system. system.kernel.events ≡ 0) }
    {
        let tasks = script.tasks.as_slice();
        let programs = programs_of(alloc, tasks)?;
        let templates = copies_of_plans(alloc, script.templates.as_slice())?;
        let kernel = kernel_of(alloc, script)?;
        Ok(System {
            alloc,
            kernel,
            programs,
            templates,
            names: service_of(tasks),
        })
    }

    /// The kernel.
    pub fn kernel(&self) -> &Kernel
        ensures { result.now ≡ self.now.kernel }
    {
        &self.kernel
    }

    /// The program of each task, from the first on.
    pub fn programs(&self) -> &[AnyProgram]
        ensures { result.now ≡ self.now.programs }
    {
        self.programs.as_slice()
    }

    /// One event, whose entries go to the end of `out`.
    ///
    /// # Errors
    ///
    /// `NoMemory` where no memory was found. The event may be half done then.
    pub fn turn(&mut self, event: &Event, out: &mut Trace) -> Result<(), NoMemory>
        requires few_events { self.old.kernel.events < 2 ^ 24 }
        requires may { MayHappen self.old event.now }
        ensures state { OnOk result (self.new ≡ (turn self.old event.now).state) }
        ensures entries { OnOk result (Tells out.old out.new (turn self.old event.now).entries) }
        ensures part { OnErr result (TellsPart out.old out.new (turn self.old event.now).entries) }
        ensures events { self.new.kernel.events ≤ self.old.kernel.events + 1 }
    {
        match event {
            Event::Step(task) => self.step_task(*task, out),
            Event::Kill(task) => self.kill(*task, out),
            Event::Hangup(task, phone) => self.hang_up(*task, *phone, out),
            Event::Spawn(place) => self.spawn(*place, out),
        }
    }

    #[inline(always)]
    fn step_task(&mut self, task: TaskNo, out: &mut Trace) -> Result<(), NoMemory>
        requires few_events { self.old.kernel.events < 2 ^ 24 }
        ensures state { OnOk result (self.new ≡ (step self.old task).state) }
        ensures entries { OnOk result (Tells out.old out.new (step self.old task).entries) }
        ensures part { OnErr result (TellsPart out.old out.new (step self.old task).entries) }
        ensures events { self.new.kernel.events ≤ self.old.kernel.events + 1 }
    {
        match self.program(task) {
            Some(program) => {
                let request = program.next();
                self.step_alive(task, &request, out)
            }
            None => tell_gone(task, out),
        }
    }

    /// The program of a task that has not ended.
    fn program(&self, task: TaskNo) -> Option<&AnyProgram>
        ensures { option_copied result ≡ program_at self.now task }
    {
        if !self.kernel.alive(task) {
            return None;
        }
        self.programs.get((task.0 as usize).saturating_sub(1))
    }

    fn step_alive(
        &mut self,
        task: TaskNo,
        request: &Request,
        out: &mut Trace,
    ) -> Result<(), NoMemory>
        requires few_events { self.old.kernel.events < 2 ^ 24 }
        requires request { option_map wanted (program_at self.old task) ≡ Some request.now }
        ensures state { OnOk result (self.new ≡ (step self.old task).state) }
        ensures entries { OnOk result (Tells out.old out.new (step self.old task).entries) }
        ensures part { OnErr result (TellsPart out.old out.new (step self.old task).entries) }
        ensures events { self.new.kernel.events ≤ self.old.kernel.events + 1 }
    {
        match serve_request(&mut self.kernel, task, request, out) {
            Ok(outcome) => {
                let program = &mut self.programs[(task.0 as usize).saturating_sub(1)];
                program.take(&outcome, out)
            }
            Err(NoMemory) => Err(NoMemory),
        }
    }

    #[inline(never)]
    fn kill(&mut self, task: TaskNo, out: &mut Trace) -> Result<(), NoMemory>
        requires few_events { self.old.kernel.events < 2 ^ 24 }
        ensures state { OnOk result (self.new ≡ (kill self.old task).state) }
        ensures entries { OnOk result (Tells out.old out.new (kill self.old task).entries) }
        ensures part { OnErr result (TellsPart out.old out.new (kill self.old task).entries) }
        ensures events { self.new.kernel.events ≤ self.old.kernel.events + 1 }
    {
        if !self.kernel.alive(task) {
            return tell_gone(task, out);
        }
        kill_task(&mut self.kernel, task, out)
    }

    /// The next task is made from a template. All memory is taken first.
    #[inline(never)]
    fn spawn(&mut self, place: u32, out: &mut Trace) -> Result<(), NoMemory>
        requires few_events { self.old.kernel.events < 2 ^ 24 }
        requires may { MayHappen self.old (Event.Spawn place) }
        ensures state { OnOk result (self.new ≡ (spawn self.old place).state) }
        ensures entries { OnOk result (Tells out.old out.new (spawn self.old place).entries) }
        ensures events { self.new.kernel.events ≤ self.old.kernel.events + 1 }
        ensures unchanged { OnErr result (self.new ≡ self.old) }
        ensures trace_unchanged { OnErr result (out.new.entries ≡ out.old.entries) }
    {
        let Some(plan) = self.templates.as_slice().get(place as usize) else {
            return Ok(());
        };
        make_room(&mut self.programs)?;
        let program = program_of(self.alloc, self.kernel.next_task().0, plan)?;
        add_made(
            &mut self.kernel,
            &mut self.programs,
            program,
            plan.limit,
            self.names,
            out,
        )?;
        Ok(())
    }

    #[inline(never)]
    fn hang_up(&mut self, task: TaskNo, phone: u64, out: &mut Trace) -> Result<(), NoMemory>
        requires few_events { self.old.kernel.events < 2 ^ 24 }
        ensures state { OnOk result (self.new ≡ (hangup self.old task phone).state) }
        ensures entries { OnOk result (Tells out.old out.new (hangup self.old task phone).entries) }
        ensures part { OnErr result (TellsPart out.old out.new
            (hangup self.old task phone).entries) }
        ensures events { self.new.kernel.events ≤ self.old.kernel.events + 1 }
    {
        if !self.kernel.alive(task) {
            return tell_gone(task, out);
        }
        match serve_request(&mut self.kernel, task, &Request::Hangup { phone }, out) {
            Ok(_) => Ok(()),
            Err(NoMemory) => Err(NoMemory),
        }
    }
}

/// Makes room for one program more.
fn make_room(programs: &mut Vec<AnyProgram>) -> Result<(), NoMemory>
    ensures items { programs.new.items ≡ programs.old.items }
    ensures room { OnOk result (vec_len programs.new < vec_capacity programs.new) }
{
    programs.reserve(1)?;
    Ok(())
}

/// Makes the next task, which runs this program, and for which there is room.
fn add_made(
    kernel: &mut Kernel,
    programs: &mut Vec<AnyProgram>,
    program: AnyProgram,
    limit: u32,
    names: Option<TaskNo>,
    out: &mut Trace,
) -> Result<(), NoMemory>
    requires limit { IsLimit limit }
    requires few_tasks { length kernel.old.tasks.alive < 64 }
    requires few_events { kernel.old.events < 2 ^ 24 }
    requires room { vec_len programs.old < vec_capacity programs.old }
    ensures kernel { OnOk result (kernel.new ≡ (spawn_event kernel.old limit names).state) }
    ensures programs { OnOk result (programs.new.items ≡ programs.old.items ++ program ∷ []) }
    ensures entries { OnOk result (Tells out.old out.new (spawn_event kernel.old limit names).entries) }
    ensures events { OnOk result (kernel.new.events ≡ kernel.old.events + 1) }
    ensures no_task { OnErr result (kernel.new ≡ kernel.old) }
    ensures no_program { OnErr result (programs.new.items ≡ programs.old.items) }
    ensures trace_unchanged { OnErr result (out.new.entries ≡ out.old.entries) }
{
    match kernel.spawn(limit, names, out) {
        Ok(_) => {
            programs.push_reserved(program);
            Ok(())
        }
        Err(NoMemory) => {
            drop(program);
            Err(NoMemory)
        }
    }
}

/// The same request once more.
fn copy_of(request: &Request) -> Request
    ensures { result ≡ request.now }
{
    match request {
        Request::Call { phone, msg } => Request::Call {
            phone: *phone,
            msg: *msg,
        },
        Request::Receive => Request::Receive,
        Request::Answer { call, reply } => Request::Answer {
            call: *call,
            reply: *reply,
        },
        Request::Forward {
            call,
            phone,
            mode,
            change,
        } => Request::Forward {
            call: *call,
            phone: *phone,
            mode: *mode,
            change: *change,
        },
        Request::Hangup { phone } => Request::Hangup { phone: *phone },
        Request::AreaMake {
            base,
            pages,
            rights,
        } => Request::AreaMake {
            base: *base,
            pages: *pages,
            rights: *rights,
        },
        Request::AreaDrop { base } => Request::AreaDrop { base: *base },
        Request::Poke { at, bytes } => Request::Poke {
            at: *at,
            bytes: bytes.copy(),
        },
        Request::Peek { at, count } => Request::Peek {
            at: *at,
            count: *count,
        },
        Request::Nothing => Request::Nothing,
    }
}

/// Tells what a task asks, for which there is room.
fn tell_request(task: TaskNo, request: &Request, out: &mut Trace)
    requires room { 0 < out.old.spare }
    ensures entries { Tells out.old out.new (entry.Head task request.now ∷ []) }
{
    match request {
        Request::Call { phone, msg } => {
            let (phone, msg) = (*phone, *msg);
            out.push(Entry::Head(task, Request::Call { phone, msg }));
        }
        Request::Receive => out.push(Entry::Head(task, Request::Receive)),
        Request::Answer { call, reply } => {
            let (call, reply) = (*call, *reply);
            out.push(Entry::Head(task, Request::Answer { call, reply }));
        }
        Request::Hangup { phone } => {
            let phone = *phone;
            out.push(Entry::Head(task, Request::Hangup { phone }));
        }
        Request::Nothing => out.push(Entry::Head(task, Request::Nothing)),
        other => tell_other_request(task, other, out),
    }
}

/// The same of a request that comes less often.
#[inline(never)]
fn tell_other_request(task: TaskNo, request: &Request, out: &mut Trace)
    requires room { 0 < out.old.spare }
    ensures entries { Tells out.old out.new (entry.Head task request.now ∷ []) }
{
    out.push(Entry::Head(task, copy_of(request)));
}

/// Tells what a task is told, for which there is room.
fn tell_outcome(outcome: &Outcome, out: &mut Trace)
    requires room { 0 < out.old.spare }
    ensures entries { Tells out.old out.new (entry.Outcome outcome.now ∷ []) }
{
    match outcome {
        Outcome::Done => out.push(Entry::Outcome(Outcome::Done)),
        Outcome::Refused(code) => out.push(Entry::Outcome(Outcome::Refused(*code))),
        Outcome::Accepted(call) => out.push(Entry::Outcome(Outcome::Accepted(*call))),
        Outcome::Received { call, msg, label } => {
            let (call, msg, label) = (*call, *msg, *label);
            out.push(Entry::Outcome(Outcome::Received { call, msg, label }));
        }
        Outcome::Answered { call, reply } => {
            let (call, reply) = (*call, *reply);
            out.push(Entry::Outcome(Outcome::Answered { call, reply }));
        }
        Outcome::Empty => out.push(Entry::Outcome(Outcome::Empty)),
        Outcome::Bytes(bytes) => out.push(Entry::Outcome(Outcome::Bytes(bytes.copy()))),
    }
}

/// The kernel serves a request, between its head, which tells the request, and its outcome.
fn serve_request(
    kernel: &mut Kernel,
    task: TaskNo,
    request: &Request,
    out: &mut Trace,
) -> Result<Outcome, NoMemory>
    requires alive { is_alive kernel.old task ≡ true }
    requires few_events { kernel.old.events < 2 ^ 24 }
    ensures state { OnOk result (kernel.new ≡ (serve kernel.old task request.now).state) }
    ensures outcome { IfOk result (λ o. o ≡ (serve kernel.old task request.now).outcome) }
    ensures fits { IfOk result (λ o. fits request.now o ≡ true) }
    ensures entries { OnOk result (Tells out.old out.new
        (served_entries task request.now (serve kernel.old task request.now))) }
    ensures part { OnErr result (TellsPart out.old out.new
        (served_entries task request.now (serve kernel.old task request.now))) }
    ensures counted { OnOk result (kernel.new.events ≡ kernel.old.events + 1) }
    ensures events { kernel.new.events ≤ kernel.old.events + 1 }
    ensures rises { kernel.old.events ≤ kernel.new.events }
{
    out.reserve(1)?;
    tell_request(task, request, out);
    let outcome = kernel.serve(task, request, out)?;
    out.reserve(1)?;
    tell_outcome(&outcome, out);
    Ok(outcome)
}

/// The kernel brings a task to its end, after the head.
fn kill_task(kernel: &mut Kernel, task: TaskNo, out: &mut Trace) -> Result<(), NoMemory>
    requires alive { is_alive kernel.old task ≡ true }
    requires few_events { kernel.old.events < 2 ^ 24 }
    ensures state { OnOk result (kernel.new ≡ (kill_event kernel.old task).state) }
    ensures entries { OnOk result (Tells out.old out.new
        (killed_entries task (kill_event kernel.old task))) }
    ensures part { OnErr result (TellsPart out.old out.new
        (killed_entries task (kill_event kernel.old task))) }
    ensures events { kernel.new.events ≤ kernel.old.events + 1 }
    ensures rises { kernel.old.events ≤ kernel.new.events }
{
    out.reserve(1)?;
    out.push(Entry::Kill(task));
    kernel.kill(task, out)
}

/// The one entry of an event on a task that has ended.
fn tell_gone(task: TaskNo, out: &mut Trace) -> Result<(), NoMemory>
    ensures entries { OnOk result (Tells out.old out.new (gone_entries task)) }
    ensures unchanged { OnErr result (out.new.entries ≡ out.old.entries) }
{
    out.reserve(1)?;
    out.push(Entry::Gone(task));
    Ok(())
}
