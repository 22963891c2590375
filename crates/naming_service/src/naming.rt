//! The naming service, one outcome at a time.
ghost use Rattle.std.specs.Prelude.{◌≡◌, ◌<◌, IfSome, OnOk, OnErr, length};
ghost use Rattle.std.specs.Option.{option_copied};
ghost use Rattle.naming_service.specs.Naming.{started, first_work, phone_of, wanted, after, entries};
ghost use Rattle.naming_service.specs.Naming.{after_outcome, after_receive, handled, answered};
ghost use Rattle.naming_service.specs.Naming.{register, connect, wait_or_refuse};
ghost use Rattle.naming_service.specs.Naming.{introduced, left, waited_for, hung_up};

use crate::lists::{
    forward_pending, insert_reserved, keep_elsewhere, keep_others, reserve_for_one,
    reserve_for_waits, tell_all,
};
use crate::received::{Asked, ReceivedCall, Work};
use indexmap::IndexMap;
use ipc_ids::{CallNo, Code, Mode, NoMemory, Outcome, Program, Request, Trace};
use std::alloc::Global;
use std::collections::VecDeque;
use std::marker::Model;
use task_ends::{Ends, Waited};

/// The number in place of a phone where the receiver had none to give.
const NO_PHONE: u64 = 64;

/// The phones of services, the calls that wait for a service, the tasks that introduced themselves
/// and who waits for their end, what is to be done, the first first, and how many outcomes came.
#[derive(Drop)]
pub struct NamingService {
    registry: IndexMap<u64, u64>,
    pending: Vec<ReceivedCall>,
    ends: Ends,
    work: VecDeque<Work>,
    taken: u64,
}

impl Model for NamingService {
    ghost use Rattle.naming_service.specs.Naming.{NamingState};

    ghost Value = { NamingState };

    ghost view = { λ a. record {
      registry = a.registry.entries;
      pending = a.pending.items;
      ends = a.ends;
      work = a.work.items;
      taken = a.taken;
    } };
}

impl Program for NamingService {
    ghost wanted = { wanted };

    ghost after = { after };

    ghost entries = { entries };

    ghost taken = { λ service. service.taken };

    fn next(&self) -> Request {
        match self.first_work() {
            Some(Work::Answer { call, reply }) => Request::Answer {
                call: call.0,
                reply: *reply,
            },
            Some(Work::Forward { call, phone, msg }) => Request::Forward {
                call: call.0,
                phone: *phone,
                mode: Mode::Plain,
                change: Some(*msg),
            },
            None => Request::Receive,
        }
    }

    fn take(&mut self, got: &Outcome, _out: &mut Trace) -> Result<(), NoMemory> {
        self.take_outcome(got)?;
        self.taken += 1;
        Ok(())
    }

    fn taken(&self) -> u64 {
        self.taken
    }
}

impl NamingService {
    /// A service that knows no other service and holds no call. Takes no memory.
    pub fn new(alloc: Global) -> NamingService
        ensures { result ≡ started }
    {
        NamingService {
            registry: IndexMap::new(alloc),
            pending: Vec::new(alloc),
            ends: Ends::new(alloc),
            work: VecDeque::new(alloc),
            taken: 0,
        }
    }

    /// The services with their phones, in the order of registration. Takes no memory.
    pub fn registry(&self) -> &IndexMap<u64, u64>
        ensures { result.now.entries ≡ self.now.registry }
    {
        &self.registry
    }

    /// The calls that wait for a service, in the order of arrival. Takes no memory.
    pub fn pending(&self) -> &[ReceivedCall]
        ensures { result.now ≡ self.now.pending }
    {
        self.pending.as_slice()
    }

    /// The tasks that introduced themselves, and who waits for their end. Takes no memory.
    pub fn ends(&self) -> &Ends
        ensures { result.now ≡ self.now.ends }
    {
        &self.ends
    }

    /// What is to be done, the first first. Takes no memory.
    pub fn work(&self) -> &VecDeque<Work>
        ensures { result.now.items ≡ self.now.work }
    {
        &self.work
    }

    fn first_work(&self) -> Option<&Work>
        ensures work { option_copied result ≡ first_work self.now }
        ensures some { IfSome result (λ _. 0 < length self.now.work) }
    {
        self.work.front()
    }

    /// Does what an outcome asks for, and does not count it.
    fn take_outcome(&mut self, got: &Outcome) -> Result<(), NoMemory>
        ensures state { OnOk result (self.new ≡ after_outcome self.old got.now) }
        ensures unchanged { OnErr result (self.new ≡ self.old) }
    {
        match self.first_work() {
            Some(_) => {
                let _ = self.work.pop_front();
                Ok(())
            }
            None => self.take_received(got),
        }
    }

    fn take_received(&mut self, got: &Outcome) -> Result<(), NoMemory>
        ensures state { OnOk result (self.new ≡ after_receive self.old got.now) }
        ensures unchanged { OnErr result (self.new ≡ self.old) }
    {
        match got {
            Outcome::Received { call, msg, label } => self.handle(&ReceivedCall {
                number: *call,
                msg: *msg,
                label: *label,
            }),
            _ => Ok(()),
        }
    }

    fn handle(&mut self, received: &ReceivedCall) -> Result<(), NoMemory>
        ensures state { OnOk result (self.new ≡ handled self.old received.now) }
        ensures unchanged { OnErr result (self.new ≡ self.old) }
    {
        match Asked::by(received.msg.method) {
            Asked::Register => self.register(received),
            Asked::Connect => self.connect(received),
            Asked::Introduce => self.introduce(received),
            Asked::Leave => self.leave(received),
            Asked::Wait => self.wait(received),
            Asked::HungUp => self.hang_up(received),
            Asked::Other => self.answer(received.number, Code::ENOENT),
        }
    }

    fn answer(&mut self, call: CallNo, code: Code) -> Result<(), NoMemory>
        ensures state { OnOk result (self.new ≡ answered self.old call code) }
        ensures unchanged { OnErr result (self.new ≡ self.old) }
    {
        self.work.push_back(Work::answering(call, code))?;
        Ok(())
    }

    fn phone_of(&self, service: u64) -> Option<u64>
        ensures { result ≡ phone_of self.now.registry service }
    {
        self.registry.get(&service).copied()
    }

    /// Passes the call on to the service that it wants.
    fn connect(&mut self, received: &ReceivedCall) -> Result<(), NoMemory>
        ensures state { OnOk result (self.new ≡ connect self.old received.now) }
        ensures unchanged { OnErr result (self.new ≡ self.old) }
    {
        match self.phone_of(received.service()) {
            Some(phone) => {
                self.work.push_back(Work::forwarding(received, phone))?;
                Ok(())
            }
            None => self.wait_or_refuse(received),
        }
    }

    /// Keeps a call for a service that is not there, or answers it.
    fn wait_or_refuse(&mut self, received: &ReceivedCall) -> Result<(), NoMemory>
        ensures state { OnOk result (self.new ≡ wait_or_refuse self.old received.now) }
        ensures unchanged { OnErr result (self.new ≡ self.old) }
    {
        if !received.is_blocking() {
            return self.answer(received.number, Code::ENOENT);
        }
        self.pending.push(*received)?;
        Ok(())
    }

    /// Makes the caller a service, and passes the calls that wait for it on.
    fn register(&mut self, received: &ReceivedCall) -> Result<(), NoMemory>
        ensures state { OnOk result (self.new ≡ register self.old received.now) }
        ensures unchanged { OnErr result (self.new ≡ self.old) }
    {
        let (service, phone) = (received.service(), received.phone_given());
        let call = received.number;
        reserve_for_one(&mut self.registry, &mut self.work, self.pending.as_slice())?;
        keep_elsewhere(&mut self.registry, phone);
        if phone == NO_PHONE {
            self.work
                .push_back_reserved(Work::answering(call, Code::ELIMIT));
        } else if self.registry.contains_key(&service) {
            self.work
                .push_back_reserved(Work::answering(call, Code::EEXIST));
        } else {
            insert_reserved(&mut self.registry, service, phone);
            self.work
                .push_back_reserved(Work::answering(call, Code::EOK));
            forward_pending(&mut self.work, self.pending.as_slice(), service, phone);
            keep_others(&mut self.pending, service);
        }
        Ok(())
    }

    /// The caller's task introduces itself, unless it is in the list.
    fn introduce(&mut self, received: &ReceivedCall) -> Result<(), NoMemory>
        ensures state { OnOk result (self.new ≡ introduced self.old received.now) }
        ensures unchanged { OnErr result (self.new ≡ self.old) }
    {
        let call = received.number;
        self.work.reserve(1)?;
        if self.ends.introduce(received.label)? {
            self.work
                .push_back_reserved(Work::answering(call, Code::EOK));
        } else {
            self.work
                .push_back_reserved(Work::answering(call, Code::EEXIST));
        }
        Ok(())
    }

    /// The caller's task leaves a value.
    fn leave(&mut self, received: &ReceivedCall) -> Result<(), NoMemory>
        ensures state { OnOk result (self.new ≡ left self.old received.now) }
        ensures unchanged { OnErr result (self.new ≡ self.old) }
    {
        let call = received.number;
        self.work.reserve(1)?;
        if self.ends.set_value(received.label, received.service()) {
            self.work
                .push_back_reserved(Work::answering(call, Code::EOK));
        } else {
            self.work
                .push_back_reserved(Work::answering(call, Code::ENOENT));
        }
        Ok(())
    }

    /// Tells the caller of the end of a task, or keeps its call until that ends.
    fn wait(&mut self, received: &ReceivedCall) -> Result<(), NoMemory>
        ensures state { OnOk result (self.new ≡ waited_for self.old received.now) }
        ensures unchanged { OnErr result (self.new ≡ self.old) }
    {
        let call = received.number;
        self.work.reserve(1)?;
        match self.ends.wait(call, received.service())? {
            Waited::Ended(end) => self.work.push_back_reserved(Work::telling(end, call)),
            Waited::Pending => {}
            Waited::Unknown => self
                .work
                .push_back_reserved(Work::answering(call, Code::ENOENT)),
        }
        Ok(())
    }

    /// The task that introduced itself over this phone ends, and who waits for it learns of it.
    fn hang_up(&mut self, received: &ReceivedCall) -> Result<(), NoMemory>
        ensures state { OnOk result (self.new ≡ hung_up self.old received.now) }
        ensures unchanged { OnErr result (self.new ≡ self.old) }
    {
        let call = received.number;
        reserve_for_waits(&mut self.work, self.ends.waits())?;
        let freed = self.ends.end(received.label)?;
        self.work
            .push_back_reserved(Work::answering(call, Code::EOK));
        tell_all(&mut self.work, freed.end, freed.waits.as_slice());
        Ok(())
    }
}
