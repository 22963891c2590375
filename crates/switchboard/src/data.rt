//! The data methods: the joins of their answers and deliveries.
ghost use Rattle.std.specs.Prelude.{◌≡◌, Some, IsSome};
ghost use Rattle.answerbox.specs.Calls.{call_at};
ghost use Rattle.switchboard.specs.Areas.{wrote_note};
ghost use Rattle.switchboard.specs.Data.{accepted_write, accepted_read, code_told, read_delivery_live};
ghost use Rattle.switchboard.specs.Board.{IsAdded};
ghost use Rattle.switchboard.specs.Joins.{answer_to, on_call};
ghost use Rattle.switchboard.specs.Rooms.{HasRoom, MayAccept, UsesRoom};
ghost use Rattle.switchboard.specs.Serving.{Does, DoesOrLeaves, Serves};

use crate::board::Switchboard;
use crate::joins::tell;
use address_space::SpaceFault;
use answerbox::Found;
use ipc_ids::{Code, Entry, MethodKind, NoMemory, Outcome, Reply, StoreNo, TaskNo, Trace};

impl Switchboard {
    /// Accepts the DATA_WRITE that the task holds: the first bytes that it carries are written
    /// where the reply says. Where they are not, the code of the answer says why.
    #[inline(always)]
    pub fn accept_write(
        &mut self,
        found: Found,
        reply: &Reply,
        who: TaskNo,
        caller: TaskNo,
        out: &mut Trace,
    )
        requires accepting { MayAccept self.old out.old found.number
            MethodKind.DataWrite who caller }
        ensures step { Does self.new out.old out.new
            (on_call (λ k c. answer_to (accepted_write k c reply.now who) (Some who) caller)
            self.old.state found.number.0) }
        ensures room { UsesRoom self.old self.new out.old out.new 0 1 2 }
    {
        let told = self.write_held(found, reply, who);
        let (code, args) = (code_told(&told), reply.args);
        let note = wrote_note(who, args[0], args[1], &told);
        self.finish_telling(found, &Reply { code, args }, note, who, caller, out);
    }

    /// Accepts the DATA_READ that the task holds: the call takes the bytes with it that the reply
    /// names. Where it does not, the code of the answer says why.
    ///
    /// # Errors
    ///
    /// `NoMemory` where no memory was found for the bytes; then nothing has changed.
    #[inline(never)]
    pub fn accept_read(
        &mut self,
        found: Found,
        reply: &Reply,
        who: TaskNo,
        caller: TaskNo,
        out: &mut Trace,
    ) -> Result<(), NoMemory>
        requires accepting { MayAccept self.old out.old found.number MethodKind.DataRead who caller }
        ensures step { DoesOrLeaves result self.old self.new out.old out.new
            (on_call (λ k c. answer_to (accepted_read k c reply.now who) (Some who) caller)
            self.old.state found.number.0) }
        ensures room { UsesRoom self.old self.new out.old out.new 0 1 2 }
    {
        let args = reply.args;
        match self.read_held(found, reply, who) {
            Ok(bytes) => {
                let answer = Reply {
                    code: Code::EOK,
                    args,
                };
                self.answer_with(found, answer, bytes, caller);
                out.push(Entry::Answered {
                    call: found.number,
                    reply: answer,
                    by: Some(who),
                });
                Ok(())
            }
            Err(SpaceFault::Refused(code)) => {
                self.finish(found, &Reply { code, args }, who, caller, out);
                Ok(())
            }
            Err(SpaceFault::NoMemory) => Err(NoMemory),
        }
    }

    /// Delivers to the task the answer of its DATA_READ that was accepted, and ends the call: the
    /// bytes that the call brings are written where the task asked. Where they are not, the code
    /// of the reply says why.
    #[inline(never)]
    pub fn deliver_read(&mut self, found: Found, who: TaskNo, out: &mut Trace) -> Outcome
        requires live { IsSome (call_at self.old.state.calls found.number.0) }
        requires added { IsAdded self.old.state who }
        requires room { HasRoom self.old out.old 0 0 2 }
        ensures served { Serves self.new result out.old out.new
            (read_delivery_live who self.old.state (call_at self.old.state.calls found.number.0)) }
        ensures room { UsesRoom self.old self.new out.old out.new 0 0 2 }
    {
        let call = self.leave(found);
        let told = self.write_back(&call, who);
        out.push(Entry::Delivered {
            call: call.number,
            to: who,
        });
        let count = call.buffer.as_slice().len() as u64;
        tell(wrote_note(who, call.request.args[0], count, &told), out);
        let (code, args) = (code_told(&told), call.reply.args);
        Outcome::Answered {
            call: call.number,
            reply: Reply { code, args },
        }
    }
}

/// The code of a write.
fn code_told(told: &Result<Option<StoreNo>, Code>) -> Code
    ensures { result ≡ code_told told.now }
{
    match told {
        Ok(_) => Code::EOK,
        Err(code) => *code,
    }
}

/// The entry of so many bytes that were written from an address on, where some were.
fn wrote_note(
    task: TaskNo,
    at: u64,
    count: u64,
    told: &Result<Option<StoreNo>, Code>,
) -> Option<Entry>
    ensures { result ≡ wrote_note task at count told.now }
{
    match told {
        Ok(Some(store)) => Some(Entry::Wrote {
            task,
            at,
            count,
            store: *store,
        }),
        _ => None,
    }
}
