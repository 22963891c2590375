//! The share methods: the join of their answers.
ghost use Rattle.std.specs.Prelude.{◌≡◌, Some};
ghost use Rattle.switchboard.specs.Data.{code_told};
ghost use Rattle.switchboard.specs.Sharing.{accepted_share, base_for, kind_of_share, shared_note, taker_of};
ghost use Rattle.switchboard.specs.Joins.{answer_to, on_call};
ghost use Rattle.switchboard.specs.Rooms.{MayAccept, UsesRoom};
ghost use Rattle.switchboard.specs.Serving.{Does};

use crate::board::Switchboard;
use answerbox::Found;
use ipc_ids::{Code, Entry, Reply, StoreNo, TaskNo, Trace};

/// The two ways in which an area is shared.
#[derive(Clone, Copy)]
pub enum Share {
    /// A SHARE_OUT: the task that answers gets an area of the caller.
    Out,
    /// A SHARE_IN: the caller gets an area of the task that answers.
    In,
}

impl Share {
    /// Who gets an area as the task answers the caller.
    fn taker(self, answerer: TaskNo, caller: TaskNo) -> TaskNo
        ensures { result ≡ taker_of self answerer caller }
    {
        match self {
            Share::Out => answerer,
            Share::In => caller,
        }
    }

    /// Where that area begins: the reply says so, or the call asked so.
    fn base(self, asked: &[u64; 5], args: &[u64; 5]) -> u64
        ensures { result ≡ base_for self asked.now args.now }
    {
        match self {
            Share::Out => args[0],
            Share::In => asked[0],
        }
    }
}

impl Switchboard {
    /// Accepts the share call that the task holds: one of the two gets an area over the store of
    /// an area of the other. Where it does not, the code of the answer says why.
    #[inline(never)]
    pub fn accept_share(
        &mut self,
        way: Share,
        found: Found,
        reply: &Reply,
        who: TaskNo,
        caller: TaskNo,
        out: &mut Trace,
    )
        requires accepting { MayAccept self.old out.old found.number (kind_of_share way) who caller }
        ensures step { Does self.new out.old out.new (on_call
            (λ k c. answer_to (accepted_share way k c reply.now who caller) (Some who) caller)
            self.old.state found.number.0) }
        ensures room { UsesRoom self.old self.new out.old out.new 0 1 2 }
    {
        let asked = self.read(found).request.args;
        let told = self.share(way, &asked, reply, who, caller);
        let (code, args) = (code_told(&told), reply.args);
        let (task, base) = (way.taker(who, caller), way.base(&asked, &args));
        let note = shared_note(task, base, asked[1], asked[2], &told);
        self.finish_telling(found, &Reply { code, args }, note, who, caller, out);
    }
}

/// The code of a share.
fn code_told(told: &Result<StoreNo, Code>) -> Code
    ensures { result ≡ code_told told.now }
{
    match told {
        Ok(_) => Code::EOK,
        Err(code) => *code,
    }
}

/// The entry of an area that a task got over a store that was there, where it got one.
fn shared_note(
    task: TaskNo,
    base: u64,
    pages: u64,
    rights: u64,
    told: &Result<StoreNo, Code>,
) -> Option<Entry>
    ensures { result ≡ shared_note task base pages rights told.now }
{
    match told {
        Ok(store) => Some(Entry::AreaMade {
            task,
            base,
            pages,
            rights,
            store: *store,
        }),
        Err(_) => None,
    }
}
