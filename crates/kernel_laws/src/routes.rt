//! Where calls go, and where phones lead, over all sound states.
ghost use Rattle.std.specs.Prelude.{◌≡◌, true};
ghost use Rattle.ipc_ids.specs.declared.numbers.TaskNo.{TaskNo};
ghost use Rattle.ipc_ids.specs.declared.message.Request.{Request};
ghost use Rattle.switchboard.specs.State.{KernelState};
ghost use Rattle.switchboard.specs.Sound.{IsSound};
ghost use Rattle.kernel_core.specs.Kernel.{serve, kill_event};
ghost use Rattle.kernel_laws.specs.Routes.{GoWherePhonesLead, OnlyFarewellsCome, LeadWhereConnected, NoneCameToLead};

/// A call goes to the task that the phone leads to at that moment, and nowhere else; so does one that
/// is passed on, with the label that its mode says, and so do the calls that tell of hangups.
pub fn calls_go_where_phones_lead()
    ensures serves { (k : KernelState) (t : TaskNo) (asked : Request) → IsSound k
        → GoWherePhonesLead t asked k (serve k t asked) }
    ensures kills { (k : KernelState) (t : TaskNo) → IsSound k
        → OnlyFarewellsCome t k (kill_event k t).state }
{}

/// A request makes a phone lead to a task only where it accepts a connect call, and then to the other
/// of the two; no phone ceases to lead but by its hangup. A kill makes no phone lead anywhere.
pub fn phones_lead_where_they_are_connected()
    ensures serves { (k : KernelState) (t : TaskNo) (asked : Request) → IsSound k
        → LeadWhereConnected t asked k (serve k t asked).state }
    ensures kills { (k : KernelState) (t : TaskNo) → IsSound k
        → NoneCameToLead k (kill_event k t).state }
{}
