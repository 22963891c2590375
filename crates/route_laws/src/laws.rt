//! What each event keeps of what a history tells of phones, and that such a history keeps the law.
ghost use Rattle.std.specs.Prelude.{List, ℕ, ◌≡◌, ◌≤◌, ◌++◌, true};
ghost use Rattle.ipc_ids.specs.declared.numbers.TaskNo.{TaskNo};
ghost use Rattle.ipc_ids.specs.declared.message.Request.{Request};
ghost use Rattle.ipc_ids.specs.declared.entry.Entry.{Entry};
ghost use Rattle.switchboard.specs.State.{KernelState, is_alive};
ghost use Rattle.kernel_core.specs.History.{HistoryFits};
ghost use Rattle.kernel_core.specs.History.{served_entries, killed_entries, gone_entries};
ghost use Rattle.kernel_core.specs.Kernel.{serve, kill_event, spawn_event};
ghost use Rattle.route_laws.specs.Leads.{Beginning};
ghost use Rattle.route_laws.specs.PhoneLaw.{CallsGoWherePhonesLead};
ghost use Rattle.route_laws.specs.PhoneHistory.{RoutesFit};

/// A history that fits the kernel's state, its phones and the labels of its calls does so after
/// each event: a request, a kill of a task that is alive, an event on one that has ended, and the
/// making of a task, whose phone 0 leads to the naming service with which the run began.
pub fn events_keep_the_phones()
    ensures serves { (b : Beginning) (h : List Entry) (k : KernelState) (t : TaskNo)
        (asked : Request) → HistoryFits h k → RoutesFit b h k
        → RoutesFit b (h ++ served_entries t asked (serve k t asked)) (serve k t asked).state }
    ensures kills { (b : Beginning) (h : List Entry) (k : KernelState) (t : TaskNo)
        → HistoryFits h k → is_alive k t ≡ true → RoutesFit b h k
        → RoutesFit b (h ++ killed_entries t (kill_event k t)) (kill_event k t).state }
    ensures gone { (b : Beginning) (h : List Entry) (k : KernelState) (t : TaskNo)
        → HistoryFits h k → RoutesFit b h k → RoutesFit b (h ++ gone_entries t) k }
    ensures spawns { (b : Beginning) (h : List Entry) (k : KernelState) (limit : ℕ)
        → 1 ≤ limit → HistoryFits h k → RoutesFit b h k
        → RoutesFit b (h ++ (spawn_event k limit b.names).entries)
        (spawn_event k limit b.names).state }
{}

/// A history that fits so keeps the law of phones.
pub fn fitting_histories_keep_the_law_of_phones()
    ensures { (b : Beginning) (h : List Entry) (k : KernelState)
        → HistoryFits h k → RoutesFit b h k
        → CallsGoWherePhonesLead b h }
{}
