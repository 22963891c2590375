//! What the words of a kernel and of programs tell.
ghost use Rattle.std.specs.Prelude.{◌≡◌, ◌++◌, ℕ, Bool, List};
ghost use Rattle.ipc_ids.specs.declared.message.PhoneState.{PhoneState};
ghost use Rattle.answerbox.specs.Calls.{CallTable};
ghost use Rattle.address_space.specs.Memory.{Memory};
ghost use Rattle.state_words.specs.Apart.{AreBelow, AreOld, AreSame};
ghost use Rattle.state_words.specs.KernelWords.{parts_words};
ghost use Rattle.raw_program.specs.Raw.{RawState};
ghost use Rattle.naming_service.specs.Naming.{NamingState};
ghost use Rattle.block_server.specs.Blocks.{BlockState};
ghost use Rattle.state_words.specs.ProgramWords.{raw_words, naming_words, block_words};
ghost use Rattle.state_words.specs.ProgramsApart.{IsSameRaw, IsSameNaming, IsSameBlock};
ghost use Rattle.async_task.specs.Program.{AsyncTask};
ghost use Rattle.state_words.specs.AsyncWords.{async_words, async_quiet};

/// Kernels whose words are the same, whatever comes behind them, have the same tasks alive, the
/// same phones, the same live calls but for their stamps, in one order within each place, and the
/// same memory, where no live call and no store has a number that is still to come.
pub fn words_tell_kernels_apart()
    ensures { (alive alive' : List Bool) (phones phones' : List (List PhoneState))
        (calls calls' : CallTable) (memory memory' : Memory) (s t : List ℕ)
        → AreBelow calls → AreBelow calls' → AreOld memory → AreOld memory'
        → parts_words alive phones calls memory ++ s
        ≡ parts_words alive' phones' calls' memory' ++ t
        → AreSame alive alive' phones phones' calls calls' memory memory' s t }
{}

/// Programs of one kind whose words are the same, whatever comes behind them, are in all parts of
/// which words are written the same.
pub fn words_tell_programs_apart()
    ensures raw { (a b : RawState) (s t : List ℕ)
        → raw_words a ++ s ≡ raw_words b ++ t → IsSameRaw a b × (s ≡ t) }
    ensures naming { (a b : NamingState) (s t : List ℕ)
        → naming_words a ++ s ≡ naming_words b ++ t → IsSameNaming a b × (s ≡ t) }
    ensures block { (a b : BlockState) (s t : List ℕ)
        → block_words a ++ s ≡ block_words b ++ t → IsSameBlock a b × (s ≡ t) }
{}

/// Tasks of the same number and the same bodies whose words are the same, whatever comes behind
/// them, are the same but for how many outcomes they took, and so is what comes behind.
pub fn words_tell_async_tasks_apart()
    ensures { (a b : AsyncTask) (s t : List ℕ) → a.state.me ≡ b.state.me
        → a.state.bodies ≡ b.state.bodies → async_words a.state ++ s ≡ async_words b.state ++ t
        → (async_quiet a ≡ async_quiet b) × (s ≡ t) }
{}
