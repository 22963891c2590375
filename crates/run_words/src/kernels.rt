//! What the words of a kernel tell.
ghost use Rattle.std.specs.Prelude.{◌≡◌, ◌++◌, ℕ, List, Option};
ghost use Rattle.ipc_ids.specs.declared.numbers.TaskNo.{TaskNo};
ghost use Rattle.ipc_ids.specs.declared.message.Request.{Request};
ghost use Rattle.switchboard.specs.State.{KernelState};
ghost use Rattle.switchboard.specs.Sound.{IsSound};
ghost use Rattle.kernel_core.specs.Kernel.{serve, kill_event, spawn_event};
ghost use Rattle.run_words.specs.Kernel.{kernel_words, AreAlikeKernels, AreAlikeSteps, AreServedAlike};

/// Sound kernels whose words are the same, whatever comes behind them, differ in how many events
/// there were and in the stamps of calls alone, and these stand in one order within each place; and
/// what comes behind is the same.
pub fn words_tell_sound_kernels_apart()
    ensures { (a b : KernelState) (s t : List ℕ) → IsSound a → IsSound b
        → kernel_words a ++ s ≡ kernel_words b ++ t → AreAlikeKernels a b × (s ≡ t) }
{}

/// Sound kernels of the same words go on alike: a request, a kill and a spawn come to the same, and
/// leave kernels of the same words.
pub fn kernels_of_the_same_words_go_on_alike()
    ensures requests { (a b : KernelState) (t : TaskNo) (asked : Request)
        → IsSound a → IsSound b → kernel_words a ≡ kernel_words b
        → AreServedAlike (serve a t asked) (serve b t asked) }
    ensures kills { (a b : KernelState) (t : TaskNo)
        → IsSound a → IsSound b → kernel_words a ≡ kernel_words b
        → AreAlikeSteps (kill_event a t) (kill_event b t) }
    ensures spawns { (a b : KernelState) (limit : ℕ) (names : Option TaskNo)
        → IsSound a → IsSound b → kernel_words a ≡ kernel_words b
        → AreAlikeSteps (spawn_event a limit names) (spawn_event b limit names) }
{}
