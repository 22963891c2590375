//! What a block server did fits its state at the start and after each event, and so it keeps the law
//! of blocks.
ghost use Rattle.std.specs.Prelude.{◌≡◌, ℕ, [], Some, Option};
ghost use Rattle.ipc_ids.specs.declared.numbers.CallNo.{CallNo as Number};
ghost use Rattle.ipc_ids.specs.declared.message.Outcome.{Outcome};
ghost use Rattle.ipc_ids.specs.Methods.{phone_hungup};
ghost use Rattle.block_server.specs.declared.received.ReceivedCall.{ReceivedCall as Call};
ghost use Rattle.block_server.specs.declared.received.Work.TheVariants.{Show, Fetch};
ghost use Rattle.block_server.specs.Blocks.{BlockState, started, after, first_work, slot_of};
ghost use Rattle.block_server.specs.WindowLaws.{receipt, SlotsDiffer, ReadsBlock, WritesBlock, LetsGo};
ghost use Rattle.block_server.specs.BlockHistory.{StartFits, StepFits, HangupFits, FittingIsLawful};

/// The doings of a server fit its state at the start, after each of its steps, whatever outcome that
/// fits comes, and after a hangup by the schedule.
pub fn events_keep_the_fit()
    ensures start { StartFits }
    ensures step { StepFits }
    ensures hangup { HangupFits }
{}

/// Doings that fit the state of a server keep the law of blocks.
pub fn fitting_doings_keep_the_law()
    ensures { FittingIsLawful }
{}

/// No two windows are of one client.
pub fn each_client_has_one_window()
    ensures start { (blocks : ℕ) (service : Option ℕ) → SlotsDiffer (started blocks service).slots }
    ensures step { (s : BlockState) (got : Outcome) → SlotsDiffer s.slots
        → SlotsDiffer (after s got).slots }
{}

/// A read pokes the block and changes none; a write takes what it peeks, before it is answered, and
/// changes no other block.
pub fn transfers_move_one_block()
    ensures read { (s : BlockState) (call : Number) (at block : ℕ)
        → first_work s ≡ Some (Show call at block) → ReadsBlock s call at block }
    ensures write { (s : BlockState) (call : Number) (at block : ℕ)
        → first_work s ≡ Some (Fetch call at block) → WritesBlock s call at block }
{}

/// Where the phone of a client is hung up, its window is dropped and its slot is free.
pub fn a_client_that_goes_leaves_its_window()
    ensures { (s : BlockState) (r : Call) (slot : ℕ) → s.work ≡ []
        → r.msg.method ≡ phone_hungup → slot_of s.slots r.label ≡ Some slot
        → LetsGo s (after s (receipt r)) r slot }
{}
