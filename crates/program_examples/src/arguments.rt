//! How many arguments messages and answers have.
ghost use Rattle.std.specs.Prelude.{ℕ, List, Option, All};
ghost use Rattle.ipc_ids.specs.declared.message.Outcome.{Outcome};
ghost use Rattle.script_lines.specs.Plan.{Plan};
ghost use Rattle.script_reader.specs.Grammar.{SpellsScript};
ghost use Rattle.raw_program.specs.Raw.{RawState};
ghost use Rattle.raw_program.specs.Raw as raw;
ghost use Rattle.async_task.specs.AsyncState.{AsyncState};
ghost use Rattle.async_task.specs.Wanted as fibrils;
ghost use Rattle.naming_service.specs.Naming as naming;
ghost use Rattle.block_server.specs.Blocks as blocks;
ghost use Rattle.program_examples.specs.FiveArguments.{GivesFive, GiveFive, ScriptGivesFive};
ghost use Rattle.program_examples.specs.FiveArguments.{CarriesFive, naming_after, server_after};

/// Each operation of a script that gives arguments gives five, however many its line names.
pub fn scripts_give_five_arguments()
    ensures { (text : List ℕ) (plan : Plan) → SpellsScript text plan → ScriptGivesFive plan }
{}

/// Each message and each answer that a program asks with has five arguments: of a raw program and of
/// fibrils whose operations give five, and of the naming service and a block server, whatever they
/// were told.
pub fn programs_ask_with_five_arguments()
    ensures raw { (p : RawState) → All GivesFive p.ops → CarriesFive (raw.wanted p) }
    ensures fibrils { (a : AsyncState) → GiveFive a.bodies → CarriesFive (fibrils.wanted a) }
    ensures naming { (told : List Outcome) → CarriesFive (naming.wanted (naming_after told)) }
    ensures blocks { (count : ℕ) (service : Option ℕ) (told : List Outcome)
        → CarriesFive (blocks.wanted (server_after count service told)) }
{}
