//! The tables of the naming service and of the block server, row by row.
ghost use Rattle.program_examples.specs.NamingRows.{Registrations, Connections, TaskEnds};
ghost use Rattle.program_examples.specs.NamingRows.{Hangups, OwedWork};
ghost use Rattle.program_examples.specs.BlockRows.{BlockConnections, BlockShares};
ghost use Rattle.program_examples.specs.BlockRows.{BlockTransfers, BlockHangups, BlockRequests};
ghost use Rattle.program_examples.specs.BlockRows.{BlockOutcomes, BlockStart};

/// The naming service does with each call what its row says, and with what it owes.
pub fn the_naming_service_does_by_its_rows()
    ensures registrations { Registrations }
    ensures connections { Connections }
    ensures ends { TaskEnds }
    ensures hangups { Hangups }
    ensures work { OwedWork }
{}

/// A block server does with each call what its row says.
pub fn block_servers_do_by_their_rows()
    ensures connections { BlockConnections }
    ensures shares { BlockShares }
    ensures transfers { BlockTransfers }
    ensures hangups { BlockHangups }
{}

/// A block server asks for each piece of work what its row says, and takes each outcome so.
pub fn block_servers_work_by_their_rows()
    ensures requests { BlockRequests }
    ensures outcomes { BlockOutcomes }
    ensures start { BlockStart }
{}
