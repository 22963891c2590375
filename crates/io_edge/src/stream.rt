//! Reading to the end and writing whole, over any reader and any writer of std.
ghost use Rattle.std.specs.Prelude.{◌≡◌, ◌≢◌, ◌≤◌, length, take, IfErr, IfOk, IfSome, OnErr, OnOk};
ghost use Rattle.std.specs.Io.KnownBytes.{Appends};
ghost use Rattle.std.specs.declared.io.ErrorKind.TheVariants.{Interrupted};
ghost use Rattle.std.specs.IoError.{error_kind};
ghost use Rattle.io_edge.specs.Edge.{AppendsStart};

use std::alloc::Global;
use std::io;
use std::io::{ErrorKind, Read, Write};

/// Reads to the end, but no more than `most` bytes. A read of 0 bytes is the end; an interrupted
/// read is tried again, and each other fault of a read is returned. Want of memory is the fault of
/// kind `OutOfMemory`.
pub fn read_most<R: Read + Drop>(alloc: Global, reader: R, most: usize) -> io::Result<Vec<u8>>
    ensures bytes { IfOk result (λ bytes.
        IfSome (R.remaining reader) (λ all. bytes.items ≡ take most all)) }
    ensures most { IfOk result (λ bytes. length bytes.items ≤ most) }
    ensures retried { IfErr result (λ e. error_kind e ≢ Interrupted) }
{
    let mut bytes = Vec::new(alloc);
    reader.take(most as u64).read_to_end(&mut bytes)?;
    // It cuts nothing: no clause of std's says so of a reader that tells no bytes.
    bytes.truncate(most);
    Ok(bytes)
}

/// Writes the whole piece, in as many writes as that takes. An interrupted write is tried again;
/// each other fault of a write is returned, and so is a write that takes no byte. A prefix of the
/// piece was written then.
pub fn write_whole<W: Write>(writer: &mut W, piece: &[u8]) -> io::Result<()>
    ensures ok { OnOk result (
        Appends (W.contents writer.old) (W.contents writer.new) piece.now) }
    ensures err { OnErr result (
        AppendsStart (W.contents writer.old) (W.contents writer.new) piece.now) }
    ensures retried { IfErr result (λ e. error_kind e ≢ Interrupted) }
{
    let mut done = 0;
    for _ in 0..u64::MAX {
        if done == piece.len() {
            return Ok(());
        }
        match writer.write(&piece[done..]) {
            Ok(0) => return Err(io::Error::from(ErrorKind::WriteZero)),
            Ok(count) => done += count,
            Err(e) if e.kind() == ErrorKind::Interrupted => {}
            Err(e) => return Err(e),
        }
    }
    Err(io::Error::from(ErrorKind::TimedOut))
}
