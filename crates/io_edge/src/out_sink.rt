//! A sink over any writer of std, as standard output. It tells what its writer tells.
ghost use Rattle.std.specs.Prelude.{◌≡◌};

use crate::{PutFailed, Sink, write_whole};
use std::io::Write;
use std::marker::Model;

/// A sink that counts the pieces that its writer did not take whole.
#[derive(Drop)]
pub struct OutSink<W: Write> {
    out: W,
    faults: u64,
}

impl<W: Write> Model for OutSink<W> {
    ghost use Rattle.io_edge.specs.Output.{Output};

    ghost Value = { Output };

    ghost view = { λ sink. record { contents = W.contents sink.out; faults = sink.faults } };
}

impl<W: Write> OutSink<W> {
    /// A sink over this writer, before any put.
    pub fn new(out: W) -> OutSink<W>
        ensures { result ≡ record { contents = W.contents out; faults = 0 } }
    {
        OutSink { out, faults: 0 }
    }
}

impl<W: Write> Sink for OutSink<W> {
    ghost written = { λ sink. sink.contents };

    ghost faults = { λ sink. sink.faults };

    fn put(&mut self, piece: &[u8]) -> Result<(), PutFailed> {
        let faults = self.faults;
        match write_whole(&mut self.out, piece) {
            Ok(()) => Ok(()),
            Err(_) => {
                self.faults = faults.saturating_add(1);
                Err(PutFailed)
            }
        }
    }
}
