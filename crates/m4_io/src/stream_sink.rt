ghost use Rattle.std.specs.Prelude.{◌≡◌, ◌≤◌, ◌<◌, length, None, IfOk};
ghost use Rattle.m4_io.specs.Real.{RealStream};

use crate::{Failed, Sink};
use std::io;
use std::io::{ErrorKind, Write};
use std::marker::Model;

/// A sink over a stream, which is flushed after each write. No clause knows what it holds.
#[derive(Drop)]
pub struct StreamSink<W: Write + Drop> {
    stream: W,
    faults: u64,
}

impl<W: Write + Drop> Model for StreamSink<W> {
    ghost Value = { RealStream };

    ghost view = { λ s. record { faults = s.faults } };
}

impl<W: Write + Drop> StreamSink<W> {
    /// A sink that writes to this stream.
    pub fn new(stream: W) -> StreamSink<W>
        ensures { result ≡ record { faults = 0 } }
    {
        StreamSink { stream, faults: 0 }
    }
}

impl<W: Write + Drop> Sink for StreamSink<W> {
    ghost taken = { λ _. None };

    ghost faults = { λ s. s.faults };

    fn write(&mut self, piece: &[u8]) -> Result<usize, Failed> {
        match write_and_flush(&mut self.stream, piece) {
            Ok(count) => Ok(count),
            Err(_) => {
                self.faults = self.faults.saturating_add(1);
                Err(Failed)
            }
        }
    }
}

// Writes the first bytes of the piece, at least one, and flushes the stream.
fn write_and_flush<W: Write>(stream: &mut W, piece: &[u8]) -> io::Result<usize>
    ensures { IfOk result (λ n. (0 < n) × (n ≤ length piece.now)) }
{
    let count = stream.write(piece)?;
    if count == 0 {
        return Err(io::Error::from(ErrorKind::WriteZero));
    }
    stream.flush()?;
    Ok(count)
}
