//! Readers and writers, of which no clause tells the content, counted where they fail.

ghost use Rattle.std.specs.Prelude.{◌≡◌, None};

use ftp_base::{Failed, Sink, Source};
use std::io::{Read, Write};

/// What a reader gives, as a source.
#[derive(Drop)]
pub struct Input<R> {
    reader: R,
    faults: u64,
}

impl<R> Input<R> {
    /// The reader, which has not failed yet.
    pub fn new(reader: R) -> Input<R>
        ensures faults { result.faults ≡ 0 }
    {
        Input { reader, faults: 0 }
    }
}

impl<R: Read> Source for Input<R> {
    ghost left = { λ _. None };

    ghost faults = { λ s. s.faults };

    fn read(&mut self, out: &mut [u8]) -> Result<usize, Failed> {
        match self.reader.read(out) {
            Ok(n) => Ok(n),
            Err(_) => {
                self.faults = self.faults.saturating_add(1);
                Err(Failed::Fault)
            }
        }
    }
}

/// What a writer takes, as a sink. A writer that takes nothing has failed.
#[derive(Drop)]
pub struct Output<W> {
    writer: W,
    faults: u64,
}

impl<W> Output<W> {
    /// The writer, which has not failed yet.
    pub fn new(writer: W) -> Output<W>
        ensures faults { result.faults ≡ 0 }
    {
        Output { writer, faults: 0 }
    }
}

impl<W: Write> Sink for Output<W> {
    ghost written = { λ _. None };

    ghost faults = { λ s. s.faults };

    // # Proved
    //
    // - Standard output takes at least a byte where there is one (`some`).
    fn write(&mut self, bytes: &[u8]) -> Result<usize, Failed> {
        match self.writer.write(bytes) {
            Ok(n) if n > 0 || bytes.is_empty() => Ok(n),
            Ok(_) | Err(_) => {
                self.faults = self.faults.saturating_add(1);
                Err(Failed::Fault)
            }
        }
    }
}
