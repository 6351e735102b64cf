//! The adapters over standard input and output: the trusted edge. They tell no content, and count each failure.
ghost use Rattle.std.specs.Prelude.{◌≡◌, None, false};

use nm_script::{Failed, Sink, Source};
use std::io::{ErrorKind, Read, Write};

/// A source over a reader, such as standard input.
#[derive(Drop)]
pub struct StandardInput<R: Read> {
    reader: R,
    ended: bool,
    faults: u64,
}

impl<R: Read> StandardInput<R> {
    /// Over a reader that has not given its end.
    pub fn new(reader: R) -> StandardInput<R>
        ensures ended { ⟦<StandardInput<R> as Source>⟧.ended result ≡ false }
        ensures faults { ⟦<StandardInput<R> as Source>⟧.faults result ≡ 0 }
    {
        StandardInput {
            reader,
            ended: false,
            faults: 0,
        }
    }
}

impl<R: Read> Source for StandardInput<R> {
    ghost left = { λ s. None };

    ghost ended = { λ s. s.ended };

    ghost faults = { λ s. s.faults };

    fn read(&mut self, buf: &mut [u8]) -> Result<usize, Failed> {
        match self.reader.read(buf) {
            Ok(n) => {
                if n == 0 && !buf.is_empty() {
                    self.ended = true;
                }
                Ok(n)
            }
            Err(_) => {
                self.faults = self.faults.saturating_add(1);
                Err(Failed)
            }
        }
    }
}

/// A sink over a writer, such as standard output.
#[derive(Drop)]
pub struct StandardOutput<W: Write> {
    writer: W,
    faults: u64,
}

impl<W: Write> StandardOutput<W> {
    /// Over a writer.
    pub fn new(writer: W) -> StandardOutput<W>
        ensures { ⟦<StandardOutput<W> as Sink>⟧.faults result ≡ 0 }
    {
        StandardOutput { writer, faults: 0 }
    }
}

impl<W: Write> Sink for StandardOutput<W> {
    ghost held = { λ s. None };

    ghost faults = { λ s. s.faults };

    fn write(&mut self, bytes: &[u8]) -> Result<usize, Failed> {
        match self.writer.write(bytes) {
            Ok(n) if n > 0 || bytes.is_empty() => Ok(n),
            _ => {
                self.faults = self.faults.saturating_add(1);
                Err(Failed)
            }
        }
    }
}
