//! Standard output, to which reports are written.
ghost use Rattle.std.specs.IoError.{error_kind};
ghost use Rattle.std.specs.Prelude.{◌≡◌, IfErr, IfOk, false, true};

use ptdump_engine::Destination;
use std::io::{ErrorKind, Result, Stdout};

/// Standard output, and whether it is a pipe whose reader has left, as `head` does.
#[derive(Drop)]
pub struct StandardOutput {
    stdout: Stdout,
    has_reader_left: bool,
}

impl StandardOutput {
    /// Creates it before anything is written.
    pub fn new(stdout: Stdout) -> Self
        ensures { result.has_reader_left ≡ false }
    {
        StandardOutput {
            stdout,
            has_reader_left: false,
        }
    }

    /// Returns true if a write failed since the reader has left.
    pub fn has_reader_left(&self) -> bool
        ensures { result ≡ self.now.has_reader_left }
    {
        self.has_reader_left
    }

    /// Notes whether a write failed since the reader has left.
    fn note(&mut self, written: &Result<()>)
        ensures left { IfErr written.now (λ error.
            error_kind error ≡ ErrorKind.BrokenPipe → self.new.has_reader_left ≡ true) }
        ensures other { IfErr written.now (λ error.
            ¬ (error_kind error ≡ ErrorKind.BrokenPipe) → self.new.has_reader_left ≡ false) }
        ensures same { IfOk written.now (λ _. self.new.has_reader_left ≡ self.old.has_reader_left) }
    {
        if let Err(error) = written {
            self.has_reader_left = error.kind() == ErrorKind::BrokenPipe;
        }
    }
}

impl Destination for StandardOutput {
    ghost use Rattle.std.specs.Prelude.{None, true};

    ghost contents = { λ _. None };

    ghost IsPassedOn = { λ _. Unit {0} };

    ghost may_refuse = { true };

    fn write_all(&mut self, bytes: &[u8]) -> Result<()> {
        let written = Destination::write_all(&mut self.stdout, bytes);
        self.note(&written);
        written
    }

    fn flush(&mut self) -> Result<()> {
        Destination::flush(&mut self.stdout)
    }
}
