//! What reports are written to.
ghost use Rattle.std.specs.Prelude.{◌≡◌, Bool, List, ℕ, Option, true, OnOk, IfErr};
ghost use Rattle.std.specs.Io.KnownBytes.{Appends, Keeps};

use std::io::{Result, Stderr, Stdout, Write};

/// A destination of text, which may refuse it.
///
/// A run fails by a write only if one of its destinations may refuse, for whichever destinations it is called: so each failed
/// write that it reports is one that a destination refused.
pub trait Destination {
    /// The bytes that were written, if they are known.
    ghost contents: { Self → Option (List ℕ) };

    /// That it keeps back nothing of what was written.
    ghost IsPassedOn: { Self → Type 0 };

    /// Whether it may refuse a write.
    ghost may_refuse: { Bool };

    /// Writes all bytes.
    ///
    /// # Errors
    ///
    /// The reason why the destination refuses them.
    fn write_all(&mut self, bytes: &[u8]) -> Result<()>
        ensures bytes { OnOk result (Appends (contents self.old) (contents self.new) bytes.now) }
        ensures refused { IfErr result (λ _. may_refuse ≡ true) };

    /// Passes on what was kept back.
    ///
    /// # Errors
    ///
    /// The reason why the destination refuses it.
    fn flush(&mut self) -> Result<()>
        ensures bytes { OnOk result (Keeps (contents self.old) (contents self.new)) }
        ensures passed { OnOk result (IsPassedOn self.new) }
        ensures refused { IfErr result (λ _. may_refuse ≡ true) };
}

impl Destination for Stdout {
    ghost use Rattle.std.specs.Prelude.{None, true};

    ghost contents = { λ _. None };

    ghost IsPassedOn = { λ _. Unit {0} };

    ghost may_refuse = { true };

    fn write_all(&mut self, bytes: &[u8]) -> Result<()> {
        Write::write_all(self, bytes)
    }

    fn flush(&mut self) -> Result<()> {
        Write::flush(self)
    }
}

impl Destination for Stderr {
    ghost use Rattle.std.specs.Prelude.{None, true};

    ghost contents = { λ _. None };

    ghost IsPassedOn = { λ _. Unit {0} };

    ghost may_refuse = { true };

    fn write_all(&mut self, bytes: &[u8]) -> Result<()> {
        Write::write_all(self, bytes)
    }

    fn flush(&mut self) -> Result<()> {
        Write::flush(self)
    }
}

/// All bytes are kept in memory. A write is refused if memory allocation fails.
impl Destination for Vec<u8> {
    ghost use Rattle.std.specs.Prelude.{Some, true};

    ghost contents = { λ bytes. Some bytes.items };

    ghost IsPassedOn = { λ _. Unit {0} };

    ghost may_refuse = { true };

    fn write_all(&mut self, bytes: &[u8]) -> Result<()> {
        self.extend_from_slice(bytes)?;
        Ok(())
    }

    fn flush(&mut self) -> Result<()> {
        Ok(())
    }
}
