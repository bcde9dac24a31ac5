//! Collected output. It is passed on in large pieces.
ghost use Rattle.std.specs.Prelude.{◌≡◌, ◌<◌, IfErr, IfSome, OnOk, length, string_bytes, [], true};
ghost use Rattle.ptdump_engine.specs.declared.failure.Failure.TheVariants as failures;

use crate::destination::Destination;
use crate::failure::Failure;
use std::alloc::{AllocError, Global};
use std::fmt::Display;
use std::marker::{Model, PhantomData};

/// The number of bytes that are collected before they are passed on.
const PIECE: usize = 0x1_0000;

/// A refusal of a destination. There is one only if the destination may refuse.
#[derive(Drop)]
pub struct Refusal<W: Destination> {
    destination: PhantomData<W>,
}

impl<W: Destination> Model for Refusal<W> {
    ghost use Rattle.std.specs.Prelude.{◌≡◌, true};

    ghost Value = { Unit {0} };

    ghost view = { λ _. tt };

    ghost invariant = { λ _. W.may_refuse ≡ true };
}

impl<W: Destination> Refusal<W> {
    /// Returns the refusal for an error of a destination.
    fn of<E: Drop>(_error: E) -> Self
        requires { W.may_refuse ≡ true }
    {
        Refusal {
            destination: PhantomData,
        }
    }

    /// Returns the failure of a run that ends for it.
    pub fn failure(self) -> Failure
        ensures failure { result ≡ failures.Output }
        ensures refused { W.may_refuse ≡ true }
    {
        let Refusal { destination: _ } = self;
        Failure::Output
    }
}

/// The reason why a text wasn't put into an output.
#[derive(Drop)]
pub enum OutputError<W: Destination> {
    /// Memory allocation failed.
    OutOfMemory,
    /// A write failed.
    Write(Refusal<W>),
}

impl<W: Destination> From<AllocError> for OutputError<W> {
    fn from(_error: AllocError) -> OutputError<W> {
        OutputError::OutOfMemory
    }
}

/// A buffer for a writer. Text is passed on in pieces of 64 KiB or more, and the rest at the end.
///
/// The contents of the writer followed by the collected text are all that was put in. The text is a `String`. It is a type
/// parameter so that contracts can identify the borrowed writer once it is returned.
pub struct Output<'a, W: Destination, T: Drop = String> {
    writer: &'a mut W,
    text: T,
}

impl<W: Destination, T: Drop> Drop for Output<'_, W, T> {
    /// Returns the writer as it is. Text that is still collected is lost.
    fn drop(self)
        ensures { self.exit.0.now ≡ self.entry.writer.now }
    {
        let Output {
            writer: _writer,
            text: _,
        } = self;
    }
}

impl<'a, W: Destination> Output<'a, W> {
    /// Creates an output with nothing collected.
    pub fn new(alloc: Global, writer: &'a mut W) -> Self
        ensures writer { result.writer.ghost_name ≡ writer.entry.ghost_name }
        ensures now { result.writer.now ≡ writer.old }
        ensures empty { string_bytes result.text ≡ [] }
    {
        Output {
            writer,
            text: String::new(alloc),
        }
    }
}

impl<W: Destination> Output<'_, W> {
    ghost use Rattle.ptdump_engine.specs.Output.{IsRefusal, Puts};
    ghost use Rattle.ptdump_json.specs.Walks.{line};

    /// Puts a text in. `write!` and `writeln!` call it.
    ///
    /// # Errors
    ///
    /// `OutputError::OutOfMemory` if memory allocation fails, `OutputError::Write` if a write fails.
    pub fn write_fmt<D: Display + Drop>(&mut self, text: D) -> Result<(), OutputError<W>>
        ensures text { OnOk result (IfSome (D.output text) (Puts W.contents self.old self.new)) }
        ensures small { OnOk result (length (string_bytes self.new.text) < 0x1_0000) }
    {
        self.text.write(text)?;
        self.hand_on_pieces()
    }

    /// Puts a text in as a line.
    ///
    /// # Errors
    ///
    /// `OutputError::OutOfMemory` if memory allocation fails, `OutputError::Write` if a write fails.
    pub fn put_line(&mut self, text: &str) -> Result<(), OutputError<W>>
        ensures text { OnOk result (Puts W.contents self.old self.new (line text.now)) }
        ensures small { OnOk result (length (string_bytes self.new.text) < 0x1_0000) }
    {
        self.text.push_str(text)?;
        self.text.push('\n')?;
        self.hand_on_pieces()
    }

    /// Passes the rest on, and flushes the writer.
    ///
    /// # Errors
    ///
    /// `OutputError::Write` if a write fails.
    pub fn finish(&mut self) -> Result<(), OutputError<W>>
        ensures same { OnOk result (Puts W.contents self.old self.new []) }
        ensures all { OnOk result (string_bytes self.new.text ≡ []) }
        ensures passed { OnOk result (W.IsPassedOn self.new.writer.now) }
        ensures refused { IfErr result IsRefusal }
    {
        self.hand_on()?;
        match self.writer.flush() {
            Ok(()) => Ok(()),
            Err(error) => Err(OutputError::Write(Refusal::of(error))),
        }
    }

    /// Passes on the collected text, if that is a piece.
    fn hand_on_pieces(&mut self) -> Result<(), OutputError<W>>
        ensures same { OnOk result (Puts W.contents self.old self.new []) }
        ensures small { OnOk result (length (string_bytes self.new.text) < 0x1_0000) }
    {
        if self.text.len() < PIECE {
            return Ok(());
        }
        self.hand_on()
    }

    /// Passes on the collected text.
    fn hand_on(&mut self) -> Result<(), OutputError<W>>
        ensures same { OnOk result (Puts W.contents self.old self.new []) }
        ensures all { OnOk result (string_bytes self.new.text ≡ []) }
        ensures refused { IfErr result IsRefusal }
    {
        let text = self.text.as_bytes();
        if let Err(error) = self.writer.write_all(text) {
            return Err(OutputError::Write(Refusal::of(error)));
        }
        self.text.clear();
        Ok(())
    }
}
