//! The lines of the input.
ghost use Rattle.std.specs.Prelude.{◌≡◌, ◌≤◌, ◌<◌, IfOk, IfErr, IfSome, MatchBool, option_map};
ghost use Rattle.std.specs.Io.KnownBytes.{IsAtEnd, Keeps};
ghost use Rattle.std.specs.List.{list_all};
ghost use Rattle.pagetab_engine.specs.Fields.{is_space};
ghost use Rattle.pagetab_engine.specs.Commands.{statement_of};
ghost use Rattle.pagetab_engine.specs.declared.ending.Fault.TheVariants.{BadLine};

use crate::ending::Fault;
use crate::statement::Statement;
use std::io::{self, Read};
use x86_64::{LevelCount, LevelFiveFlags};

/// The maximum number of bytes of a line, without its line feed.
const LONGEST: usize = 256;

/// The number of bytes that are read at once.
const BUFFER: usize = 512;

/// A parser of statements from the lines of a reader, which counts the lines.
#[derive(Drop)]
pub struct Lines<'a, R> {
    reader: &'a mut R,
    buffer: [u8; BUFFER],
    at: usize,
    end: usize,
    number: u64,
    ghost in_buffer: { at ≤ end },
    ghost small: { end ≤ 512 },
}

/// What was read of a line.
enum Line {
    /// The line has this number of bytes.
    Text(usize),
    /// The line has more bytes than are allowed.
    TooLong,
    /// The input has no more lines.
    End,
}

impl<'a, R: Read> Lines<'a, R> {
    ghost use Rattle.pagetab_engine.specs.Lines.{bytes_left};

    /// Starts at the first line.
    pub fn new(reader: &'a mut R) -> Self
        ensures number { result.number ≡ 0 }
        ensures bytes { bytes_left R.remaining result ≡ R.remaining reader.old }
    {
        Lines {
            reader,
            buffer: [0; BUFFER],
            at: 0,
            end: 0,
            number: 0,
        }
    }
}

impl<R: Read> Lines<'_, R> {
    ghost use Rattle.pagetab_engine.specs.Lines.{bytes_left, ExplainsRead, FitsLine, ForSome, IsCounted, IsInput, IsReadFault, MayBeLeft, ReadsLine, ReadsStatement, TakesByte, TracesBack};

    /// Returns the next statement, for a memory with this number of places, or `None` at the end of the input. Empty
    /// lines are skipped.
    ///
    /// # Errors
    ///
    /// `Fault::BadLine` if the line can't be parsed. `Fault::Input` if the reader fails, or has more lines than a
    /// `u64` can count.
    pub fn next_statement<L: LevelCount, P5: LevelFiveFlags<L>>(
        &mut self,
        places: u64,
    ) -> Result<Option<Statement<L, P5>>, Fault>
        ensures next { IfOk result (λ next.
            TracesBack (MayBeLeft R.remaining self.old) (MayBeLeft R.remaining self.new) (λ lines rest.
            ReadsStatement L.LEVELS places lines self.new.number rest
            (option_map (statement_of L.LEVELS P5.bits) next))) }
        ensures counted { IfOk result (λ next. IfSome next (λ _. IsCounted self.old.number self.new.number)) }
        ensures why { IfErr result (λ fault. ForSome (MayBeLeft R.remaining self.old) (λ lines.
            ExplainsRead L.LEVELS places lines fault)) }
        ensures fault { IfErr result (IsReadFault self.new.number) }
    {
        let mut line = [0; LONGEST];
        while let Some(number) = self.number.checked_add(1) {
            self.number = number;
            let text = match self.next_line(&mut line).map_err(|_| Fault::Input)? {
                Line::End => return Ok(None),
                Line::TooLong => return Err(self.fault()),
                Line::Text(length) => &line[..length],
            };
            if is_blank(text) {
                continue;
            }
            return match Statement::parse(text, places) {
                Some(statement) => Ok(Some(statement)),
                None => Err(self.fault()),
            };
        }
        Err(Fault::Input)
    }

    /// Returns the fault that the line read last is bad.
    pub fn fault(&self) -> Fault
        ensures { result ≡ BadLine self.now.number }
    {
        Fault::BadLine(self.number)
    }

    /// Reads the next line into the front of `line`.
    fn next_line(&mut self, line: &mut [u8; LONGEST]) -> io::Result<Line>
        ensures fits { IfOk result FitsLine }
        ensures line { IfOk result (λ told. TracesBack (IsInput (bytes_left R.remaining self.old))
            (IsInput (bytes_left R.remaining self.new)) (λ bytes rest. ReadsLine bytes rest line.new told)) }
        ensures number { self.new.number ≡ self.old.number }
    {
        for length in 0..LONGEST {
            match self.next_byte()? {
                None if length == 0 => return Ok(Line::End),
                None | Some(b'\n') => return Ok(Line::Text(length)),
                Some(byte) => line[length] = byte,
            }
        }
        match self.next_byte()? {
            None | Some(b'\n') => Ok(Line::Text(LONGEST)),
            Some(_) => Ok(Line::TooLong),
        }
    }

    /// Returns the next byte, or `None` at the end of the input.
    fn next_byte(&mut self) -> io::Result<Option<u8>>
        ensures byte { IfOk result (λ next.
            TakesByte (bytes_left R.remaining self.old) (bytes_left R.remaining self.new) next) }
        ensures number { self.new.number ≡ self.old.number }
    {
        if self.at == self.end && !self.fill()? {
            return Ok(None);
        }
        let byte = self.buffer[self.at];
        self.at += 1;
        Ok(Some(byte))
    }

    /// Fills the buffer, which must be used up. Returns `false` at the end of the input.
    fn fill(&mut self) -> io::Result<bool>
        requires { self.old.at ≡ self.old.end }
        ensures bytes { Keeps (bytes_left R.remaining self.old) (bytes_left R.remaining self.new) }
        ensures filled { IfOk result (λ filled.
            MatchBool filled (self.new.at < self.new.end) (IsAtEnd (bytes_left R.remaining self.new))) }
        ensures number { self.new.number ≡ self.old.number }
    {
        self.at = 0;
        self.end = 0;
        self.end = self.reader.read(&mut self.buffer)?;
        Ok(self.end > 0)
    }
}

/// Returns true if a line has only spaces.
fn is_blank(line: &[u8]) -> bool
    ensures { result ≡ list_all is_space line.now }
{
    line.iter().all(|byte| *byte == b' ')
}
