//! The statements that lines write.
ghost use Rattle.std.specs.Prelude.{◌≡◌, option_map};
ghost use Rattle.pagetab_engine.specs.Commands.{statement_of};
ghost use Rattle.pagetab_engine.specs.Statements.{plain_in, statement_by, statement_of_fields};

use crate::fields::{Fields, Name, Size};
use crate::page_call::{page_at, parse_call};
use crate::slot::{Slot, frame_at, slot_at};
use x86_64::structures::paging::{PageIn, PhysFrame, Size4KiB};
use x86_64::{CallIn, LevelCount, LevelFiveFlags, VirtAddrIn};

/// A question about the hierarchy, or a call on it.
#[derive(Clone, Copy)]
pub enum Command<L: LevelCount, P5: Copy> {
    /// A call of the mapper: `translate ADDR`, `addr ADDR`, `cleanup`, `cleanup-range FIRST LAST`, or a command on a
    /// page of a size.
    Call(CallIn<L, P5>),
    /// `walk ADDR`: where the page walk arrives.
    Walk(VirtAddrIn<L>),
    /// `show FRAME INDEX`: the word in the slot.
    Show(Slot),
    /// `pool`: the free frames.
    Pool,
}

/// A part of the image.
#[derive(Clone, Copy)]
pub enum ImageLine {
    /// `word FRAME INDEX VALUE`: the slot has the value.
    Word { slot: Slot, value: u64 },
    /// `free FRAME`: the frame is one of the free ones.
    Free(PhysFrame<Size4KiB>),
}

/// The statement of a line.
#[derive(Clone, Copy)]
pub enum Statement<L: LevelCount, P5: Copy> {
    /// A line of the image.
    Image(ImageLine),
    /// A command.
    Command(Command<L, P5>),
}

impl<L: LevelCount, P5: LevelFiveFlags<L>> Statement<L, P5> {
    /// Parses a line without its line feed, for a memory with this number of places. Returns `None` if and only if
    /// the line is no statement.
    pub fn parse(line: &[u8], places: u64) -> Option<Self>
        ensures { option_map (statement_of L.LEVELS P5.bits) result
            ≡ statement_of_fields L.LEVELS places line.now }
    {
        let fields = Fields::parse(str::from_utf8(line).ok()?)?;
        Self::from_fields(fields.name, fields.size, fields.numbers(), places)
    }

    /// Returns the statement that fields write, or `None` if there is none.
    fn from_fields(name: Name, size: Option<Size>, numbers: &[u64], places: u64) -> Option<Self>
        ensures { option_map (statement_of L.LEVELS P5.bits) result
            ≡ statement_by L.LEVELS places name size numbers.now }
    {
        match size {
            Some(size) => {
                let call = parse_call(name, size, numbers)?;
                Some(Statement::Command(Command::Call(call)))
            }
            None => Self::from_plain_fields(name, numbers, places),
        }
    }

    /// The part of [`from_fields`](Self::from_fields) for lines without SIZE.
    fn from_plain_fields(name: Name, numbers: &[u64], places: u64) -> Option<Self>
        ensures { option_map (statement_of L.LEVELS P5.bits) result
            ≡ plain_in L.LEVELS places name numbers.now }
    {
        match (name, numbers) {
            (Name::Word, [frame, index, value]) => Some(Statement::Image(ImageLine::Word {
                slot: slot_at(*frame, *index, places)?,
                value: *value,
            })),
            (Name::Free, [frame]) => {
                let frame = frame_at(*frame, places)?;
                Some(Statement::Image(ImageLine::Free(frame)))
            }
            (Name::Show, [frame, index]) => {
                let slot = slot_at(*frame, *index, places)?;
                Some(Statement::Command(Command::Show(slot)))
            }
            (Name::Pool, []) => Some(Statement::Command(Command::Pool)),
            (Name::Walk, [addr]) => {
                let addr = VirtAddrIn::checked_new(*addr)?;
                Some(Statement::Command(Command::Walk(addr)))
            }
            (Name::Translate, [addr]) => {
                let addr = VirtAddrIn::checked_new(*addr)?;
                Some(Statement::Command(Command::Call(CallIn::Translate(addr))))
            }
            (Name::Addr, [addr]) => {
                let addr = VirtAddrIn::checked_new(*addr)?;
                Some(Statement::Command(Command::Call(CallIn::TranslateAddr(addr))))
            }
            (Name::CleanUp, []) => Some(Statement::Command(Command::Call(CallIn::CleanUp))),
            (Name::CleanUpRange, [first, last]) => {
                let range = PageIn::range_inclusive(page_at(*first)?, page_at(*last)?);
                Some(Statement::Command(Command::Call(CallIn::CleanUpRange(range))))
            }
            _ => None,
        }
    }
}
