//! Images of page tables for `pagetab`.
ghost use Rattle.std.specs.Prelude.{◌≡◌, ◌+◌, ◌*◌, ◌^◌, ◌<◌, false, IfErr};
ghost use Rattle.x86_64_dump.specs.Loaded.{MayFail};
ghost use Rattle.x86_64_model.specs.Entry.{flags};

mod report;
mod words;

use crate::findings::entry::{Entry, Slot, Table};
pub use report::{ReportEnd, Row};
use std::alloc::{AllocError, Global};
use std::collections::HashMap;
pub use words::{Refusals, WordLines};
use x86_64_addr::addr::PhysAddr;
use x86_64_dump::{ByteSource, Dump, DumpError};
use x86_64_page::frame::PhysFrame;
use x86_64_page::page::{PageSize, Size4KiB};

/// The greatest number of places, indices of tables in memory, that `pagetab` takes. The tables of an image begin at the second
/// place.
const MOST_PLACES: usize = 65536;

/// How a frame was first met as a table.
#[derive(Clone, Copy)]
struct Meeting {
    /// The slot of the first entry that names it, or `None` for the root, which is met before any entry.
    first: Option<Slot>,
    /// Whether the dump has it.
    is_in_dump: bool,
    /// The number of tables met before it, only those in the dump if it is in the dump, and only those outside if not.
    number: usize,
}

/// The reason why `pagetab` refuses an image with an entry that names a table.
#[derive(Clone, Copy)]
enum Fault {
    /// It names the root, and is in another table.
    NamesRoot,
    /// It is a second entry of the root that names the root.
    NamesRootAgain,
    /// Another entry named the table before.
    NamedBefore,
    /// The dump lacks the table.
    Outside,
}

/// The tables that a root leads to in a dump, each once, level by level in the order in which they are met.
///
/// An entry above level three with `HUGE_PAGE` leads to the table that it names, too, although the processor doesn't go on
/// there.
///
/// Tables get new addresses, 0x1000 for the root and the following frames for the others. Tables that the dump lacks come after
/// all others. Nothing is repaired: an image is created even if `pagetab` refuses it.
#[derive(Drop)]
pub struct Image {
    root: PhysFrame<Size4KiB>,
    levels: u64,
    tables: Vec<Table>,
    outside: Vec<Table>,
    meetings: HashMap<PhysFrame<Size4KiB>, Meeting>,
    self_entry: Option<usize>,
    left_out: u64,
    has_faults: bool,
}

impl Image {
    ghost use Rattle.ptdump_check.specs.Entries.{entry_names_table};

    /// Finds the tables that a root leads to, with this number of levels.
    ///
    /// # Errors
    ///
    /// `DumpError::OutOfMemory` if memory allocation fails, `DumpError::Read` if the dump can't be read.
    pub fn read<S: ByteSource>(
        alloc: Global,
        dump: &Dump<S>,
        root: PhysFrame<Size4KiB>,
        levels: u64,
    ) -> Result<Image, DumpError>
        ensures { IfErr result (MayFail S.may_fail) }
    {
        let mut image = Image::new(alloc, root, levels)?;
        let mut current = Vec::new(alloc);
        current.extend_from_slice(&image.tables)?;
        for below in (1..levels).rev() {
            let mut next = Vec::new(alloc);
            for table in &current {
                image.follow(dump, table, below, &mut next)?;
            }
            current = next;
        }
        Ok(image)
    }

    /// Creates the image that has only the root.
    fn new(alloc: Global, root: PhysFrame<Size4KiB>, levels: u64) -> Result<Image, AllocError> {
        let mut meetings = HashMap::new(alloc);
        let meeting = Meeting {
            first: None,
            is_in_dump: true,
            number: 0,
        };
        meetings.insert(root, meeting)?;
        let mut tables = Vec::new(alloc);
        tables.push(Table {
            frame: root,
            level: levels,
        })?;
        Ok(Image {
            root,
            levels,
            tables,
            outside: Vec::new(alloc),
            meetings,
            self_entry: None,
            left_out: 0,
            has_faults: false,
        })
    }

    /// Visits the entries of a table, and adds the new tables of the level below to the image and to `next`.
    fn follow<S: ByteSource>(
        &mut self,
        dump: &Dump<S>,
        table: &Table,
        below: u64,
        next: &mut Vec<Table>,
    ) -> Result<(), DumpError>
        ensures { IfErr result (MayFail S.may_fail) }
    {
        let Some(words) = dump.read_frame(table.frame)? else {
            return Ok(());
        };
        for (index, word) in words.iter().enumerate() {
            let entry = Entry::new(table, index, *word);
            if entry.is_left_out() {
                self.left_out = self.left_out.saturating_add(1);
            } else if entry.names_table() {
                self.meet(dump, &entry, below, next)?;
            }
        }
        Ok(())
    }

    /// Records that an entry names a table of a level, and adds the table if it is new.
    fn meet<S: ByteSource>(
        &mut self,
        dump: &Dump<S>,
        entry: &Entry,
        level: u64,
        next: &mut Vec<Table>,
    ) -> Result<(), AllocError> {
        let frame = entry.frame();
        if frame == self.root && frame == entry.slot.table {
            self.self_entry = self.self_entry.or(Some(entry.slot.index));
        }
        if !self.meetings.contains_key(&frame) {
            let first = Some(entry.slot);
            if dump.has_frame(frame) {
                let number = self.tables.len();
                self.note(frame, first, true, number)?;
                self.tables.push(Table { frame, level })?;
                next.push(Table { frame, level })?;
            } else {
                let number = self.outside.len();
                self.note(frame, first, false, number)?;
                self.outside.push(Table { frame, level })?;
            }
        }
        self.has_faults |= entry.is_huge_above() || self.fault_of(entry).is_some();
        Ok(())
    }

    /// Records how the table in a frame is met.
    fn note(
        &mut self,
        frame: PhysFrame<Size4KiB>,
        first: Option<Slot>,
        is_in_dump: bool,
        number: usize,
    ) -> Result<(), AllocError> {
        let meeting = Meeting {
            first,
            is_in_dump,
            number,
        };
        self.meetings.insert(frame, meeting)?;
        Ok(())
    }

    /// Returns the tables that the dump has, in order.
    pub fn tables(&self) -> &[Table] {
        &self.tables
    }

    /// Returns the tables that are named although the dump lacks them, in order.
    pub fn outside(&self) -> &[Table] {
        &self.outside
    }

    /// Returns the number of words above level one that aren't 0 and lack `PRESENT`. The image leaves them out.
    pub fn left_out(&self) -> u64 {
        self.left_out
    }

    /// Returns true if `pagetab` refuses the image.
    pub fn is_refused(&self) -> bool {
        self.has_faults || self.places() > MOST_PLACES
    }

    /// Returns the lines of the image for a table with these words.
    pub fn word_lines<'a>(&'a self, table: &'a Table, words: &'a [u64]) -> WordLines<'a> {
        WordLines::new(self, table, words)
    }

    /// Returns why `pagetab` refuses entries of a table with these words.
    pub fn refusals<'a>(&'a self, table: &'a Table, words: &'a [u64]) -> Refusals<'a> {
        Refusals::new(self, table, words)
    }

    /// Returns the line of the report for a table.
    pub fn row<'a>(&'a self, table: &'a Table) -> Row<'a> {
        Row::new(self, table)
    }

    /// Returns the end of the report.
    pub fn report_end(&self) -> ReportEnd<'_> {
        ReportEnd::new(self)
    }

    /// Returns the number of places that the image needs.
    fn places(&self) -> usize {
        self.tables.len().saturating_add(1)
    }

    /// Returns the new frame of the table in a frame, or `None` if the image has no table there.
    fn new_frame(&self, frame: PhysFrame<Size4KiB>) -> Option<PhysFrame<Size4KiB>> {
        let meeting = self.meetings.get(&frame)?;
        let before = if meeting.is_in_dump {
            0
        } else {
            self.tables.len()
        };
        Some(nth_frame(before.saturating_add(meeting.number)))
    }

    /// Returns the new address of a table. A table that isn't in the image keeps its address.
    fn new_address(&self, table: &Table) -> u64 {
        let frame = self.new_frame(table.frame).unwrap_or(table.frame);
        frame.start_address().as_u64()
    }

    /// Returns the word of an entry, with the new address if it names a table.
    fn renamed(&self, entry: &Entry) -> u64
        ensures flags { flags result ≡ flags entry.now.word }
        ensures others { entry_names_table entry.now ≡ false → result ≡ entry.now.word }
    {
        if !entry.names_table() {
            return entry.word;
        }
        match self.new_frame(entry.frame()) {
            Some(frame) => entry.renamed(frame),
            None => entry.word,
        }
    }

    /// Returns why `pagetab` refuses the table that an entry names, or `None` if it doesn't.
    fn fault_of(&self, entry: &Entry) -> Option<Fault> {
        let meeting = self.meetings.get(&entry.frame())?;
        match meeting.first {
            None => self.fault_of_root_name(entry.slot),
            Some(first) if first != entry.slot => Some(Fault::NamedBefore),
            Some(_) if !meeting.is_in_dump => Some(Fault::Outside),
            Some(_) => None,
        }
    }

    /// Returns why `pagetab` refuses an entry that names the root, or `None` if it is the first such entry of the root itself.
    fn fault_of_root_name(&self, slot: Slot) -> Option<Fault> {
        if slot.table != self.root {
            Some(Fault::NamesRoot)
        } else if self.self_entry != Some(slot.index) {
            Some(Fault::NamesRootAgain)
        } else {
            None
        }
    }
}

/// Returns the new frame of the `n`-th table, counted from 0. There are fewer than 2^40 frames.
fn nth_frame(n: usize) -> PhysFrame<Size4KiB>
    ensures { n + 1 < 2 ^ 40 → result ≡ 4096 * (n + 1) }
{
    let address = (n as u64).wrapping_add(1).wrapping_mul(Size4KiB::SIZE);
    PhysFrame::containing_address(PhysAddr::new_truncate(address))
}
