//! Tables that were read before.
ghost use Rattle.std.specs.Prelude.{◌≡◌, None, ℕ, OnOk, IfErr};
ghost use Rattle.std.specs.Option.{option_copied};
ghost use Rattle.x86_64_dump.specs.Dump.{words_of_dump};
ghost use Rattle.x86_64_dump.specs.Opened.{opened};
ghost use Rattle.x86_64_dump.specs.Loaded.{MayFail};
ghost use Rattle.x86_64_dump.specs.private.TablesRead.{words_read, AreOf};

use crate::{ByteSource, Dump, DumpError};
use std::alloc::Global;
use std::collections::HashMap;
use x86_64_page::frame::PhysFrame;
use x86_64_page::page::Size4KiB;
use x86_64_tables::page_table::PageTable;

/// Tables that were read from a dump, by the addresses of their frames.
#[derive(Drop)]
pub struct TablesRead {
    tables: HashMap<u64, Box<PageTable>>,
}

impl TablesRead {
    /// Creates the tables before any is read.
    pub fn new(alloc: Global) -> TablesRead
        ensures { (frame : ℕ) → words_read result frame ≡ None }
    {
        TablesRead {
            tables: HashMap::new(alloc),
        }
    }

    /// Returns the table in a frame, if it was read.
    pub fn table(&self, frame: PhysFrame<Size4KiB>) -> Option<&PageTable>
        ensures { option_copied result ≡ words_read self.now frame }
    {
        let table = self.tables.get(&frame.start_address().as_u64())?;
        Some(&**table)
    }

    /// Reads the table in a frame, unless it was read before or the dump lacks it.
    pub fn read<S: ByteSource>(
        &mut self,
        alloc: Global,
        dump: &Dump<S>,
        frame: PhysFrame<Size4KiB>,
    ) -> Result<(), DumpError>
        ensures read { S.IsKnown → AreOf (words_of_dump (opened S.bytes dump.now)) self.old → OnOk result (
            words_read self.new frame ≡ words_of_dump (opened S.bytes dump.now) frame) }
        ensures kept { S.IsKnown → AreOf (words_of_dump (opened S.bytes dump.now)) self.old → OnOk result (
            AreOf (words_of_dump (opened S.bytes dump.now)) self.new) }
        ensures errors { IfErr result (MayFail S.may_fail) }
    {
        if self.table(frame).is_some() {
            return Ok(());
        }
        let mut table = PageTable::new();
        if dump.read_table(frame, &mut table)? {
            let table = Box::new(alloc, table)?;
            self.tables.insert(frame.start_address().as_u64(), table)?;
        }
        Ok(())
    }
}
