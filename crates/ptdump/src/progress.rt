//! The progress of searching memory and of reading tables, shown on a terminal.
ghost use Rattle.std.specs.Prelude.{◌≡◌, false};

use ptdump_engine::Progress;

/// The number of tables between two updates.
const STEP: usize = 4096;

/// The number of mebibytes between two updates.
const SEARCH_STEP: u64 = 64;

/// A line on a terminal with how much was searched, or with the number of tables that have been read.
#[derive(Drop)]
pub struct ProgressLine<'a, R: Eprint> {
    rt: &'a R,
    is_terminal: bool,
    is_shown: bool,
}

impl<'a, R: Eprint> ProgressLine<'a, R> {
    /// Creates a line that shows nothing yet, and never does if standard error isn't a terminal.
    pub fn new(rt: &'a R, is_terminal: bool) -> Self
        ensures terminal { result.is_terminal ≡ is_terminal }
        ensures shown { result.is_shown ≡ false }
    {
        ProgressLine {
            rt,
            is_terminal,
            is_shown: false,
        }
    }
}

impl<R: Eprint> Progress for ProgressLine<'_, R> {
    ghost Told = { λ _ _ _. Unit {0} };

    ghost Ended = { λ _ _. Unit {0} };

    fn tables(&mut self, count: usize) {
        if self.is_terminal && count % STEP == 0 {
            // if the terminal fails, only the progress is missing: the report is unaffected
            let _ = eprint!(self.rt; "\rtables read: {count}");
            self.is_shown = true;
        }
    }

    fn end(&mut self) {
        if self.is_shown {
            let _ = eprint!(self.rt; "\r{:30}\r", "");
            self.is_shown = false;
        }
    }

    fn searched(&self, end: u64) {
        let mebibytes = end >> 20;
        if self.is_terminal && mebibytes % SEARCH_STEP == 0 {
            let _ = eprint!(self.rt; "\rsearched for VMCOREINFO: {mebibytes} MiB");
        }
    }

    fn search_ended(&self) {
        if self.is_terminal {
            let _ = eprint!(self.rt; "\r{:50}\r", "");
        }
    }

    ghost none = { λ _. tt };

    ghost both = { λ _ _ _ _ _ _ _. tt };
}
