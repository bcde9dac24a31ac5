//! Runs of the program, and how they end.
use crate::prelude::*;
use ptdump_engine::{
    AreaNames, Checking, Columns, Command, ControlsSource, Destination, Failure, Form, Outcome,
    Progress, Request, Selection, WalkOptions, run,
};
use std::alloc::AllocError;
use std::io::{self, ErrorKind, Write};
use x86_64_access::Controls;
use x86_64_dump::{ByteSource, Placement};

/// The word of a command.
#[derive(Clone, Copy, Debug)]
pub enum Word {
    Regions,
    Pages,
    Walk,
    Find,
    Check,
    Image,
    Picture,
}

/// A processor with all of its protections on.
const CONTROLS: Controls = Controls {
    write_protect: true,
    no_execute: true,
    smep: true,
    smap: true,
    ac: false,
    physical_bits: 52,
    no_1gib_pages: false,
    global_reserved: false,
};

/// The words of all commands.
pub const EACH: [Word; 7] = [
    Word::Regions,
    Word::Pages,
    Word::Walk,
    Word::Find,
    Word::Check,
    Word::Image,
    Word::Picture,
];

impl Word {
    /// Creates the request, with addresses of the machine `MIXED` for the commands that need some, and without options.
    pub fn request(self, alloc: Global) -> Result<Request, AllocError> {
        let command = match self {
            Word::Regions => Command::Regions(Selection::ALL),
            Word::Pages => Command::Pages {
                selection: Selection::ALL,
                has_names: false,
            },
            Word::Walk => Command::Walk {
                addresses: Vec::from_slice(alloc, &[0, 0x2abc])?,
                options: WalkOptions {
                    controls: CONTROLS,
                    source: ControlsSource::Assumed,
                    explains: true,
                    access: None,
                },
            },
            Word::Find => Command::Find(Vec::from_slice(alloc, &[0x8000_0123, 0x3abc])?),
            Word::Check => Command::Check(Checking {
                physical_bits: 52,
                direct_map: None,
                selection: Selection::ALL,
                aliases: false,
            }),
            Word::Image => Command::Image,
            Word::Picture => Command::Picture,
        };
        Ok(Request {
            command,
            form: Form::Text,
            columns: Columns::Plain,
            areas: AreaNames::OfKernel,
            cr3: None,
            vmcoreinfo: None,
            levels: None,
            placement: Placement::Unstated,
            is_raw: false,
            cpu: None,
            all_cpus: false,
        })
    }
}

/// A writer that keeps what is written, with a limit on the bytes that it takes at once and in total.
#[derive(Drop)]
pub struct Sink {
    /// The bytes that were written.
    pub bytes: Vec<u8>,
    /// The greatest number of bytes that it takes at once.
    pub at_once: usize,
    /// The number of bytes that it takes until writes fail.
    pub room: usize,
    /// The number of writes of less than 64 KiB.
    pub small_pieces: usize,
}

impl Sink {
    /// Creates a writer with these limits.
    pub fn new(alloc: Global, at_once: usize, room: usize) -> Sink {
        Sink {
            bytes: Vec::new(alloc),
            at_once,
            room,
            small_pieces: 0,
        }
    }

    /// Creates a writer that takes everything.
    pub fn wide(alloc: Global) -> Sink {
        Sink::new(alloc, usize::MAX, usize::MAX)
    }
}

impl Write for Sink {
    fn write(&mut self, buf: &[u8]) -> io::Result<usize> {
        if buf.len() < 0x1_0000 {
            self.small_pieces = self.small_pieces.saturating_add(1);
        }
        let room = self.room.saturating_sub(self.bytes.len());
        let count = buf.len().min(self.at_once).min(room);
        if room == 0 {
            return Err(io::Error::from(ErrorKind::Other));
        }
        self.bytes.extend_from_slice(&buf[..count])?;
        Ok(count)
    }

    fn flush(&mut self) -> io::Result<()> {
        Ok(())
    }
}

impl Destination for Sink {
    ghost use Rattle.std.specs.Prelude.{None, true};

    ghost contents = { λ _. None };

    ghost IsPassedOn = { λ _. Unit {0} };

    ghost may_refuse = { true };

    fn write_all(&mut self, bytes: &[u8]) -> io::Result<()> {
        Write::write_all(self, bytes)
    }

    fn flush(&mut self) -> io::Result<()> {
        Write::flush(self)
    }
}

/// The output of a run, and how it ended.
#[derive(Drop)]
pub struct Ran {
    pub output: Sink,
    pub errors: Sink,
    pub ended: Result<Outcome, Failure>,
}

impl Ran {
    /// Returns the status with which the program ends.
    pub fn status(&self) -> u8 {
        match &self.ended {
            Ok(outcome) if outcome.is_complete => 0,
            Ok(_) => 1,
            Err(failure) => failure.status(),
        }
    }
}

/// An observer of the tables that are read.
#[derive(Clone, Copy)]
struct Watcher {
    count: usize,
    ends: usize,
    is_in_order: bool,
}

impl Progress for Watcher {
    ghost Told = { λ _ _ _. Unit {0} };

    ghost Ended = { λ _ _. Unit {0} };

    fn tables(&mut self, count: usize) {
        let is_next = count == self.count.saturating_add(1);
        self.is_in_order = self.is_in_order && is_next && self.ends == 0;
        self.count = count;
    }

    fn end(&mut self) {
        self.ends = self.ends.saturating_add(1);
    }

    fn searched(&self, _end: u64) {}

    fn search_ended(&self) {}

    ghost none = { λ _. tt };

    ghost both = { λ _ _ _ _ _ _ _. tt };
}

/// Returns bytes as text.
pub fn text_of<'a>(rt: impl Abort + Copy, bytes: &'a [u8]) -> &'a str {
    unwrap(rt, str::from_utf8(bytes))
}

/// Asserts that standard error tells this number of tables.
fn assert_told(rt: impl Abort + Copy, alloc: Global, errors: &[u8], tables: usize) {
    let told = unwrap(rt, format!(in alloc; "tables {tables}, "));
    let is_told = text_of(rt, errors).contains(&told);
    assert_equal_in(rt, tables, is_told, true);
}

/// Runs the program with these writers, and compares the observed number of tables with the reported one.
pub fn run_into<S: ByteSource>(
    rt: impl Abort + Copy,
    alloc: Global,
    source: S,
    word: Word,
    mut output: Sink,
    mut errors: Sink,
) -> Ran {
    let request = unwrap(rt, word.request(alloc));
    let mut watcher = Watcher {
        count: 0,
        ends: 0,
        is_in_order: true,
    };
    let ended = run(
        alloc,
        source,
        request,
        &mut output,
        &mut errors,
        &mut watcher,
    );
    assert_equal_in(rt, word, watcher.is_in_order, true);
    if ended.is_ok() {
        assert_equal_in(rt, word, watcher.ends, 1);
        assert_told(rt, alloc, &errors.bytes, watcher.count);
    }
    Ran {
        output,
        errors,
        ended,
    }
}

/// Runs the program with writers that take everything.
pub fn run_on(rt: impl Abort + Copy, alloc: Global, file: &[u8], word: Word) -> Ran {
    run_into(rt, alloc, file, word, Sink::wide(alloc), Sink::wide(alloc))
}
