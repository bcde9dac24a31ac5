//! Tests of reads and writes that fail.
use crate::prelude::*;
use crate::program::machines::{MIXED, core_file};
use crate::program::runs::{EACH, Ran, Sink, Word, run_into, run_on};
use ptdump_engine::Failure;
use std::cell::Cell;
use std::io::{self, ErrorKind};
use x86_64_dump::ByteSource;

/// A file of which only a number of reads succeed, and none after them.
#[derive(Drop)]
struct BrokenSource<'a> {
    bytes: &'a [u8],
    reads: Cell<u64>,
}

impl<'a> ByteSource for BrokenSource<'a> {
    ghost use Rattle.std.specs.Prelude.{length, refl, true, ⊤};

    ghost IsKnown = { ⊤ };

    ghost size = { λ source. length source.bytes.now };

    ghost bytes = { λ source. source.bytes.now };

    ghost may_fail = { true };

    ghost counted = { λ _ _. refl };

    fn len(&self) -> u64 {
        self.bytes.len() as u64
    }

    fn read_exact_at(&self, buffer: &mut [u8], offset: u64) -> io::Result<()> {
        let Some(left) = self.reads.get().checked_sub(1) else {
            return Err(io::Error::from(ErrorKind::Other));
        };
        self.reads.set(left);
        ByteSource::read_exact_at(&self.bytes, buffer, offset)
    }
}

/// Runs a command on a file of which a number of reads succeed.
fn run_with_reads(
    rt: impl Abort + Copy,
    alloc: Global,
    file: &[u8],
    word: Word,
    reads: u64,
) -> Ran {
    let source = BrokenSource {
        bytes: file,
        reads: Cell::new(reads),
    };
    run_into(
        rt,
        alloc,
        source,
        word,
        Sink::wide(alloc),
        Sink::wide(alloc),
    )
}

/// Runs a command with ever more reads that succeed until it ends well, and returns how many are needed. With fewer of them,
/// the run ends at the read that fails.
fn reads_needed(
    rt: impl Abort + Copy,
    alloc: Global,
    file: &[u8],
    word: Word,
    wanted: &[u8],
) -> u64 {
    for reads in 0..1000 {
        let ran = run_with_reads(rt, alloc, file, word, reads);
        if ran.status() < 2 {
            assert_equal_in(rt, (word, reads), ran.output.bytes.as_slice(), wanted);
            return reads;
        }
        let is_of_read = matches!(ran.ended, Err(Failure::Read(_)));
        assert_equal_in(rt, (word, reads), (ran.status(), is_of_read), (3, true));
    }
    1000
}

#[test]
fn each_failed_read_ends_a_run(rt: HostRuntime) {
    let alloc = rt.alloc();
    let file = unwrap(rt, core_file(alloc, &MIXED));
    for word in EACH {
        let wanted = run_on(rt, alloc, &file, word).output.bytes;
        let needed = reads_needed(rt, alloc, &file, word, &wanted);
        // At least the header, the program headers, the note, three registers and six tables are read.
        assert_equal_in(rt, (word, needed), (12..1000).contains(&needed), true);
    }
}

/// The number of bytes that a writer takes at once if it is to fail later.
const AT_ONCE: usize = 211;

/// Checks that a run ended at a write that failed, and what it wrote until then.
fn check_cut(rt: impl Abort + Copy, word: Word, status: u8, written: &[u8], wanted: &[u8]) {
    assert_equal_in(rt, word, status, 5);
    assert_equal_in(rt, word, written, wanted);
}

/// Runs a command with ever more room in the output, and checks that it ends there, with the output that has room.
fn check_output(rt: impl Abort + Copy, alloc: Global, file: &[u8], word: Word, wanted: &[u8]) {
    for room in (0..wanted.len()).step_by(AT_ONCE) {
        let (narrow, wide) = (Sink::new(alloc, AT_ONCE, room), Sink::wide(alloc));
        let ran = run_into(rt, alloc, file, word, narrow, wide);
        check_cut(rt, word, ran.status(), &ran.output.bytes, &wanted[..room]);
    }
}

/// Runs a command with ever more room in standard error, and checks that it ends there, with the text that has room.
fn check_errors(rt: impl Abort + Copy, alloc: Global, file: &[u8], word: Word, wanted: &[u8]) {
    for room in (0..wanted.len()).step_by(AT_ONCE) {
        let (wide, narrow) = (Sink::wide(alloc), Sink::new(alloc, AT_ONCE, room));
        let ran = run_into(rt, alloc, file, word, wide, narrow);
        check_cut(rt, word, ran.status(), &ran.errors.bytes, &wanted[..room]);
    }
}

/// Checks that two runs of a command ended alike, and wrote the same.
fn check_same(rt: impl Abort + Copy, word: Word, ran: &Ran, wanted: &Ran) {
    assert_equal_in(rt, word, ran.status(), wanted.status());
    let (output, errors) = (ran.output.bytes.as_slice(), ran.errors.bytes.as_slice());
    assert_equal_in(rt, word, output, wanted.output.bytes.as_slice());
    assert_equal_in(rt, word, errors, wanted.errors.bytes.as_slice());
}

/// Runs a command with writers that take one byte at once, and checks that they get all.
fn check_slow(rt: impl Abort + Copy, alloc: Global, file: &[u8], word: Word, whole: &Ran) {
    let (output, errors) = (
        Sink::new(alloc, 1, usize::MAX),
        Sink::new(alloc, 1, usize::MAX),
    );
    let ran = run_into(rt, alloc, file, word, output, errors);
    check_same(rt, word, &ran, whole);
}

#[test]
fn each_failed_write_ends_a_run(rt: HostRuntime) {
    let alloc = rt.alloc();
    let file = unwrap(rt, core_file(alloc, &MIXED));
    for word in EACH {
        let whole = run_on(rt, alloc, &file, word);
        check_output(rt, alloc, &file, word, &whole.output.bytes);
        check_errors(rt, alloc, &file, word, &whole.errors.bytes);
        check_slow(rt, alloc, &file, word, &whole);
    }
}
