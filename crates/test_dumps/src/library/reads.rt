//! Tests of reads that fail in the middle of a file.
use crate::prelude::*;
use std::io::{self, ErrorKind};
use test_support::{Memory, Processor, push_core_file};
use x86_64_addr::addr::PhysAddr;
use x86_64_dump::{ByteSource, Dump, DumpError, NoProgress};
use x86_64_page::frame::PhysFrame;

/// A file of which only the first bytes can be read.
#[derive(Drop)]
struct BrokenSource<'a> {
    bytes: &'a [u8],
    readable: u64,
}

impl<'a> ByteSource for BrokenSource<'a> {
    ghost use Rattle.std.specs.Prelude.{length, refl, true, ⊤};

    ghost IsKnown = { ⊤ };

    ghost size = { λ source. length source.bytes.now };

    ghost bytes = { λ source. source.bytes.now };

    ghost may_fail = { true };

    ghost counted = { λ _ _. refl };

    fn len(&self) -> u64 {
        self.bytes.len() as u64
    }

    fn read_exact_at(&self, buffer: &mut [u8], offset: u64) -> io::Result<()> {
        if self.readable < offset.saturating_add(buffer.len() as u64) {
            return Err(io::Error::from(ErrorKind::Other));
        }
        ByteSource::read_exact_at(&self.bytes, buffer, offset)
    }
}

/// The outcome of a call.
#[derive(Clone, Copy, Debug, PartialEq)]
enum Outcome {
    /// It isn't made, since a call before it failed.
    NotMade,
    /// A read failed.
    Failed,
    /// It succeeded.
    Done,
    /// Anything else.
    Other,
}

impl Outcome {
    /// Returns the outcome of a call.
    fn of<T>(call: &Result<T, DumpError>) -> Outcome {
        match call {
            Ok(_) => Outcome::Done,
            Err(DumpError::Read(_)) => Outcome::Failed,
            Err(_) => Outcome::Other,
        }
    }
}

/// Returns the outcomes of opening a file, of reading a frame, the notes, CR3 and CR4, and of searching memory for VMCOREINFO.
fn outcomes(alloc: Global, source: BrokenSource<'_>) -> [Outcome; 6] {
    let mut outcomes = [Outcome::NotMade; 6];
    let opened = Dump::open(alloc, source, None);
    outcomes[0] = Outcome::of(&opened);
    let Ok(dump) = opened else { return outcomes };
    let frame = PhysFrame::containing_address(PhysAddr::new_truncate(0x1000));
    outcomes[1] = match dump.read_frame(frame) {
        Ok(Some(_)) => Outcome::Done,
        Ok(None) => Outcome::Other,
        Err(_) => Outcome::Failed,
    };
    outcomes[5] = Outcome::of(&dump.kernel_texts(alloc, &NoProgress));
    let notes = dump.processors(alloc);
    outcomes[2] = Outcome::of(&notes);
    if let Ok(notes) = notes {
        if let Some(note) = notes.first() {
            outcomes[3] = Outcome::of(&dump.cr3(note));
            outcomes[4] = Outcome::of(&dump.cr4(note));
        }
    }
    outcomes
}

/// The end of the headers: an ELF header and 82 program headers, which are read in two pieces.
const HEADERS: u64 = 64 + 82 * 56;

/// Returns the expected outcomes if this number of bytes can be read.
fn wanted(readable: u64) -> [Outcome; 6] {
    let until = |needed: u64| {
        if readable < needed {
            Outcome::Failed
        } else {
            Outcome::Done
        }
    };
    let notes = until(HEADERS + 17);
    if readable < HEADERS {
        let none = Outcome::NotMade;
        [Outcome::Failed, none, none, none, none, none]
    } else if notes == Outcome::Failed {
        let none = Outcome::NotMade;
        [
            Outcome::Done,
            Outcome::Failed,
            notes,
            none,
            none,
            Outcome::Failed,
        ]
    } else {
        let frame = until(HEADERS + 460 + 4096);
        [
            Outcome::Done,
            frame,
            notes,
            until(HEADERS + 444),
            until(HEADERS + 452),
            frame,
        ]
    }
}

#[test]
fn each_failed_read_is_passed_on(rt: HostRuntime) {
    let mut memory = [Memory {
        address: 0,
        bytes: &[],
    }; 81];
    let frame = [0; 4096];
    memory[80] = Memory {
        address: 0x1000,
        bytes: &frame,
    };
    let mut bytes = Vec::new(rt.alloc());
    let processors = [Processor { cr3: 0, cr4: 0 }];
    unwrap(rt, push_core_file(&mut bytes, &processors, &memory));
    for readable in 0..bytes.len() as u64 + 1 {
        let source = BrokenSource {
            bytes: bytes.as_slice(),
            readable,
        };
        let found = outcomes(rt.alloc(), source);
        assert_equal_in(rt, readable, found, wanted(readable));
    }
}
