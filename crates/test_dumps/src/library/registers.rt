//! Tests of the registers in notes, of which `ptdump` shows a few bits.
use crate::prelude::*;
use test_support::{CR0, Memory, Processor, push_core_file};
use x86_64_dump::{Dump, DumpError};

/// The processors of a machine.
static PROCESSORS: [Processor; 2] = [
    Processor {
        cr3: 0x8000_0000_0000_1018,
        cr4: 0x20,
    },
    Processor {
        cr3: 0x0123_4567_89ab_cdef,
        cr4: 0xfedc_ba98_7654_3210,
    },
];

/// Compares a register.
fn check(rt: impl Abort + Copy, read: Result<u64, DumpError>, wanted: u64) {
    assert_equal(rt, unwrap(rt, read), wanted);
}

/// Compares the registers in the notes of a core file.
fn check_registers(rt: impl Abort + Copy, alloc: Global, file: &[u8]) {
    let dump = unwrap(rt, Dump::open(alloc, file, None));
    let notes = unwrap(rt, dump.processors(alloc));
    assert_equal(rt, notes.len(), PROCESSORS.len());
    for (note, processor) in notes.iter().zip(PROCESSORS.iter()) {
        check(rt, dump.cr0(note), CR0);
        check(rt, dump.cr3(note), processor.cr3);
        check(rt, dump.cr4(note), processor.cr4);
    }
}

#[test]
fn registers_are_read_whole(rt: HostRuntime) {
    let memory = Memory {
        address: 0,
        bytes: &[],
    };
    let mut bytes = Vec::new(rt.alloc());
    unwrap(rt, push_core_file(&mut bytes, &PROCESSORS, &[memory]));
    check_registers(rt, rt.alloc(), &bytes);
}
