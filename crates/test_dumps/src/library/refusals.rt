//! Tests in which memory allocation fails. They fill the address space.
use crate::prelude::*;
use test_support::{Hoard, Memory, Processor, push_core_file};
use x86_64_dump::{ByteSource, Dump, DumpError};

/// Blocks that have room: none, or the first growth of a list of five segments or of five notes, which grows twice.
const ROOMS: [&[usize]; 2] = [&[], &[4 * 32]];

/// Returns true if memory allocation failed.
fn is_refused<T: Drop>(call: Result<T, DumpError>) -> bool {
    matches!(call, Err(DumpError::OutOfMemory))
}

/// Refuses memory to opening a file, but for each of the rooms.
fn refuse_to_open(rt: impl Abort + Copy, alloc: Global, file: &[u8]) {
    for room in ROOMS {
        let hoard = unwrap(rt, Hoard::past(alloc, room));
        let refused = is_refused(Dump::open(alloc, file, None));
        drop(hoard);
        assert_equal_in(rt, room, refused, true);
    }
}

/// Refuses memory to the list of processors, but for each of the rooms.
fn refuse_to_list<S: ByteSource>(rt: impl Abort + Copy, alloc: Global, dump: &Dump<S>) {
    for room in ROOMS {
        let hoard = unwrap(rt, Hoard::past(alloc, room));
        let refused = is_refused(dump.processors(alloc));
        drop(hoard);
        assert_equal_in(rt, room, refused, true);
    }
}

#[test]
fn each_growth_may_be_refused(rt: HostRuntime) {
    let processors = [Processor { cr3: 1, cr4: 2 }; 5];
    let memory = [Memory {
        address: 0,
        bytes: &[],
    }; 4];
    let mut bytes = Vec::new(rt.alloc());
    unwrap(rt, push_core_file(&mut bytes, &processors, &memory));
    refuse_to_open(rt, rt.alloc(), &bytes);
    let dump = unwrap(rt, Dump::open(rt.alloc(), bytes.as_slice(), None));
    refuse_to_list(rt, rt.alloc(), &dump);
    assert_equal(rt, dump.processors(rt.alloc()).is_ok(), true);
}

#[test]
fn the_segment_of_a_raw_file_may_be_refused(rt: HostRuntime) {
    let hoard = unwrap(rt, Hoard::past(rt.alloc(), &[]));
    let refused = is_refused(Dump::open(rt.alloc(), &b"raw"[..], None));
    drop(hoard);
    assert_equal(rt, refused, true);
}
