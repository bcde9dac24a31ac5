//! Tests of files as sources of bytes.
use crate::prelude::*;
use std::fs::File;
use std::io::Read;
use x86_64_dump::{ByteSource, Dump, DumpError, Fault, FileSource};

/// Returns the fault for which a file isn't opened.
fn fault_of<S: ByteSource>(rt: impl Abort + Copy, alloc: Global, source: S) -> Fault {
    match Dump::open(alloc, source, None) {
        Err(DumpError::Fault(fault)) => fault,
        _ => panic!(rt; "the file has no fault"),
    }
}

/// Compares 40 bytes of a source, and reads none past its end.
fn check_reads<S: ByteSource>(rt: impl Abort + Copy, source: &S, wanted: &[u8]) {
    let mut part = [0; 40];
    unwrap(rt, source.read_exact_at(&mut part, 24));
    assert_equal(rt, &part[..], wanted);
    let past = source.read_exact_at(&mut part, source.len());
    assert_equal(rt, past.is_err(), true);
}

#[test]
fn files_are_read_like_slices(rt: HostRuntime) {
    // The program that runs the test is an ELF file, but not a core file.
    let mut file = unwrap(rt, File::open(&rt, "/proc/self/exe"));
    let mut front = [0; 64];
    unwrap(rt, file.read_exact(&mut front));
    let source = unwrap(rt, FileSource::new(file));
    check_reads(rt, &source, &front[24..]);
    let wanted = fault_of(rt, rt.alloc(), &front[..]);
    assert_equal(rt, fault_of(rt, rt.alloc(), source), wanted);
}
