//! A test of output that is more than one piece.
use crate::prelude::*;
use crate::program::runs::{Word, run_on};
use std::alloc::AllocError;
use test_support::{Memory, Processor, push_core_file};

/// Adds a table whose first words are equal, and the others 0.
fn push_equal_words(file: &mut Vec<u8>, count: usize, word: u64) -> Result<(), AllocError> {
    for index in 0..512 {
        let word = if index < count { word } else { 0 };
        file.extend_from_slice(&u64::to_le_bytes(word))?;
    }
    Ok(())
}

/// Writes a core file with 512 pages of 2MiB in a table of level two, which eight entries of the table above name.
fn file_with_many_pages(alloc: Global) -> Result<Vec<u8>, AllocError> {
    let mut tables = Vec::new(alloc);
    push_equal_words(&mut tables, 1, 0x2003)?;
    push_equal_words(&mut tables, 8, 0x3003)?;
    push_equal_words(&mut tables, 512, 0x83)?;
    let memory = [Memory {
        address: 0x1000,
        bytes: &tables,
    }];
    let processors = [Processor {
        cr3: 0x1000,
        cr4: 0x20,
    }];
    let mut file = Vec::new(alloc);
    push_core_file(&mut file, &processors, &memory)?;
    Ok(file)
}

#[test]
fn much_output_is_written_in_large_pieces(rt: HostRuntime) {
    let file = unwrap(rt, file_with_many_pages(rt.alloc()));
    let ran = run_on(rt, rt.alloc(), &file, Word::Pages);
    assert_equal(rt, ran.status(), 0);
    let bytes = &ran.output.bytes;
    let lines = bytes.iter().filter(|byte| **byte == b'\n').count();
    assert_equal(rt, (lines, ran.output.small_pieces), (4096, 1));
    assert_equal_in(rt, bytes.len(), bytes.len() > 0x1_0000, true);
}
