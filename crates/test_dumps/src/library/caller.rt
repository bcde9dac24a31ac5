//! A caller that learns the words in a dump of bytes in memory.
ghost use Rattle.std.specs.Prelude.{◌≡◌, IfOk, Ok};
ghost use Rattle.x86_64_dump.specs.Dump.{Contents, words_of_dump};
ghost use Rattle.x86_64_dump.specs.Opening.{contents_of};

use crate::prelude::*;
use test_support::{Memory, push_core_file};
use x86_64_addr::addr::PhysAddr;
use x86_64_dump::{Dump, DumpError};
use x86_64_page::frame::PhysFrame;
use x86_64_page::page::Size4KiB;

/// Opens a file and reads the words of a frame.
fn words_of(
    alloc: Global,
    file: &[u8],
    base: Option<u64>,
    frame: PhysFrame<Size4KiB>,
) -> Result<Option<[u64; 512]>, DumpError>
    ensures { IfOk result (λ words. (dump : Contents) →
        contents_of file.now base ≡ Ok dump → words ≡ words_of_dump dump frame) }
{
    let dump = Dump::open(alloc, file, base)?;
    Ok(dump.read_frame(frame)?)
}

#[test]
fn a_frame_is_read_of_a_slice(rt: HostRuntime) {
    let memory = Memory {
        address: 0x1000,
        bytes: &[7; 4096],
    };
    let mut bytes = Vec::new(rt.alloc());
    unwrap(rt, push_core_file(&mut bytes, &[], &[memory]));
    let frame = PhysFrame::containing_address(PhysAddr::new_truncate(0x1000));
    let found = words_of(rt.alloc(), bytes.as_slice(), None, frame);
    assert_equal(rt, unwrap(rt, found), Some([0x0707_0707_0707_0707; 512]));
}
