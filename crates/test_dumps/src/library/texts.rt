//! Tests of the texts of errors that hold a fault. `ptdump` prints that of the fault alone.
use crate::prelude::*;
use std::fmt::Display;
use x86_64_dump::{DumpError, Fault, KernelFault, Key, UnreadFormat};

/// A fault of each kind.
static FAULTS: [Fault; 20] = [
    Fault::Unread(UnreadFormat::Kdump),
    Fault::PlacementGiven,
    Fault::RangeEmpty {
        offset: 4096,
        address: 0x2000,
    },
    Fault::RangeOutside {
        offset: 4096,
        size: 4097,
        length: 8192,
    },
    Fault::RangeTooHigh {
        address: 0xffff_ffff_ffff_f001,
        size: 4096,
    },
    Fault::HeaderCut { length: 63 },
    Fault::WrongClass { class: 1 },
    Fault::WrongByteOrder { order: 2 },
    Fault::WrongType { file_type: 3 },
    Fault::WrongMachine { machine: 183 },
    Fault::WrongEntrySize { size: 32 },
    Fault::SectionOutside {
        offset: 200,
        length: 99,
    },
    Fault::HeadersOutside {
        offset: 64,
        count: 7,
        length: 99,
    },
    Fault::NoMemory,
    Fault::RangeHeaderCut { length: 31 },
    Fault::NoRangeHeader { offset: 4128 },
    Fault::WrongLimeVersion {
        offset: 0,
        version: 2,
    },
    Fault::RangeReversed {
        offset: 0,
        first: 0x2000,
        last: 0x1fff,
    },
    Fault::NoteCut {
        offset: 140,
        size: 80,
        needed: 424,
    },
    Fault::VmCoreInfo(KernelFault::Missing(Key::PhysBase)),
];

/// Returns the text of a value.
fn text_of<T: Display>(rt: impl Abort + Copy, alloc: Global, value: &T) -> String {
    unwrap(rt, format!(in alloc; "{value}"))
}

#[test]
fn an_error_has_the_text_of_its_fault(rt: HostRuntime) {
    for fault in &FAULTS {
        let text = text_of(rt, rt.alloc(), &DumpError::Fault(*fault));
        assert_equal(rt, text, text_of(rt, rt.alloc(), fault));
    }
}
