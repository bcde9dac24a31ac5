//! Error codes of page faults.
//!
//! Intel SDM vol. 3A, "Page-Fault Exceptions"; AMD APM vol. 2, "#PF-Page-Fault Exception (Vector 14)".
ghost use Rattle.std.specs.Prelude.{⊤};
ghost use Rattle.x86_64_access.specs.Codes.{code_table};

use bitflags::{Flag, Flags, bitflag_items};
use std::fmt;

/// The error code of a page fault.
#[derive(Clone, Copy, PartialEq, Eq)]
pub struct PageFaultCode(u64);

bitflag_items! {
    impl PageFaultCode: u64 {
        /// The entry that faults has `PRESENT`: rights or a reserved bit caused the fault.
        const PROTECTION_VIOLATION = 1 << 0;
        /// The access was a write.
        const CAUSED_BY_WRITE = 1 << 1;
        /// The access was a user's, made at privilege level 3.
        const USER_MODE = 1 << 2;
        /// A reserved bit of an entry was set.
        const MALFORMED_TABLE = 1 << 3;
        /// The access was an instruction fetch, and the processor tells fetches apart: `NO_EXECUTE` or SMEP is on.
        const INSTRUCTION_FETCH = 1 << 4;
    }
}

impl Flags for PageFaultCode {
    type Bits = u64;

    ghost exact = { ⊤ };

    ghost table = { code_table };

    ghost set_of = { λ code. code.0 };

    fn flags<'a>() -> &'a [Flag<PageFaultCode>] {
        PageFaultCode::FLAGS
    }

    fn bits(&self) -> u64 {
        self.0
    }

    fn from_bits_retain(bits: u64) -> PageFaultCode {
        PageFaultCode(bits)
    }
}

impl fmt::Debug for PageFaultCode {
    fn fmt<W: fmt::Write>(&self, f: &mut fmt::Formatter<W>) -> fmt::Result {
        let bits = self.bits();
        write!(f, "PageFaultCode({bits:#x})")
    }
}
