//! Frames by their page frame numbers: the start divided by the size.
ghost use Rattle.std.specs.Prelude.{◌≡◌, ◌*◌, ◌/◌, ◌^◌, ◌<◌, ◌↔◌, IsOk, IfOk, IfErr};

use crate::frame::PhysFrame;
use crate::page::PageSize;
use std::fmt::{Display, Formatter, Result as FmtResult, Write};
use x86_64_addr::addr::PhysAddr;

/// The greatest physical address.
const LAST_ADDRESS: u64 = 0x000f_ffff_ffff_ffff;

/// The error for a number that no frame has: the frame's start wouldn't be below 2^52.
///
/// Contains the number.
#[derive(Debug, Clone, Copy, PartialEq, Eq)]
pub struct PfnNotValid(pub u64);

impl Display for PfnNotValid {
    fn fmt<W: Write>(&self, f: &mut Formatter<W>) -> FmtResult {
        let PfnNotValid(number) = self;
        write!(f, "PfnNotValid({number:#x})")
    }
}

impl<S: PageSize> PhysFrame<S> {
    /// Returns the frame with a number: it starts at the number times the size.
    ///
    /// Requires that the frame's start is below 2^52. Check this with [`try_from_pfn`](Self::try_from_pfn).
    pub fn from_pfn(pfn: u64) -> Self
        requires { pfn * S.SIZE < 2 ^ 52 }
        ensures { result ≡ pfn * S.SIZE }
    {
        Self::from_start_address_unchecked(PhysAddr::new(pfn * S::SIZE))
    }

    /// Returns the frame with a number: it starts at the number times the size.
    ///
    /// Requires that the frame's start is below 2^52, as for [`from_pfn`](Self::from_pfn).
    pub fn from_pfn_unchecked(pfn: u64) -> Self
        requires { pfn * S.SIZE < 2 ^ 52 }
        ensures { result ≡ pfn * S.SIZE }
    {
        Self::from_pfn(pfn)
    }

    /// Returns the frame with a number: it starts at the number times the size.
    ///
    /// # Errors
    ///
    /// `PfnNotValid`, with the number, if the frame's start isn't below 2^52.
    pub fn try_from_pfn(pfn: u64) -> Result<Self, PfnNotValid>
        ensures below { IsOk result ↔ (pfn * S.SIZE < 2 ^ 52) }
        ensures value { IfOk result (λ frame. frame ≡ pfn * S.SIZE) }
        ensures error { IfErr result (λ e. e.0 ≡ pfn) }
    {
        if pfn <= LAST_ADDRESS / S::SIZE {
            Ok(Self::from_pfn_unchecked(pfn))
        } else {
            Err(PfnNotValid(pfn))
        }
    }

    /// Returns the frame's number: its start divided by its size.
    pub fn pfn(self) -> u64
        ensures { result ≡ self / S.SIZE }
    {
        self.start_address().as_u64() / S::SIZE
    }
}
