//! Frames: aligned blocks of physical memory of the size of a page.
ghost use Rattle.std.specs.Prelude.{◌≡◌, ℕ, ◌-◌, ◌%◌, ◌^◌, ◌<◌, ◌↔◌, IsOk, IfOk};

use crate::page::{AddressNotAligned, PageSize, Size4KiB, write_block};
use std::fmt::{Debug, Formatter, Result as FmtResult, Write};
use std::marker::{Model, PhantomData};
use x86_64_addr::addr::PhysAddr;

mod number;
mod operators;
mod ranges;

pub use number::PfnNotValid;
pub use ranges::{PhysFrameRange, PhysFrameRangeInclusive};

/// A frame of size `S`, which starts at a multiple of the size.
///
/// Contracts see it as its start address. Equality, order and hash are those of the start address.
#[derive(Clone, Copy, PartialEq, Eq, PartialOrd, Ord, Hash)]
pub struct PhysFrame<S: PageSize = Size4KiB> {
    start_address: PhysAddr,
    size: PhantomData<S>,
}

impl<S: PageSize> Model for PhysFrame<S> {
    ghost use Rattle.std.specs.Prelude.{◌≡◌, ℕ, ◌%◌, ◌^◌, ◌<◌};

    ghost Value = { ℕ };

    ghost view = { λ f. f.start_address };

    ghost invariant = { λ f. (f.start_address < 2 ^ 52) × (f.start_address % S.SIZE ≡ 0) };

    ghost inverse = { λ n. record { start_address = n; size = record {} } };
}

impl<S: PageSize> PhysFrame<S> {
    /// Returns the frame that starts at an address.
    ///
    /// # Errors
    ///
    /// `AddressNotAligned` if the address isn't a multiple of the size.
    pub fn from_start_address(address: PhysAddr) -> Result<Self, AddressNotAligned>
        ensures aligned { IsOk result ↔ (address % S.SIZE ≡ 0) }
        ensures value { IfOk result (λ f. f ≡ address) }
    {
        if address.as_u64() % S::SIZE == 0 {
            Ok(Self::from_start_address_unchecked(address))
        } else {
            Err(AddressNotAligned)
        }
    }

    /// Returns the frame that starts at an address.
    ///
    /// Requires that the address is a multiple of the size. Check this with [`from_start_address`](Self::from_start_address) or
    /// [`PhysAddr::is_aligned`].
    pub fn from_start_address_unchecked(start_address: PhysAddr) -> Self
        requires { start_address % S.SIZE ≡ 0 }
        ensures { result ≡ start_address }
    {
        // Each physical address is below 2^52, as the start of each frame must be.
        let _number = start_address.as_u64();
        PhysFrame {
            start_address,
            size: PhantomData,
        }
    }

    /// Returns the frame that contains an address: it starts at the address rounded down to the size.
    #[tactic(auto, using(crate::proofs::Multiples::rounded_down))]
    pub fn containing_address(address: PhysAddr) -> Self
        ensures { result ≡ address - address % S.SIZE }
    {
        let number = address.as_u64();
        PhysFrame {
            start_address: PhysAddr::new(number - number % S::SIZE),
            size: PhantomData,
        }
    }

    /// Returns the start address.
    pub const fn start_address(self) -> PhysAddr
        ensures value { result ≡ self }
        ensures below { self < 2 ^ 52 }
        ensures aligned { self % S.SIZE ≡ 0 }
        ensures aligned_to_4kib { self % 4096 ≡ 0 }
    {
        self.start_address
    }

    /// Returns the size in bytes.
    pub fn size(self) -> u64
        ensures { result ≡ S.SIZE }
    {
        S::SIZE
    }
}

impl<S: PageSize> Debug for PhysFrame<S> {
    fn fmt<W: Write>(&self, f: &mut Formatter<W>) -> FmtResult {
        let start = self.start_address.as_u64();
        f.write_str("PhysFrame")?;
        write_block::<S, W>(f, start)
    }
}
