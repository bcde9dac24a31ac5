//! Physical addresses.
ghost use Rattle.std.specs.Prelude.{◌≡◌, ℕ, ◌%◌, ◌^◌, ◌<◌, ◌↔◌, IsTrue, IsOk, IfOk, IfErr};

use std::fmt::{Debug, Formatter, Result as FmtResult, Write};
use std::marker::Model;

/// A physical address, a number below 2^52.
#[derive(Clone, Copy, PartialEq, Eq, PartialOrd, Ord, Hash)]
pub struct PhysAddr(u64);

impl Model for PhysAddr {
    ghost use Rattle.std.specs.Prelude.{ℕ, ◌^◌, ◌<◌};

    ghost Value = { ℕ };

    ghost view = { λ a. a.0 };

    ghost invariant = { λ a. a.0 < 2 ^ 52 };

    ghost inverse = { λ n. record { 0 = n } };
}

/// The error for a value that isn't a physical address because it isn't below 2^52.
///
/// Contains the value.
#[derive(PartialEq, Drop)]
pub struct PhysAddrNotValid(pub u64);

impl Debug for PhysAddrNotValid {
    fn fmt<W: Write>(&self, f: &mut Formatter<W>) -> FmtResult {
        let PhysAddrNotValid(value) = self;
        write!(f, "PhysAddrNotValid({value:#x})")
    }
}

impl PhysAddr {
    /// Creates an address from a number.
    ///
    /// Requires that the number is below 2^52. Check this with [`try_new`](Self::try_new).
    pub const fn new(addr: u64) -> PhysAddr
        requires { addr < 2 ^ 52 }
        ensures { result ≡ addr }
    {
        PhysAddr(addr)
    }

    /// Creates an address from a number modulo 2^52.
    pub const fn new_truncate(addr: u64) -> PhysAddr
        ensures { result ≡ addr % 2 ^ 52 }
    {
        PhysAddr(addr % (1 << 52))
    }

    /// Creates an address from a number, like [`new`](Self::new).
    ///
    /// Requires that the number is below 2^52.
    pub const fn new_unsafe(addr: u64) -> PhysAddr
        requires { addr < 2 ^ 52 }
        ensures { result ≡ addr }
    {
        Self::new(addr)
    }

    /// Creates an address from a number.
    ///
    /// # Errors
    ///
    /// `PhysAddrNotValid`, with the value, if it isn't below 2^52.
    pub fn try_new(addr: u64) -> Result<PhysAddr, PhysAddrNotValid>
        ensures below { IsOk result ↔ (addr < 2 ^ 52) }
        ensures value { IfOk result (λ a. a ≡ addr) }
        ensures error { IfErr result (λ e. e.0 ≡ addr) }
    {
        let address = Self::new_truncate(addr);
        if address.as_u64() == addr {
            Ok(address)
        } else {
            Err(PhysAddrNotValid(addr))
        }
    }

    /// Returns the address 0.
    pub const fn zero() -> PhysAddr
        ensures { result ≡ 0 }
    {
        PhysAddr(0)
    }

    /// Returns the address as a number.
    pub const fn as_u64(self) -> u64
        ensures value { result ≡ self }
        ensures below { self < 2 ^ 52 }
    {
        self.0
    }

    /// Returns true if the address is 0.
    pub fn is_null(self) -> bool
        ensures { IsTrue result ↔ (self ≡ 0) }
    {
        self == Self::zero()
    }
}

impl Debug for PhysAddr {
    fn fmt<W: Write>(&self, f: &mut Formatter<W>) -> FmtResult {
        let value = self.as_u64();
        write!(f, "PhysAddr({value:#x})")
    }
}
