//! Frames that are mapped with different rights.
ghost use Rattle.std.specs.Prelude.{◌≡◌, Some};
ghost use Rattle.std.specs.Fmt.{WritesOnOk};
ghost use Rattle.ptdump_check.specs.FindingTexts.{rights_there_text};
ghost use Rattle.ptdump_check.specs.Aliasing.{aliased_by};

use crate::rights_at::RightsAt;
use std::fmt::{Display, Formatter, Result as FmtResult, Write};
use text::write_hexadecimal;
use x86_64_addr::addr::{PhysAddr, VirtAddrIn};
use x86_64_addr::level_count::LevelCount;
use x86_64_mappings::MappingIn;

/// A frame that is mapped twice with different rights.
#[derive(Clone, Copy)]
pub struct Aliased {
    /// The start of the frame.
    pub frame: PhysAddr,
    /// The virtual address that the frame is mapped to, with its rights.
    pub at: RightsAt,
    /// Another virtual address that leads to the frame, with its rights.
    pub other: RightsAt,
}

impl Aliased {
    /// Returns the frame of a mapping that has an alias, whatever the two are.
    pub fn of<L: LevelCount>(mapping: &MappingIn<L>, alias: &MappingIn<L>) -> Aliased
        ensures { result ≡ aliased_by L.LEVELS mapping.now alias.now }
    {
        let frame = mapping.frame.start_address();
        let start = alias.frame.start_address().as_u64();
        let offset = frame.as_u64().saturating_sub(start);
        Aliased {
            frame,
            at: RightsAt {
                address: mapping.start.as_u64(),
                rights: mapping.rights,
            },
            other: RightsAt {
                address: VirtAddrIn::<L>::new_truncate(alias.start.position() + offset).as_u64(),
                rights: alias.rights,
            },
        }
    }
}

impl Display for Aliased {
    ghost use Rattle.ptdump_check.specs.FindingTexts.{aliased_text};

    ghost output = { λ aliased. Some (aliased_text aliased) };

    fn fmt<W: Write>(&self, f: &mut Formatter<W>) -> FmtResult {
        let frame = self.frame.as_u64();
        write!(f, "frame 0x{frame:x} is mapped ")?;
        write_rights(f, self.at)?;
        f.write_str(", and ")?;
        write_rights(f, self.other)
    }
}

/// Writes rights, and at which address they are allowed.
fn write_rights<W: Write>(f: &mut Formatter<W>, there: RightsAt) -> FmtResult
    ensures { WritesOnOk W.write_str_gives f.old result (rights_there_text there) f.new }
{
    let rights = there.rights;
    write!(f, "{rights} at ")?;
    write_hexadecimal(f, there.address)
}
