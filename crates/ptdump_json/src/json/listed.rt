//! Regions, mappings and addresses that are found, as JSON.
ghost use Rattle.std.specs.Prelude.{◌≡◌, IfOk, Some};
ghost use Rattle.std.proofs.Common.{refl};
ghost use Rattle.ptdump_check.specs.FindingTexts.{rights_at_text};
ghost use Rattle.ptdump_json.specs.Json as json;
ghost use Rattle.ptdump_json.specs.private.Objects.{members_in};

use super::ToJson;
use super::object::Object;
use crate::listing::{ListedMapping, ListedRegion};
use bitflags::Flags;
use ptdump_check::RightsAt;
use serde_json::Value;
use std::alloc::{AllocError, Global};
use std::fmt::{Display, Formatter, Result as FmtResult, Write};
use x86_64_addr::addr::PhysAddr;
use x86_64_addr::level_count::LevelCount;
use x86_64_mappings::{MappingIn, RegionIn};

impl<L: LevelCount> ToJson for ListedRegion<L> {
    ghost use Rattle.ptdump_json.specs.private.NoFloats.{no_float_region};

    ghost json = { λ listed. json.json_of_region L.LEVELS listed.area listed.region };

    ghost no_float = { λ listed. no_float_region L.LEVELS listed.area listed.region };

    fn to_json(&self, alloc: Global) -> Result<Value, AllocError> {
        let object = region_object(alloc, &self.region)?;
        match self.area {
            Some(area) => Ok(object.put_text("area", area.name())?.finish()),
            None => Ok(object.finish()),
        }
    }
}

/// Returns the object of a region.
pub fn region_object<L: LevelCount>(
    alloc: Global,
    region: &RegionIn<L>,
) -> Result<Object, AllocError>
    ensures { IfOk result (λ object. members_in object ≡ json.region_members L.LEVELS region.now) }
{
    Object::new(alloc)
        .put_hexadecimal("first", region.first.as_u64())?
        .put_hexadecimal("last", region.last.as_u64())?
        .put_number("bytes", region.size())?
        .put_rights(region.rights)
}

impl<L: LevelCount> ToJson for ListedMapping<L> {
    ghost use Rattle.ptdump_json.specs.private.NoFloats.{no_float_mapping};

    ghost json = { λ listed. json.json_of_mapping L.LEVELS listed.area listed.mapping };

    ghost no_float = { λ listed. no_float_mapping L.LEVELS listed.area listed.mapping };

    fn to_json(&self, alloc: Global) -> Result<Value, AllocError> {
        let object = mapping_object(alloc, &self.mapping)?;
        match self.area {
            Some(area) => Ok(object.put_text("area", area.name())?.finish()),
            None => Ok(object.finish()),
        }
    }
}

/// Returns the object of a mapping.
fn mapping_object<L: LevelCount>(
    alloc: Global,
    mapping: &MappingIn<L>,
) -> Result<Object, AllocError>
    ensures { IfOk result (λ object. members_in object ≡ json.mapping_members L.LEVELS mapping.now) }
{
    Object::new(alloc)
        .put_hexadecimal("start", mapping.start.as_u64())?
        .put_number("bytes", mapping.size())?
        .put_hexadecimal("frame", mapping.frame.start_address().as_u64())?
        .put_rights(mapping.rights)?
        .put_hexadecimal("flags", mapping.flags.bits())
}

/// An address that leads to a physical address.
#[derive(Clone, Copy)]
pub struct Found {
    /// The physical address.
    pub physical: PhysAddr,
    /// The address that leads to it, with the rights there.
    pub at: RightsAt,
}

impl Display for Found {
    ghost output = { λ found. Some (rights_at_text found.at.address found.at.rights) };

    fn fmt<W: Write>(&self, f: &mut Formatter<W>) -> FmtResult {
        let at = self.at;
        write!(f, "{at}")
    }
}

impl ToJson for Found {
    ghost json = { λ found. json.json_of_found found.physical found.at.address found.at.rights };

    ghost no_float = { λ found. refl };

    fn to_json(&self, alloc: Global) -> Result<Value, AllocError> {
        let object = Object::new(alloc)
            .put_hexadecimal("physical", self.physical.as_u64())?
            .put_hexadecimal("address", self.at.address)?
            .put_rights(self.at.rights)?;
        Ok(object.finish())
    }
}
