//! Findings as JSON.
ghost use Rattle.std.specs.Prelude.{◌≡◌, IfOk};
ghost use Rattle.serde_json.specs.View.{view};
ghost use Rattle.ptdump_check.specs.declared.findings.finding.Finding.TheVariants.{NamedOften, NotInDump, HugePage, ReservedBits};
ghost use Rattle.ptdump_json.specs.FindingObjects as objects;

use super::ToJson;
use super::listed::region_object;
use super::object::Object;
use ptdump_check::{Entry, Finding, FindingCount, FlawedRegion, Slot};
use serde_json::Value;
use std::alloc::{AllocError, Global};
use x86_64_addr::level_count::LevelCount;
use x86_64_page::frame::PhysFrame;
use x86_64_page::page::Size4KiB;

impl<L: LevelCount> ToJson for FlawedRegion<L> {
    ghost use Rattle.std.proofs.Common.{refl};

    ghost json = { λ flawed. objects.json_of_flawed L.LEVELS flawed.flaw flawed.region };

    ghost no_float = { λ flawed. refl };

    fn to_json(&self, alloc: Global) -> Result<Value, AllocError> {
        let object = region_object(alloc, &self.region)?.put_text("finding", self.flaw.text())?;
        Ok(object.finish())
    }
}

impl ToJson for Slot {
    ghost use Rattle.std.proofs.Common.{refl};

    ghost json = { λ slot. objects.json_of_slot slot };

    ghost no_float = { λ slot. refl };

    fn to_json(&self, alloc: Global) -> Result<Value, AllocError> {
        let object = Object::new(alloc)
            .put_hexadecimal("table", self.table.start_address().as_u64())?
            .put_number("index", self.index as u64)?;
        Ok(object.finish())
    }
}

impl ToJson for Finding {
    ghost use Rattle.ptdump_json.specs.private.NoFloats.{no_float_finding};

    ghost json = { λ finding. objects.json_of_finding finding };

    ghost no_float = { no_float_finding };

    fn to_json(&self, alloc: Global) -> Result<Value, AllocError> {
        match self {
            Finding::NamedOften { frame, count } => named_often_to_json(alloc, *frame, *count),
            Finding::NotInDump { frame, by } => not_in_dump_to_json(alloc, *frame, *by),
            Finding::HugePage { slot, level } => huge_page_to_json(alloc, *slot, *level),
            Finding::ReservedBits(entry) => reserved_bits_to_json(alloc, *entry),
            Finding::WritableForUser { frame, at } => {
                mapped_to_json(alloc, "table mapped writable for user", *frame, *at)
            }
            Finding::MappedForUser { frame, at } => {
                mapped_to_json(alloc, "table mapped for user", *frame, *at)
            }
            Finding::WritableOutside { frame, at } => mapped_to_json(
                alloc,
                "table mapped writable outside the direct map",
                *frame,
                *at,
            ),
        }
    }
}

/// Returns the object of a frame that is named as a table so many times.
fn named_often_to_json(
    alloc: Global,
    frame: PhysFrame<Size4KiB>,
    count: usize,
) -> Result<Value, AllocError>
    ensures { IfOk result (λ value. view value ≡ objects.json_of_finding (NamedOften frame count)) }
{
    let object = Object::new(alloc)
        .put_text("finding", "table named often")?
        .put_hexadecimal("table", frame.start_address().as_u64())?
        .put_number("times", count as u64)?;
    Ok(object.finish())
}

/// Returns the object of a table that isn't in the dump.
fn not_in_dump_to_json(
    alloc: Global,
    frame: PhysFrame<Size4KiB>,
    by: Slot,
) -> Result<Value, AllocError>
    ensures { IfOk result (λ value. view value ≡ objects.json_of_finding (NotInDump frame by)) }
{
    let object = Object::new(alloc)
        .put_text("finding", "table not in the dump")?
        .put_hexadecimal("table", frame.start_address().as_u64())?
        .put("named_by", by.to_json(alloc)?)?;
    Ok(object.finish())
}

/// Returns the object of an entry with `HUGE_PAGE` above level three.
fn huge_page_to_json(alloc: Global, slot: Slot, level: u64) -> Result<Value, AllocError>
    ensures { IfOk result (λ value. view value ≡ objects.json_of_finding (HugePage slot level)) }
{
    let object = Object::new(alloc)
        .put_text("finding", "HUGE_PAGE above level three")?
        .put_number("level", level)?
        .put_hexadecimal("table", slot.table.start_address().as_u64())?
        .put_number("index", slot.index as u64)?;
    Ok(object.finish())
}

/// Returns the object of an entry with other reserved bits.
fn reserved_bits_to_json(alloc: Global, entry: Entry) -> Result<Value, AllocError>
    ensures { IfOk result (λ value. view value ≡ objects.json_of_finding (ReservedBits entry)) }
{
    let slot = entry.slot;
    let object = Object::new(alloc)
        .put_text("finding", "reserved bits")?
        .put_number("level", entry.level)?
        .put_hexadecimal("table", slot.table.start_address().as_u64())?
        .put_number("index", slot.index as u64)?
        .put_hexadecimal("word", entry.word)?;
    Ok(object.finish())
}

/// Returns the object of a table that is mapped, by the name of the finding and the address.
fn mapped_to_json(
    alloc: Global,
    name: &'static str,
    frame: PhysFrame<Size4KiB>,
    at: u64,
) -> Result<Value, AllocError>
    ensures { IfOk result (λ value. view value ≡ objects.json_of_mapped name.now frame at) }
{
    let object = Object::new(alloc)
        .put_text("finding", name)?
        .put_hexadecimal("table", frame.start_address().as_u64())?
        .put_hexadecimal("at", at)?;
    Ok(object.finish())
}

impl ToJson for FindingCount {
    ghost use Rattle.std.proofs.Common.{refl};

    ghost json = { λ findings. objects.json_of_count findings.0 };

    ghost no_float = { λ findings. refl };

    fn to_json(&self, alloc: Global) -> Result<Value, AllocError> {
        let object = Object::new(alloc).put_number("findings", self.0)?;
        Ok(object.finish())
    }
}
