//! Walks as JSON, with what a processor does with an access.
ghost use Rattle.std.specs.Prelude.{◌≡◌, IfOk, OnOk, map, option_map};
ghost use Rattle.serde_json.specs.Data.{array};
ghost use Rattle.serde_json.specs.View.{items_of, view};
ghost use Rattle.x86_64_access.specs.Accesses.{outcome_of};
ghost use Rattle.ptdump_check.specs.Loaded.{words_loaded};
ghost use Rattle.ptdump_json.specs.Accesses.{is_arrived, is_access_there, outcome_in};
ghost use Rattle.ptdump_json.specs.Json as json;
ghost use Rattle.x86_64_model.specs.Position.{raw};
ghost use Rattle.ptdump_json.specs.Walks.{walk_of};
ghost use Rattle.ptdump_json.specs.Lines.{walk_lines};
ghost use Rattle.ptdump_json.specs.declared.options.Form.TheVariants.{Json};
ghost use Rattle.ptdump_json.specs.private.Objects.{members_in};
ghost use Rattle.ptdump_json.specs.private.Reported.{json_of_report, report_arrives};
ghost use Rattle.ptdump_json.specs.Walked.{json_of_line, value_members};

use super::object::Object;
use super::{ToJson, write_json};
use crate::access_line::{AccessLine, access_end, access_name};
use crate::lines::Lines;
use crate::options::{ControlsSource, WalkOptions};
use crate::walked::{Walk, WalkEnd, walk_to};
use crate::word_read::WordRead;
use bitflags::Flags;
use ptdump_check::Loaded;
use serde_json::Value;
use std::alloc::{AllocError, Global};
use x86_64_access::{Controls, Fault};
use x86_64_addr::addr::VirtAddrIn;
use x86_64_addr::level_count::LevelCount;

/// A walk to an address, and what a processor does with an access there, if one is asked for.
#[derive(Drop)]
struct WalkReport {
    /// The address.
    address: u64,
    /// The walk.
    walk: Walk,
    /// The access, and what a processor does with it.
    access: Option<AccessLine>,
}

impl WalkReport {
    /// Returns true if the access arrives, or if there is none, the walk.
    fn arrives(&self) -> bool
        ensures { result ≡ report_arrives self.now }
    {
        match &self.access {
            Some(line) => line.end.is_ok(),
            None => self.walk.arrives(),
        }
    }
}

impl ToJson for WordRead {
    ghost use Rattle.std.proofs.Common.{refl};

    ghost json = { λ read. json.json_of_word read };

    ghost no_float = { λ read. refl };

    fn to_json(&self, alloc: Global) -> Result<Value, AllocError> {
        let object = Object::new(alloc)
            .put_number("level", self.level)?
            .put_hexadecimal("table", self.table.start_address().as_u64())?
            .put_number("index", self.index as u64)?
            .put_hexadecimal("word", self.word)?;
        Ok(object.finish())
    }
}

impl ToJson for AccessLine {
    ghost use Rattle.ptdump_json.specs.private.NoFloats.{no_float_access};

    ghost json = { λ line. json.json_of_access line.access line.controls line.source (outcome_of line.end) };

    ghost no_float = { λ line.
        no_float_access line.access line.controls line.source (outcome_of line.end) };

    fn to_json(&self, alloc: Global) -> Result<Value, AllocError> {
        let object = Object::new(alloc)
            .put_text("name", access_name(self.access))?
            .put(
                "controls",
                controls_to_json(alloc, self.controls, self.source)?,
            )?;
        let object = match self.end {
            Ok(address) => object
                .put_text("end", "arrives")?
                .put_hexadecimal("physical", address.as_u64())?,
            Err(Fault::PageFault { code, level }) => object
                .put_text("end", "fault")?
                .put_number("level", level)?
                .put_hexadecimal("code", code.bits())?,
            Err(Fault::NoMemory { frame }) => object
                .put_text("end", "missing table")?
                .put_hexadecimal("table", frame.start_address().as_u64())?,
        };
        Ok(object.finish())
    }
}

/// Returns the controls of a processor, and what says them.
fn controls_to_json(
    alloc: Global,
    controls: Controls,
    source: ControlsSource,
) -> Result<Value, AllocError>
    ensures { IfOk result (λ value. view value ≡ json.json_of_controls controls source) }
{
    let object = Object::new(alloc)
        .put_flag("wp", controls.write_protect)?
        .put_flag("smep", controls.smep)?
        .put_flag("smap", controls.smap)?
        .put_flag("nxe", controls.no_execute)?
        .put_flag("ac", controls.ac)?
        .put_text("source", source.name())?;
    Ok(object.finish())
}

impl ToJson for WalkReport {
    ghost use Rattle.ptdump_json.specs.private.NoFloats.{no_float_walk};

    ghost json = { λ report. json_of_report report };

    ghost no_float = { λ report. no_float_walk report.address report.walk report.access };

    fn to_json(&self, alloc: Global) -> Result<Value, AllocError> {
        let words = words_to_json(alloc, self.walk.words.as_slice())?;
        let object = walk_object(alloc, self.address, words, self.walk.end)?;
        match &self.access {
            Some(access) => Ok(object.put("access", access.to_json(alloc)?)?.finish()),
            None => Ok(object.finish()),
        }
    }
}

/// Returns the words that a walk reads.
fn words_to_json(alloc: Global, words: &[WordRead]) -> Result<Value, AllocError>
    ensures { IfOk result (λ value. view value ≡ array (items_of (map json.json_of_word words.now))) }
{
    let mut values = Vec::new(alloc);
    for word in words {
        values.push(word.to_json(alloc)?)?;
    }
    Ok(Value::Array(values))
}

/// Returns the object of a walk to an address, with the words that it reads.
fn walk_object(
    alloc: Global,
    address: u64,
    words: Value,
    end: WalkEnd,
) -> Result<Object, AllocError>
    ensures { IfOk result (λ object. members_in object
        ≡ value_members (json.hexadecimal_string address) (view words) end) }
{
    let object = Object::new(alloc)
        .put_hexadecimal("address", address)?
        .put("words", words)?;
    match end {
        WalkEnd::Arrives { at, size: _ } => object
            .put_text("end", "arrives")?
            .put_hexadecimal("physical", at.address)?
            .put_rights(at.rights),
        WalkEnd::NotPresent => object.put_text("end", "not present"),
        WalkEnd::MissingTable(frame) => object
            .put_text("end", "missing table")?
            .put_hexadecimal("table", frame.start_address().as_u64()),
        WalkEnd::HugePage(level) => object
            .put_text("end", "huge page")?
            .put_number("level", level),
    }
}

/// Writes the walk to an address as a line of JSON, with what a processor does with an access there, if one is asked for.
/// Returns true if the access arrives, or if none is asked for, the walk.
///
/// # Errors
///
/// The error of the destination, or of memory allocation.
pub fn write_json_walk<L: LevelCount, O: Lines>(
    alloc: Global,
    loaded: &Loaded<'_, L>,
    address: VirtAddrIn<L>,
    options: WalkOptions,
    output: &mut O,
) -> Result<bool, O::Error>
    ensures text { OnOk result (O.puts output.old output.new (
        walk_lines Json L.LEVELS (words_loaded loaded.now) loaded.now.root options address)) }
    ensures arrives { IfOk result (λ arrives.
        arrives ≡ is_access_there options.controls options.access
        L.LEVELS (words_loaded loaded.now) loaded.now.root address) }
{
    let report = report_on(alloc, loaded, address, options)?;
    write_json(alloc, &report, output)?;
    Ok(report.arrives())
}

/// Walks to an address, and determines what a processor does with an access there, if one is asked for.
fn report_on<L: LevelCount>(
    alloc: Global,
    loaded: &Loaded<'_, L>,
    address: VirtAddrIn<L>,
    options: WalkOptions,
) -> Result<WalkReport, AllocError>
    ensures json { IfOk result (λ report. json_of_report report
        ≡ json.json_of_walk (raw L.LEVELS address)
        (walk_of L.LEVELS (words_loaded loaded.now) loaded.now.root address)
        (json.json_of_asked options.controls options.source options.access
        L.LEVELS (words_loaded loaded.now) loaded.now.root address)) }
    ensures arrives { IfOk result (λ report. report_arrives report
        ≡ is_access_there options.controls options.access
        L.LEVELS (words_loaded loaded.now) loaded.now.root address) }
{
    let walk = walk_to(alloc, loaded, address)?;
    Ok(WalkReport {
        address: address.as_u64(),
        walk,
        access: end_asked(loaded, address, options),
    })
}

/// Returns what a processor does with an access at an address, if one is asked for.
fn end_asked<L: LevelCount>(
    loaded: &Loaded<'_, L>,
    address: VirtAddrIn<L>,
    options: WalkOptions,
) -> Option<AccessLine>
    ensures json { option_map json_of_line result
        ≡ json.json_of_asked options.controls options.source options.access
        L.LEVELS (words_loaded loaded.now) loaded.now.root address }
    ensures arrives { option_map (λ line. is_arrived (outcome_of line.end)) result
        ≡ option_map (λ a. is_arrived (
        outcome_in L.LEVELS (words_loaded loaded.now) loaded.now.root address options.controls a))
        options.access }
{
    match options.access {
        Some(asked) => Some(access_end(loaded, address, options.controls, options.source, asked)),
        None => None,
    }
}
