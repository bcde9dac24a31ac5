//! What a dump says of its machine, as JSON.
ghost use Rattle.std.specs.Prelude.{◌≡◌, IfOk, string_bytes};
ghost use Rattle.std.proofs.Common.{refl};
ghost use Rattle.ptdump_json.specs.InfoObjects as objects;
ghost use Rattle.ptdump_json.specs.private.NoFloats.{no_float_processor, no_float_root};
ghost use Rattle.serde_json.specs.Data.{object as object_of};
ghost use Rattle.serde_json.specs.View.{view};
ghost use Rattle.ptdump_json.specs.private.Objects.{members_in};

use super::ToJson;
use super::object::Object;
use crate::items::{
    DumpFormat, KernelRoot, MemoryRange, NoKernelRoot, NoRoot, Processor, Root, UnplacedMemory,
};
use crate::mode::Mode;
use crate::registers::{Registers, level_count, levels_by};
use crate::start::Origin;
use serde_json::Value;
use std::alloc::{AllocError, Global};

impl ToJson for DumpFormat {
    ghost json = { λ format. objects.json_of_format format.0 };

    ghost no_float = { λ format. refl };

    fn to_json(&self, alloc: Global) -> Result<Value, AllocError> {
        let object = Object::new(alloc).put_text("format", self.0.name())?;
        Ok(object.finish())
    }
}

impl ToJson for MemoryRange {
    ghost json = { λ range. objects.json_of_memory range.first range.last range.size };

    ghost no_float = { λ range. refl };

    fn to_json(&self, alloc: Global) -> Result<Value, AllocError> {
        let memory = Object::new(alloc)
            .put_hexadecimal("first", self.first)?
            .put_hexadecimal("last", self.last)?
            .put_number("bytes", self.size)?;
        told(alloc, "memory", memory)
    }
}

impl ToJson for UnplacedMemory {
    ghost json = { λ memory. objects.json_of_unplaced memory.size };

    ghost no_float = { λ memory. refl };

    fn to_json(&self, alloc: Global) -> Result<Value, AllocError> {
        let memory = Object::new(alloc).put_number("bytes", self.size)?;
        told(alloc, "unplaced_memory", memory)
    }
}

impl ToJson for Processor {
    ghost json = { λ processor. objects.json_of_processor processor.cpu processor.registers };

    ghost no_float = { λ processor. no_float_processor processor.cpu processor.registers };

    fn to_json(&self, alloc: Global) -> Result<Value, AllocError> {
        let processor = match self.registers {
            Some(registers) => {
                let mode = Mode::of(registers.cr0, registers.cr4);
                registers_object(alloc, self.cpu, registers, mode)?
            }
            None => Object::new(alloc)
                .put_number("cpu", self.cpu as u64)?
                .put_text("error", Processor::CUT)?,
        };
        told(alloc, "processor", processor)
    }
}

/// Returns the object of a processor with these registers and this mode.
fn registers_object(
    alloc: Global,
    cpu: usize,
    registers: Registers,
    mode: Mode,
) -> Result<Object, AllocError>
    ensures { IfOk result (λ object. object_of (members_in object)
        ≡ objects.json_of_registers cpu registers mode) }
{
    let object = Object::new(alloc)
        .put_number("cpu", cpu as u64)?
        .put_hexadecimal("cr0", registers.cr0)?
        .put_hexadecimal("cr3", registers.cr3)?
        .put_hexadecimal("cr4", registers.cr4)?
        .put_text("mode", mode.name())?;
    match mode {
        Mode::Paging64 => {
            let levels = level_count(levels_by(registers.cr4));
            object.put_number("levels", levels)
        }
        Mode::NoPaging | Mode::Paging32 => Ok(object),
    }
}

impl ToJson for KernelRoot {
    ghost json = { λ kernel. objects.json_of_kernel kernel.0 };

    ghost no_float = { λ kernel. refl };

    fn to_json(&self, alloc: Global) -> Result<Value, AllocError> {
        let kernel = Object::new(alloc)
            .put_hexadecimal("root", self.0.root.start_address().as_u64())?
            .put_number("levels", level_count(self.0.levels))?
            .put_hexadecimal("encryption_mask", self.0.encryption_mask)?;
        told(alloc, "kernel", kernel)
    }
}

impl ToJson for NoKernelRoot {
    ghost json = { λ kernel. objects.json_of_no_kernel (string_bytes kernel.error) };

    ghost no_float = { λ kernel. refl };

    fn to_json(&self, alloc: Global) -> Result<Value, AllocError> {
        let kernel = Object::new(alloc).put_text("error", self.error.as_str())?;
        told(alloc, "kernel", kernel)
    }
}

impl ToJson for Root {
    ghost json = { λ root. objects.json_of_root root.cpu root.start };

    ghost no_float = { λ root. no_float_root root.cpu root.start };

    fn to_json(&self, alloc: Global) -> Result<Value, AllocError> {
        let root = Object::new(alloc)
            .put_hexadecimal("address", self.start.root.start_address().as_u64())?
            .put_number("levels", level_count(self.start.levels))?;
        let root = match self.start.origin {
            Origin::ByRequest => root.put_text("origin", "--cr3")?,
            Origin::ByProcessor => root
                .put_text("origin", "processor")?
                .put_number("cpu", self.cpu as u64)?,
            Origin::ByKernel => root.put_text("origin", "kernel")?,
            Origin::ByText(offset) => root
                .put_text("origin", "memory")?
                .put_number("offset", offset)?,
        };
        told(alloc, "root", root)
    }
}

impl ToJson for NoRoot {
    ghost json = { λ root. objects.json_of_no_root (string_bytes root.error) };

    ghost no_float = { λ root. refl };

    fn to_json(&self, alloc: Global) -> Result<Value, AllocError> {
        let root = Object::new(alloc).put_text("error", self.error.as_str())?;
        told(alloc, "root", root)
    }
}

/// Returns the object that tells something under a name.
fn told(alloc: Global, name: &'static str, object: Object) -> Result<Value, AllocError>
    ensures { IfOk result (λ value. view value
        ≡ objects.named_member name.now (object_of (members_in object))) }
{
    let object = Object::new(alloc).put(name, object.finish())?;
    Ok(object.finish())
}
