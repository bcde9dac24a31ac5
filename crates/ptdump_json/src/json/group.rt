//! Processors with the same tables, as JSON.
ghost use Rattle.std.specs.Prelude.{◌≡◌, IfOk, map};
ghost use Rattle.serde_json.specs.Data.{array};
ghost use Rattle.serde_json.specs.View.{items_of, view};
ghost use Rattle.ptdump_json.specs.Json.{json_count};

use super::ToJson;
use super::object::Object;
use serde_json::Value;
use std::alloc::{AllocError, Global};
use x86_64_page::frame::PhysFrame;
use x86_64_page::page::Size4KiB;

/// The processors that have the same tables.
#[derive(Clone, Copy)]
pub struct ProcessorGroup<'a> {
    /// Their numbers.
    pub cpus: &'a [usize],
    /// The frame of the root's table.
    pub root: PhysFrame<Size4KiB>,
}

impl ToJson for ProcessorGroup<'_> {
    ghost use Rattle.ptdump_json.specs.Json.{json_of_group};
    ghost use Rattle.ptdump_json.specs.private.NoFloats.{no_float_group};

    ghost json = { λ group. json_of_group group.cpus.now group.root };

    ghost no_float = { λ group. no_float_group group.cpus.now group.root };

    fn to_json(&self, alloc: Global) -> Result<Value, AllocError> {
        let cpus = numbers_to_json(alloc, self.cpus)?;
        let object = Object::new(alloc)
            .put("cpus", cpus)?
            .put_hexadecimal("root", self.root.start_address().as_u64())?;
        Ok(object.finish())
    }
}

/// Returns the array of some numbers.
fn numbers_to_json(alloc: Global, numbers: &[usize]) -> Result<Value, AllocError>
    ensures { IfOk result (λ value. view value ≡ array (items_of (map json_count numbers.now))) }
{
    let mut values = Vec::new(alloc);
    for number in numbers {
        values.push(Value::from(*number))?;
    }
    Ok(Value::Array(values))
}
