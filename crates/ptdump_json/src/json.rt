//! Reports as JSON, an object a line.
ghost use Rattle.std.specs.Prelude.{◌≡◌, false, IfOk, IfSome, OnOk};
ghost use Rattle.serde_json.specs.Data.{Data};
ghost use Rattle.serde_json.specs.View.{view};
ghost use Rattle.serde_json.specs.Written.{has_float};
ghost use Rattle.ptdump_json.specs.Json.{json_line};
ghost use Rattle.ptdump_json.specs.Lines.{line_in};

mod aliased;
mod findings;
mod group;
mod listed;
mod object;
mod told;
mod walks;

use crate::lines::Lines;
use crate::options::Form;
pub use group::ProcessorGroup;
pub use listed::Found;
use serde_json::Value;
use std::alloc::{AllocError, Global};
use std::fmt::Display;
pub use walks::write_json_walk;

/// What a report says as a JSON object.
pub trait ToJson {
    /// The object.
    ghost json: { Self → Data };

    /// It has no number whose text could be chosen.
    ghost no_float: { (item : Self) → has_float (json item) ≡ false };

    /// Returns the object.
    ///
    /// # Errors
    ///
    /// `AllocError` if memory allocation fails.
    fn to_json(&self, alloc: Global) -> Result<Value, AllocError>
        ensures { IfOk result (λ value. view value ≡ json self.now) };
}

/// Writes an item as a line of JSON.
///
/// # Errors
///
/// The error of the destination, or of memory allocation.
pub fn write_json<T: ToJson, O: Lines>(
    alloc: Global,
    item: &T,
    output: &mut O,
) -> Result<(), O::Error>
    ensures { OnOk result (O.puts output.old output.new (json_line (T.json item.now))) }
{
    let value = item.to_json(alloc)?;
    let text = value.to_string(alloc)?;
    output.write_line(text)
}

/// Writes an item as a line in a form: its text, or its object.
///
/// # Errors
///
/// The error of the destination, or of memory allocation.
pub fn write_as<T: Display + ToJson + Drop, O: Lines>(
    alloc: Global,
    form: Form,
    item: T,
    output: &mut O,
) -> Result<(), O::Error>
    ensures { OnOk result (IfSome (T.output item) (λ text.
        O.puts output.old output.new (line_in form text (T.json item)))) }
{
    match form {
        Form::Text => output.write_line(item),
        Form::Json => write_json(alloc, &item, output),
    }
}
