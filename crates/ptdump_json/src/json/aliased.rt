//! Frames that are mapped with different rights, as JSON.
ghost use Rattle.std.proofs.Common.{refl};
ghost use Rattle.ptdump_json.specs.FindingObjects.{json_of_aliased};

use super::ToJson;
use super::object::Object;
use ptdump_check::Aliased;
use serde_json::Value;
use std::alloc::{AllocError, Global};

impl ToJson for Aliased {
    ghost json = { λ aliased. json_of_aliased aliased };

    ghost no_float = { λ aliased. refl };

    fn to_json(&self, alloc: Global) -> Result<Value, AllocError> {
        let object = Object::new(alloc)
            .put_text("finding", "frame mapped with different rights")?
            .put_hexadecimal("frame", self.frame.as_u64())?
            .put_hexadecimal("at", self.at.address)?
            .put_rights(self.at.rights)?
            .put_hexadecimal("other_at", self.other.address)?
            .put_flag("other_write", self.other.rights.write)?
            .put_flag("other_execute", self.other.rights.execute)?
            .put_flag("other_user", self.other.rights.user)?;
        Ok(object.finish())
    }
}
