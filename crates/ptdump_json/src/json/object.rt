//! JSON objects, built member by member.
//!
//! A `json!` would do, but what it takes to prove grows with the square of the number of members.
ghost use Rattle.std.specs.Prelude.{◌≡◌, IfOk, codes};
ghost use Rattle.serde_json.specs.Data.{boolean, no_members, object as object_of, put, string};
ghost use Rattle.serde_json.specs.View.{view};
ghost use Rattle.ptdump_json.specs.Json.{json_count, hexadecimal_string};
ghost use Rattle.ptdump_json.specs.private.Objects.{members_in};

use serde_json::{Map, Value};
use std::alloc::{AllocError, Global};
use x86_64_tables::page_table::Rights;

/// An object, as far as it is built.
#[derive(Drop)]
pub struct Object {
    members: Map<String, Value>,
    alloc: Global,
}

impl Object {
    /// Begins with no member.
    pub fn new(alloc: Global) -> Object
        ensures { members_in result ≡ no_members }
    {
        Object {
            members: Map::new(alloc),
            alloc,
        }
    }

    /// Puts a member.
    pub fn put(mut self, name: &'static str, member: Value) -> Result<Object, AllocError>
        ensures { IfOk result (λ object. members_in object
            ≡ put name.now (view member) (members_in self)) }
    {
        serde_json::put(&mut self.members, self.alloc, name, member)?;
        Ok(self)
    }

    /// Puts a text.
    pub fn put_text(self, name: &'static str, text: &str) -> Result<Object, AllocError>
        ensures { IfOk result (λ object. members_in object
            ≡ put name.now (string text.now) (members_in self)) }
    {
        let text = String::from_str(self.alloc, text)?;
        self.put(name, Value::from(text))
    }

    /// Puts an address or a word, which is a text in base 16 after `0x`.
    pub fn put_hexadecimal(self, name: &'static str, number: u64) -> Result<Object, AllocError>
        ensures { IfOk result (λ object. members_in object
            ≡ put name.now (hexadecimal_string number) (members_in self)) }
    {
        let text = format!(in self.alloc; "0x{number:x}")?;
        self.put(name, Value::from(text))
    }

    /// Puts a number.
    pub fn put_number(self, name: &'static str, number: u64) -> Result<Object, AllocError>
        ensures { IfOk result (λ object. members_in object
            ≡ put name.now (json_count number) (members_in self)) }
    {
        self.put(name, Value::from(number))
    }

    /// Puts whether something holds.
    pub fn put_flag(self, name: &'static str, holds: bool) -> Result<Object, AllocError>
        ensures { IfOk result (λ object. members_in object
            ≡ put name.now (boolean holds) (members_in self)) }
    {
        self.put(name, Value::from(holds))
    }

    /// Puts which rights are allowed.
    pub fn put_rights(self, rights: Rights) -> Result<Object, AllocError>
        ensures { IfOk result (λ object. members_in object
            ≡ put (codes "user") (boolean rights.user) (put (codes "execute") (boolean rights.execute)
            (put (codes "write") (boolean rights.write) (members_in self)))) }
    {
        self.put_flag("write", rights.write)?
            .put_flag("execute", rights.execute)?
            .put_flag("user", rights.user)
    }

    /// Returns the object as a value.
    pub fn finish(self) -> Value
        ensures { view result ≡ object_of (members_in self) }
    {
        Value::Object(self.members)
    }
}
