//! The fields of an object, put in one by one.

ghost use Rattle.std.specs.Prelude.{◌≡◌, OnOk};
ghost use Rattle.serde_json.specs.Data.{array, boolean, number as number_data, object, string, unsigned, no_members, put as with_member};
ghost use Rattle.serde_json.specs.View.{view, items_view};
ghost use Rattle.rpc_message.specs.Fields.{members_in};

use mix_refused::Memory;
use serde_json::{Map, Value, put};
use std::alloc::Global;

/// An object of JSON that is being made.
#[derive(Drop)]
pub struct Fields {
    alloc: Global,
    members: Map<String, Value>,
}

impl Fields {
    /// An object with no field.
    pub fn new(alloc: Global) -> Fields
        ensures { members_in result ≡ no_members }
    {
        Fields {
            alloc,
            members: Map::new(alloc),
        }
    }

    /// Puts a field in, in place of one of the same name.
    pub fn put(&mut self, name: &str, value: Value) -> Result<(), Memory>
        ensures { OnOk result (members_in self.new ≡ with_member name.now (view value) (members_in self.old)) }
    {
        put(&mut self.members, self.alloc, name, value)?;
        Ok(())
    }

    /// Puts a text in.
    pub fn text(&mut self, name: &str, text: &str) -> Result<(), Memory>
        ensures { OnOk result (members_in self.new ≡ with_member name.now (string text.now) (members_in self.old)) }
    {
        let value = Value::try_from_str(self.alloc, text)?;
        self.put(name, value)
    }

    /// Puts a number in.
    pub fn number(&mut self, name: &str, number: u64) -> Result<(), Memory>
        ensures { OnOk result (members_in self.new ≡ with_member name.now (number_data (unsigned number)) (members_in self.old)) }
    {
        self.put(name, Value::from(number))
    }

    /// Puts `true` or `false` in.
    pub fn flag(&mut self, name: &str, flag: bool) -> Result<(), Memory>
        ensures { OnOk result (members_in self.new ≡ with_member name.now (boolean flag) (members_in self.old)) }
    {
        self.put(name, Value::Bool(flag))
    }

    /// Puts a list in.
    pub fn list(&mut self, name: &str, list: Vec<Value>) -> Result<(), Memory>
        ensures { OnOk result (members_in self.new ≡ with_member name.now (array (items_view list.items)) (members_in self.old)) }
    {
        self.put(name, Value::Array(list))
    }

    /// The object.
    pub fn done(self) -> Value
        ensures { view result ≡ object (members_in self) }
    {
        let Fields { alloc: _, members } = self;
        Value::Object(members)
    }
}
