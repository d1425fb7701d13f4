//! Values of a run.

ghost use Rattle.std.specs.Prelude.{◌≡◌, IfOk};

use rw_items::Items;
use std::alloc::{AllocError, Global};

/// A value of a run: an integer of 128 bits, or an array of such.
#[derive(Drop)]
pub enum Value {
    Int(i128),
    List(Items<i128>),
}

impl Value {
    /// The same value again.
    pub fn copy(&self, alloc: Global) -> Result<Value, AllocError>
        ensures { IfOk result (λ v. v ≡ self.now) }
    {
        match self {
            Value::Int(n) => Ok(Value::Int(*n)),
            Value::List(cells) => Ok(Value::List(Items::from_slice(alloc, cells.as_slice())?)),
        }
    }
}
