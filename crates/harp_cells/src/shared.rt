//! A value that copies share.

ghost use Rattle.std.specs.Prelude.{◌≡◌, IfOk};

use crate::value::Value;
use std::alloc::{AllocError, Global};
use std::marker::Model;
use std::rc::Rc;

/// A value that its copies share. Contracts see it as the value.
#[derive(Drop)]
pub struct SharedValue {
    value: Rc<Value>,
}

impl Model for SharedValue {
    ghost use Rattle.harp_cells.specs.declared.value.Value.{Value as Held};

    ghost Value = { Held };

    ghost view = { λ s. s.value.value };
}

impl SharedValue {
    /// The value, which isn't copied.
    pub fn new(alloc: Global, value: Value) -> Result<SharedValue, AllocError>
        ensures { IfOk result (λ shared. shared ≡ value) }
    {
        Ok(SharedValue {
            value: Rc::new(alloc, value)?,
        })
    }

    /// An equal value.
    pub fn of(alloc: Global, value: &Value) -> Result<SharedValue, AllocError>
        ensures { IfOk result (λ shared. shared ≡ value.now) }
    {
        SharedValue::new(alloc, value.copy(alloc)?)
    }

    /// The same value, with another owner.
    pub fn share(&self) -> Result<SharedValue, AllocError>
        ensures { IfOk result (λ shared. shared ≡ self.now) }
    {
        Ok(SharedValue {
            value: self.value.clone()?,
        })
    }

    /// The value.
    pub fn get(&self) -> &Value
        ensures { result.now ≡ self.now }
    {
        &self.value
    }
}
