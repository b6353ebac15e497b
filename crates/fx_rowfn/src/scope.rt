ghost use Rattle.std.specs.Prelude.{◌≡◌, IfOk, map};
ghost use Rattle.fx_rowfn.specs.Calls.{with_value};
ghost use Rattle.fx_rowfn.specs.State.{scope_of};
ghost use Rattle.fx_values.specs.Shape.{slot, val};

use crate::slots::{copied, slot_of};
use fx_base::{List, Memory, Text};
use fx_meaning::Setting;
use fx_values::{Slot, Value};
use std::alloc::Global;
use std::rc::Rc;

/// Where something is evaluated: the values of names, the inner ones behind, and the setting.
#[derive(Drop)]
pub(crate) struct Scope {
    pub(crate) outer: Rc<List<Slot>>,
    pub(crate) inner: Rc<List<Slot>>,
    pub(crate) setting: Rc<Setting>,
}

impl Scope {
    /// The same scope. Only counts of shared parts rise.
    pub(crate) fn copy(&self) -> Result<Scope, Memory>
        ensures { IfOk result (λ s. scope_of s ≡ scope_of self.now) }
    {
        Ok(Scope {
            outer: self.outer.clone()?,
            inner: self.inner.clone()?,
            setting: self.setting.clone()?,
        })
    }

    /// The scope with a value more behind. Values are copied only where others hold them too.
    pub(crate) fn extended(self, alloc: Global, label: Text, value: Value) -> Result<Scope, Memory>
        ensures { IfOk result (λ s. scope_of s ≡ with_value (scope_of self) label (val value)) }
    {
        let Scope {
            outer,
            inner,
            setting,
        } = self;
        let mut values = owned(alloc, inner)?;
        values.push(slot_of(label, value))?;
        Ok(Scope {
            outer,
            inner: Rc::new(alloc, values)?,
            setting,
        })
    }
}

fn owned(alloc: Global, slots: Rc<List<Slot>>) -> Result<List<Slot>, Memory>
    ensures { IfOk result (λ own. map slot own ≡ map slot slots.value) }
{
    match Rc::try_unwrap(slots) {
        Ok(own) => Ok(own),
        Err(shared) => copied(alloc, shared.as_ref().as_slice()),
    }
}
