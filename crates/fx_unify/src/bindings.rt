//! Bindings of variables.

ghost use Rattle.fx_unify.specs.Below.{IsBelow, IsBelow-prop};

use crate::bound::Bound;
use crate::store::Store;
use fx_types::Ty;

/// Which types, fields and rows variables stand for, as far as it is known.
#[derive(Debug, Drop)]
pub struct Bindings {
    pub(crate) store: Store,
    pub(crate) bounds: Vec<Bound>,
    // terms that are types
    pub(crate) also: Vec<Ty>,
    // more than each number that is used
    pub(crate) next: u64,
    ghost below: { IsBelow next store bounds.items also.items } by { IsBelow-prop next store bounds.items also.items },
}
