//! Arrays, item by item.
ghost use Rattle.std.specs.Prelude.{◌≡◌, map, IfOk};
ghost use Rattle.fx_ast.specs.Shape.{tree_of};
ghost use Rattle.fx_ast.specs.Tree.{array};
ghost use Rattle.fx_meaning.specs.Ends.{pure};
ghost use Rattle.fx_meaning.specs.Meaning.{Tests};
ghost use Rattle.fx_meaning.specs.Value as value;
ghost use Rattle.fx_rowfn.specs.Frame as plain;
ghost use Rattle.fx_rowfn.specs.State.{Leads, frame_of, items_left, resumed_left, scope_of, shape_left, trees_from};
ghost use Rattle.fx_values.specs.Shape.{val, vals_of};
ghost use Rattle.fx_values.specs.Told.{Tells};

use crate::eval::{awaited, given};
use crate::frame::{Frame, Next};
use crate::parts::tree_at;
use crate::scope::Scope;
use fx_ast::Expr;
use fx_base::{List, Memory};
use fx_values::{Stop, Value};
use std::alloc::Global;
use std::rc::Rc;

/// The first step of an array.
pub(crate) fn arrayed(alloc: Global, scope: Scope, whole: &Expr) -> Result<Next, Stop>
    ensures { (test : Tests) → Leads (shape_left test (scope_of scope) whole.now.place (array (trees_from (tree_of whole.now) 0))) test result }
{
    items_from(alloc, scope, whole, 0, List::empty(alloc))
}

/// The value of an item is known.
pub(crate) fn item_known(
    alloc: Global,
    scope: Scope,
    done: List<Value>,
    whole: &Expr,
    next: usize,
    item: Value,
) -> Result<Next, Stop>
    ensures { (test : Tests) → Leads (resumed_left test (plain.item (scope_of scope) (vals_of (map val done)) (trees_from (tree_of whole.now) next)) (val item)) test result }
{
    let mut done = done;
    done.push(item)?;
    items_from(alloc, scope, whole, next, done)
}

/// The items from a place on, behind those that stand.
fn items_from(
    alloc: Global,
    scope: Scope,
    whole: &Expr,
    next: usize,
    done: List<Value>,
) -> Result<Next, Stop>
    ensures { (test : Tests) → Leads (items_left test (scope_of scope) (trees_from (tree_of whole.now) next) (vals_of (map val done))) test result }
{
    match tree_at(whole, next) {
        Some(expr) => {
            let frame = item(&scope, done, whole, next + 1)?;
            let next = awaited(scope, expr, frame)?;
            Ok(next)
        }
        None => given(array_of(alloc, done)),
    }
}

fn item(scope: &Scope, done: List<Value>, whole: &Expr, next: usize) -> Result<Frame, Memory>
    ensures { IfOk result (λ f. frame_of f ≡ plain.item (scope_of scope.now) (vals_of (map val done)) (trees_from (tree_of whole.now) next)) }
{
    Ok(Frame::Item {
        scope: scope.copy()?,
        done,
        array: whole.copy()?,
        next,
    })
}

fn array_of(alloc: Global, items: List<Value>) -> Result<Value, Stop>
    ensures { Tells val (pure (value.array (vals_of (map val items)))) result }
{
    let items = Rc::new(alloc, items)?;
    Ok(Value::List(items))
}
