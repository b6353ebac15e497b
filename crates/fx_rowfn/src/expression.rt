ghost use Rattle.std.specs.Prelude.{◌≡◌, IfOk, map};
ghost use Rattle.fx_ast.specs.Shape.{tree_of};
ghost use Rattle.fx_meaning.specs.Meaning.{meaning};
ghost use Rattle.fx_rowfn.specs.Follows.{Evaluates};
ghost use Rattle.fx_rowfn.specs.State.{scope_of};
ghost use Rattle.fx_value.specs.Calls.{AreGiven, IsMetered, IsReady, SamePatterns};
ghost use Rattle.fx_value.specs.Ends.{NeverStuck};
ghost use Rattle.fx_values.specs.Known.{hears, numbers_of};
ghost use Rattle.fx_values.specs.Shape.{slot, slots_of, val};

use crate::frame::Control;
use crate::run::run;
use crate::scope::Scope;
use crate::slots::copied;
use fx_ast::Expr;
use fx_base::{Halt, List, Memory, Meter, Patterns};
use fx_meaning::{Placed, Setting};
use fx_values::{Slot, Stop, Value};
use std::alloc::Global;
use std::rc::Rc;

/// The value of an expression, or its fault. The meter is raised by the ticks of its meaning, and
/// Budget comes only where these and what was spent before exceed the budget.
pub fn evaluate<P: Patterns>(
    alloc: Global,
    names: &List<Slot>,
    setting: &Rc<Setting>,
    known: &[Placed],
    expr: &Expr,
    meter: &mut Meter,
    patterns: &mut P,
) -> Result<Value, Halt>
    requires ready { IsReady meter.old }
    requires given { AreGiven (numbers_of known.now) (P.built patterns.old) }
    requires unstuck { NeverStuck (meaning (hears known.now (P.test patterns.old)) setting.now.value (tree_of expr.now) (slots_of (map slot names.now))) }
    ensures metered { IsMetered meter.old meter.new }
    ensures answer { Evaluates val (meaning (hears known.entry.now (P.test patterns.old)) setting.now.value (tree_of expr.entry.now) (slots_of (map slot names.now))) meter.old meter.new result }
    ensures patterns { SamePatterns P.built P.refusals P.test patterns.old patterns.new }
{
    let scope = named_scope(alloc, names, setting)?;
    evaluate_in(alloc, scope, known, expr, meter, patterns)
}

/// Where the names have these values, and no others have any.
fn named_scope(alloc: Global, names: &List<Slot>, setting: &Rc<Setting>) -> Result<Scope, Memory>
    ensures { IfOk result (λ s. scope_of s ≡ record { env = slots_of (map slot names.now); setting = setting.now.value }) }
{
    let names = copied(alloc, names.as_slice())?;
    Ok(Scope {
        outer: Rc::new(alloc, names)?,
        inner: Rc::new(alloc, List::empty(alloc))?,
        setting: setting.clone()?,
    })
}

fn evaluate_in<P: Patterns>(
    alloc: Global,
    scope: Scope,
    known: &[Placed],
    expr: &Expr,
    meter: &mut Meter,
    patterns: &mut P,
) -> Result<Value, Halt>
    requires ready { IsReady meter.old }
    requires given { AreGiven (numbers_of known.now) (P.built patterns.old) }
    requires unstuck { NeverStuck (meaning (hears known.now (P.test patterns.old)) (scope_of scope).setting (tree_of expr.now) (scope_of scope).env) }
    ensures metered { IsMetered meter.old meter.new }
    ensures answer { Evaluates val (meaning (hears known.entry.now (P.test patterns.old)) (scope_of scope).setting (tree_of expr.entry.now) (scope_of scope).env) meter.old meter.new result }
    ensures patterns { SamePatterns P.built P.refusals P.test patterns.old patterns.new }
{
    let expr = expr.copy()?;
    match run(alloc, known, Control::Eval { scope, expr }, meter, patterns) {
        Ok(value) => Ok(value),
        Err(Stop::Fault(fault)) => Err(Halt::Fault(fault)),
        Err(Stop::Budget { ticks }) => Err(Halt::Budget { ticks }),
        Err(Stop::Memory) => Err(Halt::Memory),
        Err(Stop::Stuck) => unreachable!(),
    }
}
