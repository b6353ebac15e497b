//! `=~` and `!~`.
ghost use Rattle.std.specs.Prelude.{◌≡◌, IfOk, ◌==◌};
ghost use Rattle.std.specs.List.{list_any};
ghost use Rattle.fx_meaning.specs.Operators as meaning;
ghost use Rattle.fx_value.specs.Calls.{AreGiven, SamePatterns};
ghost use Rattle.fx_values.specs.Known.{hears, numbers_of};
ghost use Rattle.fx_values.specs.Shape.{val};
ghost use Rattle.fx_values.specs.Told.{Tells};

use crate::forms::{cell_in, pattern_in};
use crate::stop::Stop;
use crate::value::Value;
use fx_base::{Memory, Patterns, Text};
use fx_meaning::Placed;
use fx_value::Scalar;
use std::alloc::Global;

/// Whether a text matches a pattern, or doesn't where that is asked; null for null. A pattern that
/// isn't known matches nothing.
pub fn matched<P: Patterns>(
    alloc: Global,
    known: &[Placed],
    patterns: &mut P,
    wanted: bool,
    left: &Value,
    right: &Value,
) -> Result<Value, Stop>
    requires given { AreGiven (numbers_of known.now) (P.built patterns.old) }
    ensures answer { Tells val (meaning.matched (hears known.entry.now (P.test patterns.old)) wanted (val left.now) (val right.now)) result }
    ensures patterns { SamePatterns P.built P.refusals P.test patterns.old patterns.new }
{
    let a = cell_in(left)?;
    let number = pattern_in(right)?;
    match_cell(alloc, known, patterns, wanted, number, a)
}

fn match_cell<P: Patterns>(
    alloc: Global,
    known: &[Placed],
    patterns: &mut P,
    wanted: bool,
    number: u32,
    a: &Scalar,
) -> Result<Value, Stop>
    requires given { AreGiven (numbers_of known.now) (P.built patterns.old) }
    ensures answer { Tells val (meaning.match_text (hears known.entry.now (P.test patterns.old)) wanted number a.now) result }
    ensures patterns { SamePatterns P.built P.refusals P.test patterns.old patterns.new }
{
    match a {
        Scalar::Text(text) => {
            let holds = is_heard(alloc, known, patterns, number, text)?;
            Ok(Value::Cell(Scalar::Bool(holds == wanted)))
        }
        Scalar::Null => Ok(Value::Cell(Scalar::Null)),
        _ => Err(Stop::Stuck),
    }
}

/// Whether the text matches the pattern with the number, if that is known.
fn is_heard<P: Patterns>(
    alloc: Global,
    known: &[Placed],
    patterns: &mut P,
    number: u32,
    text: &Text,
) -> Result<bool, Memory>
    requires given { AreGiven (numbers_of known.now) (P.built patterns.old) }
    ensures answer { IfOk result (λ b. b ≡ hears known.entry.now (P.test patterns.old) number text.now) }
    ensures patterns { SamePatterns P.built P.refusals P.test patterns.old patterns.new }
{
    if !is_known(known, number) {
        return Ok(false);
    }
    patterns.matches(alloc, number, text)
}

fn is_known(known: &[Placed], number: u32) -> bool
    ensures { result ≡ list_any (λ p. p.number == number) known.now }
{
    known.iter().any(|p| p.number == number)
}
