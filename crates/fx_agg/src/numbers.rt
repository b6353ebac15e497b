ghost use Rattle.std.specs.Prelude.{◌≡◌, ◌≢◌, ◌+◌, ℕ, ℤ, pos, ◌+ℤ◌, ◌-ℤ◌, length, List as AnyList, None as Nothing, Some as Just, option_map, option_to_list, IfSome};
ghost use Rattle.std.specs.Int.{int_min, int_max};
ghost use Rattle.fx_value.specs.Calls.{Told};
ghost use Rattle.fx_value.specs.Ends.{End, Gives, Stuck};
ghost use Rattle.fx_value.specs.Works.{into};
ghost use Rattle.fx_value.specs.declared.scalar.Scalar.{Scalar as AnyScalar};
ghost use Rattle.fx_agg.specs.Numbers.{int_of, integers, whole, summed, spread_over};
ghost use Rattle.fx_agg.specs.Tally.{with_int, tallied, IsOfAtMost, IsRoomy};

use fx_base::{Fault, FaultKind, Halt, Place, Text};
use fx_value::{Row, Scalar};

/// The sum, the least and the greatest of some integers.
#[derive(Clone, Copy)]
struct Tally {
    sum: i128,
    least: i64,
    greatest: i64,
}

fn int_at(value: Option<&Scalar>) -> Option<i64>
    requires { ◌≢◌ {A = End (AnyList ℤ)} (int_of (option_map (λ v. v.now) value)) Stuck }
    ensures { int_of (option_map (λ v. v.now) value.entry) ≡ Gives (option_to_list result) 0 }
{
    match value {
        Some(Scalar::Int(n)) => Some(*n),
        Some(Scalar::Null) => None,
        None => None,
        Some(_) => unreachable!(),
    }
}

fn lesser(a: i64, b: i64) -> i64
    ensures { result ≡ int_min a b }
{
    if b < a { b } else { a }
}

fn greater(a: i64, b: i64) -> i64
    ensures { result ≡ int_max a b }
{
    if b < a { a } else { b }
}

fn gap(a: i64, b: i64) -> i128
    ensures { result ≡ a -ℤ b }
{
    a as i128 - b as i128
}

fn plus(sum: i128, n: i64) -> i128
    requires { IsRoomy sum }
    ensures sum { result ≡ sum +ℤ n }
    ensures room { (count : ℕ) → IsOfAtMost count sum → IsOfAtMost (count + 1) result }
{
    sum + n as i128
}

fn with_int(tally: Tally, n: i64) -> Tally
    requires { IsRoomy tally.sum }
    ensures tally { result ≡ with_int (Just tally) n }
    ensures room { (count : ℕ) → IsOfAtMost count tally.sum → IsOfAtMost (count + 1) result.sum }
{
    Tally {
        sum: plus(tally.sum, n),
        least: lesser(tally.least, n),
        greatest: greater(tally.greatest, n),
    }
}

/// The tally with one more integer, where there is one.
fn more(tally: Option<Tally>, value: Option<i64>) -> Option<Tally>
    requires { IfSome tally (λ t. IsRoomy t.sum) }
    ensures tally { result ≡ tallied tally (option_to_list value) }
    ensures room { (count : ℕ) → IfSome tally (λ t. IsOfAtMost count t.sum) → IfSome result (λ t. IsOfAtMost (count + 1) t.sum) }
{
    match (tally, value) {
        (tally, None) => tally,
        (None, Some(n)) => Some(Tally {
            sum: n as i128,
            least: n,
            greatest: n,
        }),
        (Some(tally), Some(n)) => Some(with_int(tally, n)),
    }
}

/// The tally of the integers of the column. No sum of as many as memory holds leaves 128 bits.
fn tally_of(column: &Text, rows: &[Row]) -> Option<Tally>
    requires { ◌≢◌ {A = End (AnyList ℤ)} (integers column.now rows.now) Stuck }
    ensures { into tallied Nothing (integers column.now rows.now) ≡ Gives result 0 }
{
    let mut tally = None;
    let mut place = 0;
    for row in rows {
        tally = more(tally, int_at(row.get_near(column, &mut place)));
    }
    tally
}

/// The integer, or Overflow outside 64 bits.
fn whole(n: i128, place: Place) -> Result<Scalar, Halt>
    ensures { Told (whole place n) result }
{
    match i64::try_from(n) {
        Ok(n) => Ok(Scalar::Int(n)),
        Err(_) => Err(Halt::Fault(Fault {
            kind: FaultKind::Overflow,
            place,
        })),
    }
}

/// The number of rows.
pub(crate) fn count(rows: &[Row], place: Place) -> Result<Scalar, Halt>
    ensures { Told (whole place (pos (length rows.now))) result }
{
    whole(rows.len() as i128, place)
}

/// The exact sum of the integers of the column, or null where there are none.
pub(crate) fn sum(column: &Text, rows: &[Row], place: Place) -> Result<Scalar, Halt>
    requires { ◌≢◌ {A = End AnyScalar} (summed place column.now rows.now) Stuck }
    ensures { Told (summed place column.now rows.now) result }
{
    match tally_of(column, rows) {
        None => Ok(Scalar::Null),
        Some(tally) => whole(tally.sum, place),
    }
}

/// The greatest integer of the column less the least, or null where there are none.
pub(crate) fn spread(column: &Text, rows: &[Row], place: Place) -> Result<Scalar, Halt>
    requires { ◌≢◌ {A = End AnyScalar} (spread_over place column.now rows.now) Stuck }
    ensures { Told (spread_over place column.now rows.now) result }
{
    match tally_of(column, rows) {
        None => Ok(Scalar::Null),
        Some(tally) => whole(gap(tally.greatest, tally.least), place),
    }
}
