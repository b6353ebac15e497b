//! Texts that are put together of others. One that would be too long is left before it is.
ghost use Rattle.std.specs.Prelude.{◌≡◌, ◌<◌, ◌++◌, length, IfOk, IsTrue, OnOk, IsErrOf};
ghost use Rattle.std.specs.List.{concat, flat_map, join_by, repeat};
ghost use Rattle.std.specs.String.{string_bytes};
ghost use Rattle.fx_base.specs.declared.fault.FaultKind.{FaultKind};
ghost use Rattle.fx_base.specs.declared.fault.FaultKind.TheVariants.{TooLarge};
ghost use Rattle.fx_ops.specs.Answer.{Gives};
ghost use Rattle.fx_ops.specs.Kinds.{in_range};
ghost use Rattle.fx_ops.specs.Limit.{limited};
ghost use Rattle.fx_ops.specs.declared.fault.OpFault.TheVariants.{Kind};

use crate::fault::OpFault;
use crate::limit::{MOST, limited};
use fx_base::{FaultKind, List, Text};
use fx_value::Scalar;
use std::alloc::Global;

/// Adds a piece at the end, or is TooLarge where the text would have more than 1,048,576 bytes.
fn add(text: &mut String, piece: &str) -> Result<(), OpFault>
    ensures ok { OnOk result (string_bytes text.new ≡ string_bytes text.old ++ piece.now) }
    ensures fault { (kind : FaultKind) → IsErrOf result (Kind kind) → (kind ≡ TooLarge) × (1_048_576 < length (string_bytes text.old ++ piece.now)) }
{
    if text.len() > MOST || piece.len() > MOST - text.len() {
        return Err(OpFault::Kind(FaultKind::TooLarge));
    }
    text.push_str(piece)?;
    Ok(())
}

/// Adds two pieces, as `add` does one.
fn add_both(text: &mut String, first: &str, second: &str) -> Result<(), OpFault>
    ensures ok { OnOk result (string_bytes text.new ≡ string_bytes text.old ++ (first.now ++ second.now)) }
    ensures fault { (kind : FaultKind) → IsErrOf result (Kind kind) → (kind ≡ TooLarge) × (1_048_576 < length (string_bytes text.old ++ (first.now ++ second.now))) }
{
    add(text, first)?;
    add(text, second)
}

/// One text behind another.
pub fn joined(alloc: Global, first: &str, second: &str) -> Result<Scalar, OpFault>
    ensures { Gives (limited (first.now ++ second.now)) result }
{
    let mut row = String::new(alloc);
    add_both(&mut row, first, second)?;
    limited(alloc, row.as_str())
}

/// The texts in a row, or TooLarge where together they have more than 1,048,576 bytes.
pub fn join_texts(alloc: Global, texts: &List<Text>) -> Result<Scalar, OpFault>
    ensures answer { Gives (limited (concat texts.now)) result }
    ensures range { IfOk result (λ value. IsTrue (in_range value)) }
{
    in_one(alloc, texts.as_slice())
}

fn in_one(alloc: Global, texts: &[Text]) -> Result<Scalar, OpFault>
    ensures { Gives (limited (concat texts.now)) result }
{
    let mut row = String::new(alloc);
    for text in texts {
        add(&mut row, text.as_str())?;
    }
    limited(alloc, row.as_str())
}

/// The texts in a row with another between them.
pub fn in_a_row(alloc: Global, texts: &[&str], by: &str) -> Result<Scalar, OpFault>
    ensures { Gives (limited (join_by (λ text. text.now) by.now texts.now)) result }
{
    match texts {
        [first, others @ ..] => behind(alloc, first, others, by),
        [] => limited(alloc, ""),
    }
}

/// A text and others behind it, each behind the one that separates them.
fn behind(alloc: Global, first: &str, others: &[&str], by: &str) -> Result<Scalar, OpFault>
    ensures { Gives (limited (first.now ++ flat_map (λ other. by.now ++ other.now) others.now)) result }
{
    let mut row = String::new(alloc);
    add(&mut row, first)?;
    for other in others {
        add_both(&mut row, by, other)?;
    }
    limited(alloc, row.as_str())
}

/// So many copies of a text in a row.
pub fn copies(alloc: Global, text: &str, count: u64) -> Result<Scalar, OpFault>
    ensures { Gives (limited (repeat count text.now)) result }
{
    if text.is_empty() {
        return limited(alloc, "");
    }
    let mut row = String::new(alloc);
    for copy in 0..count {
        add(&mut row, text)?;
    }
    limited(alloc, row.as_str())
}
