//! The functions on texts. Each is null where one of its arguments is, and a text that it gives is
//! TooLarge where it has more than 1,048,576 bytes.
ghost use Rattle.std.specs.Prelude.{◌≡◌, ◌≢◌, nat_eq, map, Err};
ghost use Rattle.std.specs.List.{starts_with, ends_with};
ghost use Rattle.fx_ops.specs.Answer.{Gives};
ghost use Rattle.fx_ops.specs.Limit.{limited};
ghost use Rattle.fx_ops.specs.Call.{tested, made, replaced_in, joined_in, repeated_in};
ghost use Rattle.fx_ops.specs.Texts.{occurs, without_front, without_back, replaced, joined, repeated};
ghost use Rattle.fx_ops.specs.declared.fault.OpFault.TheVariants.{Memory};

use crate::arguments::{int_at, text_at, texts_in};
use crate::fault::OpFault;
use crate::limit::{kept, limited};
use crate::parts::parts;
use crate::row::{copies, in_a_row};
use fx_base::{FaultKind, Text};
use fx_value::Scalar;
use std::alloc::Global;

/// Whether the second text stands in the first.
pub fn contains_str(args: &[Scalar]) -> Result<Scalar, OpFault>
    ensures answer { Gives (tested (λ text part. occurs part text) args.now) result }
    ensures memory { result ≢ Err Memory }
{
    let Some(text) = text_at(args, 0) else {
        return Ok(Scalar::Null);
    };
    let Some(part) = text_at(args, 1) else {
        return Ok(Scalar::Null);
    };
    Ok(Scalar::Bool(text.as_str().contains(part.as_str())))
}

/// Whether the first text begins with the second.
pub fn has_prefix(args: &[Scalar]) -> Result<Scalar, OpFault>
    ensures answer { Gives (tested (λ text front. starts_with nat_eq text front) args.now) result }
    ensures memory { result ≢ Err Memory }
{
    let Some(text) = text_at(args, 0) else {
        return Ok(Scalar::Null);
    };
    let Some(front) = text_at(args, 1) else {
        return Ok(Scalar::Null);
    };
    Ok(Scalar::Bool(text.as_str().starts_with(front.as_str())))
}

/// Whether the first text ends with the second.
pub fn has_suffix(args: &[Scalar]) -> Result<Scalar, OpFault>
    ensures answer { Gives (tested (λ text back. ends_with nat_eq text back) args.now) result }
    ensures memory { result ≢ Err Memory }
{
    let Some(text) = text_at(args, 0) else {
        return Ok(Scalar::Null);
    };
    let Some(back) = text_at(args, 1) else {
        return Ok(Scalar::Null);
    };
    Ok(Scalar::Bool(text.as_str().ends_with(back.as_str())))
}

/// The first text without the second at its front, if it is there.
pub fn trim_prefix(alloc: Global, args: &[Scalar]) -> Result<Scalar, OpFault>
    ensures { Gives (made (λ text front. without_front front text) args.now) result }
{
    let Some(text) = text_at(args, 0) else {
        return Ok(Scalar::Null);
    };
    let Some(front) = text_at(args, 1) else {
        return Ok(Scalar::Null);
    };
    without_front(alloc, text, front.as_str())
}

fn without_front(alloc: Global, text: &Text, front: &str) -> Result<Scalar, OpFault>
    ensures { Gives (limited (without_front front.now text.now)) result }
{
    match text.as_str().strip_prefix(front) {
        Some(rest) => limited(alloc, rest),
        None => kept(text),
    }
}

/// The first text without the second at its end, if it is there.
pub fn trim_suffix(alloc: Global, args: &[Scalar]) -> Result<Scalar, OpFault>
    ensures { Gives (made (λ text back. without_back back text) args.now) result }
{
    let Some(text) = text_at(args, 0) else {
        return Ok(Scalar::Null);
    };
    let Some(back) = text_at(args, 1) else {
        return Ok(Scalar::Null);
    };
    without_back(alloc, text, back.as_str())
}

fn without_back(alloc: Global, text: &Text, back: &str) -> Result<Scalar, OpFault>
    ensures { Gives (limited (without_back back.now text.now)) result }
{
    match text.as_str().strip_suffix(back) {
        Some(rest) => limited(alloc, rest),
        None => kept(text),
    }
}

/// The first text with the third in place of each second one, from the left.
pub fn replace_all(alloc: Global, args: &[Scalar]) -> Result<Scalar, OpFault>
    ensures { Gives (replaced_in args.now) result }
{
    let Some(text) = text_at(args, 0) else {
        return Ok(Scalar::Null);
    };
    let Some(old) = text_at(args, 1) else {
        return Ok(Scalar::Null);
    };
    let Some(new) = text_at(args, 2) else {
        return Ok(Scalar::Null);
    };
    replaced(alloc, text, old.as_str(), new.as_str())
}

fn replaced(alloc: Global, text: &Text, old: &str, new: &str) -> Result<Scalar, OpFault>
    ensures { Gives (limited (replaced text.now old.now new.now)) result }
{
    let parts = parts(alloc, text.as_str(), old)?;
    if parts.len() == 1 {
        return kept(text);
    }
    in_a_row(alloc, parts.as_slice(), new)
}

/// The texts behind the first with the first between them.
pub fn join_str(alloc: Global, args: &[Scalar]) -> Result<Scalar, OpFault>
    ensures { Gives (joined_in args.now) result }
{
    let Some(texts) = texts_in(alloc, args)? else {
        return Ok(Scalar::Null);
    };
    joined(alloc, texts.as_slice())
}

fn joined(alloc: Global, texts: &[&str]) -> Result<Scalar, OpFault>
    ensures { Gives (limited (joined (map (λ text. text.now) texts.now))) result }
{
    match texts {
        [by, texts @ ..] => in_a_row(alloc, texts, by),
        [] => limited(alloc, ""),
    }
}

/// So many copies of the text, or IndexRange for a negative number.
pub fn repeat(alloc: Global, args: &[Scalar]) -> Result<Scalar, OpFault>
    ensures { Gives (repeated_in args.now) result }
{
    let Some(text) = text_at(args, 0) else {
        return Ok(Scalar::Null);
    };
    let Some(count) = int_at(args, 1) else {
        return Ok(Scalar::Null);
    };
    repeated(alloc, text.as_str(), count)
}

fn repeated(alloc: Global, text: &str, count: i64) -> Result<Scalar, OpFault>
    ensures { Gives (repeated text.now count) result }
{
    if count < 0 {
        return Err(OpFault::Kind(FaultKind::IndexRange));
    }
    copies(alloc, text, count as u64)
}
