//! The arguments of a call by their place. An argument that is null reads as None.
ghost use Rattle.std.specs.Prelude.{◌≡◌, IfOk, map};
ghost use Rattle.std.specs.Option.{option_map};
ghost use Rattle.fx_ops.specs.Arguments.{text_at, int_at, time_at, texts_in};

use fx_base::{Memory, Text};
use fx_value::Scalar;
use std::alloc::Global;

pub fn text_at(args: &[Scalar], place: usize) -> Option<&Text>
    ensures { option_map (λ text. text.now) result ≡ text_at args.now place }
{
    match args.get(place)? {
        Scalar::Text(text) => Some(text),
        Scalar::Null | Scalar::Bool(_) | Scalar::Int(_) | Scalar::Time(_) => None,
    }
}

pub fn int_at(args: &[Scalar], place: usize) -> Option<i64>
    ensures { result ≡ int_at args.now place }
{
    match args.get(place)? {
        Scalar::Int(n) => Some(*n),
        Scalar::Null | Scalar::Bool(_) | Scalar::Text(_) | Scalar::Time(_) => None,
    }
}

pub fn time_at(args: &[Scalar], place: usize) -> Option<i64>
    ensures { result ≡ time_at args.now place }
{
    match args.get(place)? {
        Scalar::Time(t) => Some(*t),
        Scalar::Null | Scalar::Bool(_) | Scalar::Int(_) | Scalar::Text(_) => None,
    }
}

/// All texts, or None where an argument is none.
pub fn texts_in(alloc: Global, args: &[Scalar]) -> Result<Option<Vec<&str>>, Memory>
    ensures { IfOk result (λ found. option_map (λ texts. map (λ text. text.now) texts.items) found ≡ texts_in args.now) }
{
    let mut texts = Vec::new(alloc);
    for arg in args {
        let Scalar::Text(text) = arg else {
            return Ok(None);
        };
        texts.push(text.as_str())?;
    }
    Ok(Some(texts))
}
