//! Values as texts.
ghost use Rattle.std.specs.Prelude.{◌≡◌, ◌++◌, OnOk};
ghost use Rattle.std.specs.Fmt.{signed_decimal};
ghost use Rattle.fx_csv.specs.Cells.{bool_text, datatype, scalar_text};
ghost use Rattle.fx_time.specs.Time.{time_text};

use fx_base::Memory;
use fx_time::push_time;
use fx_value::{Kind, Scalar};
use itoa::Buffer;

/// Adds the text of a value at the end.
pub(crate) fn push_text(out: &mut Vec<u8>, value: &Scalar) -> Result<(), Memory>
    ensures { OnOk result (out.new.items ≡ out.old.items ++ scalar_text value.now) }
{
    match value {
        Scalar::Null => Ok(()),
        Scalar::Bool(flag) => push_bool(out, flag),
        Scalar::Int(number) => push_int(out, number),
        Scalar::Text(text) => Ok(out.extend_from_slice(text.as_bytes())?),
        Scalar::Time(time) => push_time_at(out, time),
    }
}

pub(crate) fn push_bool(out: &mut Vec<u8>, flag: &bool) -> Result<(), Memory>
    ensures { OnOk result (out.new.items ≡ out.old.items ++ bool_text flag.now) }
{
    Ok(out.extend_from_slice(bool_text(*flag))?)
}

/// Adds an integer in decimal.
pub(crate) fn push_int(out: &mut Vec<u8>, number: &i64) -> Result<(), Memory>
    ensures { OnOk result (out.new.items ≡ out.old.items ++ signed_decimal number.now) }
{
    Ok(out.extend_from_slice(Buffer::new().format(*number).as_bytes())?)
}

/// Adds a time as RFC 3339 writes it.
pub(crate) fn push_time_at(out: &mut Vec<u8>, time: &i64) -> Result<(), Memory>
    ensures { OnOk result (out.new.items ≡ out.old.items ++ time_text time.now) }
{
    push_time(out, *time)
}

pub(crate) fn bool_text(flag: bool) -> &'static [u8]
    ensures { result.now ≡ bool_text flag }
{
    if flag { b"true" } else { b"false" }
}

/// The datatype of a column by the kind of its values.
pub(crate) fn datatype(kind: Option<Kind>) -> &'static [u8]
    ensures { result.now ≡ datatype kind }
{
    match kind {
        None | Some(Kind::Text) => b"string",
        Some(Kind::Bool) => b"boolean",
        Some(Kind::Int) => b"long",
        Some(Kind::Time) => b"dateTime:RFC3339",
    }
}
