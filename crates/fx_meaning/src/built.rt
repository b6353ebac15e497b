//! The functions that names stand for by themselves.
ghost use Rattle.std.specs.Prelude.{◌≡◌, IfOk, option_map, map, slice_get};
ghost use Rattle.fx_meaning.specs.Native.{built_of, named, member, path_of};
ghost use Rattle.fx_schemes.specs.Names.{all, builtin_of};

use crate::native::Native;
use crate::package::Package;
use crate::stream::StreamFn;
use fx_base::{Memory, Text};
use fx_ops::ScalarFn;
use fx_schemes::builtin;
use fx_value::Kind;
use std::alloc::Global;

/// What a name of the language is.
#[derive(Clone, Copy, Debug, PartialEq, Eq)]
pub enum Built {
    Truth(bool),
    Function(Native),
}

/// What the name is that needs no import, or None where the language has none of it.
pub fn named(alloc: Global, name: &Text) -> Result<Option<Built>, Memory>
    ensures { IfOk result (λ found. found ≡ named name.now) }
{
    found(alloc, "", name)
}

/// What the member of the package is, or None where it has none of that name.
pub fn member(alloc: Global, which: Package, name: &Text) -> Result<Option<Built>, Memory>
    ensures { IfOk result (λ found. found ≡ member which name.now) }
{
    found(alloc, path_of(which), name)
}

/// The path that an import of the package names.
pub fn path_of(which: Package) -> &'static str
    ensures { result.now ≡ path_of which }
{
    match which {
        Package::Array => "array",
        Package::Date => "date",
        Package::Join => "join",
        Package::Series => "series",
        Package::Strings => "strings",
    }
}

fn found(alloc: Global, path: &str, name: &Text) -> Result<Option<Built>, Memory>
    ensures { IfOk result (λ found. found ≡ option_map built_of (builtin_of path.now name.now)) }
{
    let path = Text::of(alloc, path)?;
    match builtin(&path, name) {
        Some(id) => Ok(numbered(id.number)),
        None => Ok(None),
    }
}

macro_rules! built {
    ($($stream:ident)*; $($truth:literal)*; $($native:expr),*; $($front:ident)*; $split:expr; $($back:ident)*) => {
        [
            $(Built::Function(Native::Stream(StreamFn::$stream)),)*
            $(Built::Truth($truth),)*
            $(Built::Function($native),)*
            $(Built::Function(Native::Scalar(ScalarFn::$front)),)*
            Built::Function($split),
            $(Built::Function(Native::Scalar(ScalarFn::$back)),)*
        ]
    };
}

/// What the built-ins are, by their numbers.
static BUILT: [Built; 71] = built![
    From Texts Bools ArrayFrom
    Range Filter Map Group Union Window AggregateWindow Reduce Yield
    Count Sum Spread Distinct Min Max First Last
    Keep DropColumns Rename Duplicate Set Fill Sort Limit Tail Difference CumulativeSum Elapsed Pivot
    JoinInner JoinLeft JoinRight JoinFull JoinTime;
    true false;
    Native::Now,
    Native::Convert(Kind::Int),
    Native::Convert(Kind::Text),
    Native::Convert(Kind::Bool),
    Native::Convert(Kind::Time),
    Native::Length,
    Native::Contains;
    ContainsStr HasPrefix HasSuffix Strlen Substring TrimPrefix TrimSuffix ReplaceAll;
    Native::Split;
    JoinStr Repeat
    Year Month MonthDay YearDay WeekDay Hour Minute Second Nanosecond Truncate Add Sub
];

/// What the built-in of this number is.
fn numbered(number: u32) -> Option<Built>
    ensures { result ≡ slice_get (map built_of all) number }
{
    at(&BUILT, number)
}

/// What stands at this place, or None where the list is no longer.
fn at(built: &[Built], place: u32) -> Option<Built>
    ensures { result ≡ slice_get built.now place }
{
    built.get(place as usize).copied()
}
