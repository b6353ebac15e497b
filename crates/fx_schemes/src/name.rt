//! The built-ins by package and name.
ghost use Rattle.std.specs.Prelude.{◌≡◌, option_map, slice_get};
ghost use Rattle.fx_schemes.specs.Names.{all, builtin_of, id_of, number_of, universe_of, stream_of, value_of, array_of, date_of, join_of, series_of, string_of};

use crate::list::Builtin;
use fx_base::Text;
use fx_table::CaseTable;

/// A built-in, by its number.
#[derive(Clone, Copy, Debug, PartialEq, Eq)]
pub struct BuiltinId {
    pub number: u32,
}

/// The built-in of this name, or None where the package has none of it. The package of the
/// names that need no import is the empty text.
pub fn builtin(from: &Text, name: &Text) -> Option<BuiltinId>
    ensures { result ≡ option_map id_of (builtin_of from.now name.now) }
{
    match named(from.as_str(), name.as_bytes()) {
        Some(builtin) => Some(BuiltinId {
            number: number(builtin),
        }),
        None => None,
    }
}

/// The built-in of this name.
fn named(from: &str, name: &[u8]) -> Option<Builtin>
    ensures { result ≡ builtin_of from.now name.now }
{
    if from == "" {
        return universe_named(name);
    }
    if from == "array" {
        return array_named(name);
    }
    if from == "date" {
        return date_named(name);
    }
    if from == "join" {
        return join_named(name);
    }
    if from == "series" {
        return series_named(name);
    }
    if from == "strings" {
        return string_named(name);
    }
    None
}

/// What needs no import.
fn universe_named(name: &[u8]) -> Option<Builtin>
    ensures { result ≡ universe_of name.now }
{
    match stream_named(name) {
        Some(builtin) => Some(builtin),
        None => value_named(name),
    }
}

macro_rules! names {
    ($($name:literal is $builtin:ident),*) => { [$(($name, Builtin::$builtin)),*] };
}

/// What makes or takes streams, and needs no import, by rising name.
static STREAMS: [(&[u8], Builtin); 31] = names![
    b"aggregateWindow" is AggregateWindow,
    b"count" is Count,
    b"cumulativeSum" is CumulativeSum,
    b"difference" is Difference,
    b"distinct" is Distinct,
    b"drop" is Drop,
    b"duplicate" is Duplicate,
    b"elapsed" is Elapsed,
    b"fill" is Fill,
    b"filter" is Filter,
    b"first" is First,
    b"from" is From,
    b"group" is Group,
    b"keep" is Keep,
    b"last" is Last,
    b"limit" is Limit,
    b"map" is Map,
    b"max" is Max,
    b"min" is Min,
    b"pivot" is Pivot,
    b"range" is Range,
    b"reduce" is Reduce,
    b"rename" is Rename,
    b"set" is Set,
    b"sort" is Sort,
    b"spread" is Spread,
    b"sum" is Sum,
    b"tail" is Tail,
    b"union" is Union,
    b"window" is Window,
    b"yield" is Yield
];

/// What makes or takes streams, and needs no import.
fn stream_named(name: &[u8]) -> Option<Builtin>
    ensures { result ≡ stream_of name.now }
{
    match CaseTable::over(&STREAMS) {
        Some(table) => table.find(&name).copied(),
        None => unreachable!(),
    }
}

/// What takes no stream, and needs no import, by rising name.
static VALUES: [(&[u8], Builtin); 9] = names![
    b"bool" is Bool,
    b"contains" is Contains,
    b"false" is False,
    b"int" is Int,
    b"length" is Length,
    b"now" is Now,
    b"string" is String,
    b"time" is Time,
    b"true" is True
];

/// What takes no stream, and needs no import.
fn value_named(name: &[u8]) -> Option<Builtin>
    ensures { result ≡ value_of name.now }
{
    match CaseTable::over(&VALUES) {
        Some(table) => table.find(&name).copied(),
        None => unreachable!(),
    }
}

/// Package `array`, by rising name.
static ARRAYS: [(&[u8], Builtin); 1] = names![
    b"from" is ArrayFrom
];

/// Package `array`.
fn array_named(name: &[u8]) -> Option<Builtin>
    ensures { result ≡ array_of name.now }
{
    match CaseTable::over(&ARRAYS) {
        Some(table) => table.find(&name).copied(),
        None => unreachable!(),
    }
}

/// Package `date`, by rising name.
static DATES: [(&[u8], Builtin); 12] = names![
    b"add" is Add,
    b"hour" is Hour,
    b"minute" is Minute,
    b"month" is Month,
    b"monthDay" is MonthDay,
    b"nanosecond" is Nanosecond,
    b"second" is Second,
    b"sub" is Sub,
    b"truncate" is Truncate,
    b"weekDay" is WeekDay,
    b"year" is Year,
    b"yearDay" is YearDay
];

/// Package `date`.
fn date_named(name: &[u8]) -> Option<Builtin>
    ensures { result ≡ date_of name.now }
{
    match CaseTable::over(&DATES) {
        Some(table) => table.find(&name).copied(),
        None => unreachable!(),
    }
}

/// Package `join`, by rising name.
static JOINS: [(&[u8], Builtin); 5] = names![
    b"full" is JoinFull,
    b"inner" is JoinInner,
    b"left" is JoinLeft,
    b"right" is JoinRight,
    b"time" is JoinTime
];

/// Package `join`.
fn join_named(name: &[u8]) -> Option<Builtin>
    ensures { result ≡ join_of name.now }
{
    match CaseTable::over(&JOINS) {
        Some(table) => table.find(&name).copied(),
        None => unreachable!(),
    }
}

/// Package `series`, by rising name.
static SERIES: [(&[u8], Builtin); 2] = names![
    b"bools" is Bools,
    b"texts" is Texts
];

/// Package `series`.
fn series_named(name: &[u8]) -> Option<Builtin>
    ensures { result ≡ series_of name.now }
{
    match CaseTable::over(&SERIES) {
        Some(table) => table.find(&name).copied(),
        None => unreachable!(),
    }
}

/// Package `strings`, by rising name.
static STRINGS: [(&[u8], Builtin); 11] = names![
    b"containsStr" is ContainsStr,
    b"hasPrefix" is HasPrefix,
    b"hasSuffix" is HasSuffix,
    b"joinStr" is JoinStr,
    b"repeat" is Repeat,
    b"replaceAll" is ReplaceAll,
    b"split" is Split,
    b"strlen" is Strlen,
    b"substring" is Substring,
    b"trimPrefix" is TrimPrefix,
    b"trimSuffix" is TrimSuffix
];

/// Package `strings`.
fn string_named(name: &[u8]) -> Option<Builtin>
    ensures { result ≡ string_of name.now }
{
    match CaseTable::over(&STRINGS) {
        Some(table) => table.find(&name).copied(),
        None => unreachable!(),
    }
}

/// The number of the built-in.
fn number(builtin: Builtin) -> u32
    ensures { result ≡ number_of builtin }
{
    builtin as u32
}

macro_rules! numbers {
    ($($builtin:ident),*) => {
        [$(Builtin::$builtin),*]
    };
}

/// The built-in of this number, or None where there are no more than it.
pub(crate) fn numbered(number: u32) -> Option<Builtin>
    ensures { result ≡ slice_get all number }
{
    let all = numbers![
        From,
        Texts,
        Bools,
        ArrayFrom,
        Range,
        Filter,
        Map,
        Group,
        Union,
        Window,
        AggregateWindow,
        Reduce,
        Yield,
        Count,
        Sum,
        Spread,
        Distinct,
        Min,
        Max,
        First,
        Last,
        Keep,
        Drop,
        Rename,
        Duplicate,
        Set,
        Fill,
        Sort,
        Limit,
        Tail,
        Difference,
        CumulativeSum,
        Elapsed,
        Pivot,
        JoinInner,
        JoinLeft,
        JoinRight,
        JoinFull,
        JoinTime,
        True,
        False,
        Now,
        Int,
        String,
        Bool,
        Time,
        Length,
        Contains,
        ContainsStr,
        HasPrefix,
        HasSuffix,
        Strlen,
        Substring,
        TrimPrefix,
        TrimSuffix,
        ReplaceAll,
        Split,
        JoinStr,
        Repeat,
        Year,
        Month,
        MonthDay,
        YearDay,
        WeekDay,
        Hour,
        Minute,
        Second,
        Nanosecond,
        Truncate,
        Add,
        Sub
    ];
    at(&all, number)
}

/// The built-in at this place, or None where the list is no longer.
fn at(builtins: &[Builtin], place: u32) -> Option<Builtin>
    ensures { result ≡ slice_get builtins.now place }
{
    builtins.get(place as usize).copied()
}
