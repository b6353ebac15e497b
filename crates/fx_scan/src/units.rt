ghost use Rattle.std.specs.Prelude.{◌≡◌};
ghost use Rattle.fx_scan.specs.Tables.{unit_of};

use fx_table::CaseTable;

/// What one unit of a span is worth: months of the calendar, or nanoseconds.
#[derive(Clone, Copy, Debug, PartialEq, Eq)]
pub enum Unit {
    Months(u64),
    Nanos(u64),
}

macro_rules! units {
    ($($text:literal is $sort:ident($size:literal)),*) => { [$(($text, Unit::$sort($size))),*] };
}

/// The unit that is this text in UTF-8, or None where it is none.
pub fn unit_of(text: &[u8]) -> Option<Unit>
    ensures { result ≡ unit_of text.now }
{
    let rows: [(&[u8], Unit); 11] = units![
        b"d" is Nanos(86_400_000_000_000), b"h" is Nanos(3_600_000_000_000),
        b"m" is Nanos(60_000_000_000), b"mo" is Months(1), b"ms" is Nanos(1_000_000),
        b"ns" is Nanos(1), b"s" is Nanos(1_000_000_000), b"us" is Nanos(1_000),
        b"w" is Nanos(604_800_000_000_000), b"y" is Months(12), b"\xc2\xb5s" is Nanos(1_000)
    ];
    match CaseTable::over(&rows) {
        Some(table) => table.find(&text).copied(),
        None => unreachable!(),
    }
}
