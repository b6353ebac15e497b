ghost use Rattle.std.specs.Prelude.{◌≡◌};
ghost use Rattle.fx_ops.specs.Binary.{work_of};

use crate::operator::BinaryOp;
use fx_table::CaseTable;
use fx_value::Kind;

/// What operators do to two operands of one kind.
#[derive(Clone, Copy, Debug, PartialEq, Eq)]
pub(crate) enum Work {
    Plus,
    Minus,
    Times,
    Over,
    Rest,
    Join,
    Equal,
    Differ,
    Less,
    AtMost,
    More,
    AtLeast,
}

macro_rules! works {
    ($($which:ident $kind:ident is $work:ident),*) => {
        [$(((BinaryOp::$which, Kind::$kind), Work::$work)),*]
    };
}

/// What an operator does to operands of a kind, or None where it takes no such operands.
pub(crate) fn work_of(which: BinaryOp, kind: Kind) -> Option<Work>
    ensures { result ≡ work_of which kind }
{
    let rows: [((BinaryOp, Kind), Work); 26] = works![
        Add Int is Plus, Add Text is Join, Sub Int is Minus, Mul Int is Times,
        Div Int is Over, Rem Int is Rest,
        Eq Bool is Equal, Eq Int is Equal, Eq Text is Equal, Eq Time is Equal,
        Ne Bool is Differ, Ne Int is Differ, Ne Text is Differ, Ne Time is Differ,
        Lt Int is Less, Lt Text is Less, Lt Time is Less,
        Le Int is AtMost, Le Text is AtMost, Le Time is AtMost,
        Gt Int is More, Gt Text is More, Gt Time is More,
        Ge Int is AtLeast, Ge Text is AtLeast, Ge Time is AtLeast
    ];
    match CaseTable::over(&rows) {
        Some(table) => table.find(&(which, kind)).copied(),
        None => unreachable!(),
    }
}
