//! The functions that `aggregateWindow` takes by name.
ghost use Rattle.std.specs.Prelude.{◌≡◌};
ghost use Rattle.fx_schemes.specs.Folds.{fold_of};

use fx_table::CaseTable;

/// What the named function makes of a column.
#[derive(Clone, Copy)]
pub(crate) enum Fold {
    /// As `count`.
    Count,
    /// As `sum` and `spread`.
    Sum,
    /// As `min` and `max`.
    Extreme,
    /// As `first` and `last`.
    End,
}

macro_rules! folds {
    ($($name:literal is $fold:ident),*) => { [$(($name, Fold::$fold)),*] };
}

/// The functions by rising name.
static FOLDS: [(&[u8], Fold); 7] = folds![
    b"count" is Count,
    b"first" is End,
    b"last" is End,
    b"max" is Extreme,
    b"min" is Extreme,
    b"spread" is Sum,
    b"sum" is Sum
];

/// What the function of this name makes, or None where no function has it.
pub(crate) fn fold_of(name: &[u8]) -> Option<Fold>
    ensures { result ≡ fold_of name.now }
{
    match CaseTable::over(&FOLDS) {
        Some(table) => table.find(&name).copied(),
        None => unreachable!(),
    }
}
