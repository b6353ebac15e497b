ghost use Rattle.std.specs.Prelude.{◌≡◌};
ghost use Rattle.fx_parse.specs.Cursor.{Gives};
ghost use Rattle.fx_parse.specs.Grammar.{closer, labels};
ghost use Rattle.fx_parse.specs.Items.{first, is_symbol, passes};
ghost use Rattle.fx_parse.specs.Readings.{token};
ghost use Rattle.fx_parse.specs.Views.{group};

use crate::cursor::Cursor;
use crate::item::Item;
use crate::stop::Stop;
use fx_scan::Symbol;

/// Labels with values.
#[derive(Clone, Copy)]
pub(crate) enum Group {
    /// Of a call.
    Arguments,
    /// Of a record.
    Properties,
}

impl Group {
    /// What closes the list.
    pub(crate) fn close(self) -> Symbol
        ensures { is_symbol result ≡ closer (group self) }
    {
        match self {
            Group::Arguments => Symbol::CloseParen,
            Group::Properties => Symbol::CloseBrace,
        }
    }

    /// Whether a label is next.
    pub(crate) fn sees_label(self, cursor: &Cursor<'_>) -> bool
        ensures { result ≡ passes (labels (group self)) (first cursor.now) }
    {
        match self {
            Group::Arguments => cursor.sees_name(),
            Group::Properties => cursor.sees_label(),
        }
    }

    /// Takes a label.
    pub(crate) fn label<'a>(self, cursor: &mut Cursor<'a>) -> Result<&'a Item, Stop>
        ensures { Gives (λ x. x.now) (token (labels (group self)) cursor.old) result cursor.new }
    {
        match self {
            Group::Arguments => cursor.name(),
            Group::Properties => cursor.label(),
        }
    }
}
