//! A cursor over the items of a script.

ghost use Rattle.std.specs.Prelude.{◌≡◌, drop, length, option_copied};
ghost use Rattle.fx_parse.specs.Items.{first, start, passes, one_of, is_name, is_plain, is_label, is_head, is_literal, is_mid, is_tail, is_with, is_word, is_symbol, is_task};
ghost use Rattle.fx_parse.specs.Grammar.{joins};
ghost use Rattle.fx_parse.specs.Closing.{closing};
ghost use Rattle.fx_parse.specs.Readings.{token};
ghost use Rattle.fx_parse.specs.ReadPrimary.{begins, sees_with};
ghost use Rattle.fx_parse.specs.ReadRuns.{suffix_starters};
ghost use Rattle.fx_parse.specs.Cursor.{Gives, taken};

use crate::item::Item;
use crate::predicates;
use crate::stop::Stop;
use fx_base::Place;
use fx_scan::{Symbol, Word};
use std::marker::Model;

#[derive(Drop)]
pub(crate) struct Cursor<'a> {
    left: &'a [Item],
}

impl<'a> Model for Cursor<'a> {
    ghost use Rattle.std.specs.Prelude.{List};
    ghost use Rattle.fx_parse.specs.declared.item.Item.{Item};

    ghost Value = { List Item };

    ghost view = { λ c. c.left.now };
}

impl<'a> Cursor<'a> {
    pub(crate) fn of(items: &'a [Item]) -> Cursor<'a>
        ensures { result ≡ items.now }
    {
        Cursor { left: items }
    }

    /// How many items are left.
    pub(crate) fn count(&self) -> usize
        ensures { result ≡ length self.now }
    {
        self.left.len()
    }

    pub(crate) fn peek(&self) -> Option<&'a Item>
        ensures { option_copied result ≡ first self.now }
    {
        self.left.first()
    }

    /// The item after the next one.
    pub(crate) fn peek_after(&self) -> Option<&'a Item>
        ensures { option_copied result ≡ first (drop 1 self.now) }
    {
        match self.left.split_first() {
            Some((_, rest)) => rest.first(),
            None => None,
        }
    }

    /// The item so many places after the next one.
    pub(crate) fn ahead(&self, places: usize) -> Option<&'a Item>
        ensures { option_copied result ≡ first (drop places self.now) }
    {
        self.left.get(places)
    }

    /// The place of the next item, or 0 at the end.
    pub(crate) fn place(&self) -> Place
        ensures { result ≡ start self.now }
    {
        match self.left.first() {
            Some(item) => item.place,
            None => Place { at: 0 },
        }
    }

    /// The next item, where it was seen to be one that may stand here.
    pub(crate) fn take(&mut self, seen: bool) -> Result<&'a Item, Stop>
        ensures { Gives (λ x. x.now) (taken seen self.old) result self.new }
    {
        match self.left.split_first() {
            Some((item, rest)) if seen => {
                self.left = rest;
                Ok(item)
            }
            _ => Err(Stop::Refused { deep: false }),
        }
    }

    pub(crate) fn sees_symbol(&self, symbol: Symbol) -> bool
        ensures { result ≡ passes (is_symbol symbol) (first self.now) }
    {
        match self.left.first() {
            Some(item) => predicates::is_symbol(item, symbol),
            None => false,
        }
    }

    pub(crate) fn sees_word(&self, word: Word) -> bool
        ensures { result ≡ passes (is_word word) (first self.now) }
    {
        match self.left.first() {
            Some(item) => predicates::is_word(item, word),
            None => false,
        }
    }

    pub(crate) fn sees_name(&self) -> bool
        ensures { result ≡ passes (is_name) (first self.now) }
    {
        match self.left.first() {
            Some(item) => predicates::is_name(item),
            None => false,
        }
    }

    pub(crate) fn sees_plain(&self) -> bool
        ensures { result ≡ passes (is_plain) (first self.now) }
    {
        match self.left.first() {
            Some(item) => predicates::is_plain(item),
            None => false,
        }
    }

    pub(crate) fn sees_label(&self) -> bool
        ensures { result ≡ passes (is_label) (first self.now) }
    {
        match self.left.first() {
            Some(item) => predicates::is_label(item),
            None => false,
        }
    }

    pub(crate) fn sees_head(&self) -> bool
        ensures { result ≡ passes (is_head) (first self.now) }
    {
        match self.left.first() {
            Some(item) => predicates::is_head(item),
            None => false,
        }
    }

    pub(crate) fn sees_mid(&self) -> bool
        ensures { result ≡ passes (is_mid) (first self.now) }
    {
        match self.left.first() {
            Some(item) => predicates::is_mid(item),
            None => false,
        }
    }

    pub(crate) fn sees_tail(&self) -> bool
        ensures { result ≡ passes (is_tail) (first self.now) }
    {
        match self.left.first() {
            Some(item) => predicates::is_tail(item),
            None => false,
        }
    }

    pub(crate) fn sees_task(&self) -> bool
        ensures { result ≡ passes (is_task) (first self.now) }
    {
        match self.left.first() {
            Some(item) => predicates::is_called(item, "task"),
            None => false,
        }
    }

    pub(crate) fn sees_suffix(&self) -> bool
        ensures { result ≡ passes (one_of suffix_starters) (first self.now) }
    {
        match self.left.first() {
            Some(item) => predicates::begins_suffix(item),
            None => false,
        }
    }

    pub(crate) fn sees_beginning(&self) -> bool
        ensures { result ≡ passes (begins) (first self.now) }
    {
        match self.left.first() {
            Some(item) => predicates::begins(item),
            None => false,
        }
    }

    pub(crate) fn sees_joining(&self) -> bool
        ensures { result ≡ passes (joins) (first self.now) }
    {
        match self.left.first() {
            Some(item) => predicates::joins(item),
            None => false,
        }
    }

    pub(crate) fn symbol(&mut self, symbol: Symbol) -> Result<&'a Item, Stop>
        ensures { Gives (λ x. x.now) (token (is_symbol symbol) self.old) result self.new }
    {
        self.take(self.sees_symbol(symbol))
    }

    pub(crate) fn word(&mut self, word: Word) -> Result<&'a Item, Stop>
        ensures { Gives (λ x. x.now) (token (is_word word) self.old) result self.new }
    {
        self.take(self.sees_word(word))
    }

    pub(crate) fn name(&mut self) -> Result<&'a Item, Stop>
        ensures { Gives (λ x. x.now) (token (is_name) self.old) result self.new }
    {
        self.take(self.sees_name())
    }

    pub(crate) fn plain(&mut self) -> Result<&'a Item, Stop>
        ensures { Gives (λ x. x.now) (token (is_plain) self.old) result self.new }
    {
        self.take(self.sees_plain())
    }

    pub(crate) fn label(&mut self) -> Result<&'a Item, Stop>
        ensures { Gives (λ x. x.now) (token (is_label) self.old) result self.new }
    {
        self.take(self.sees_label())
    }

    pub(crate) fn head(&mut self) -> Result<&'a Item, Stop>
        ensures { Gives (λ x. x.now) (token (is_head) self.old) result self.new }
    {
        self.take(self.sees_head())
    }

    pub(crate) fn mid(&mut self) -> Result<&'a Item, Stop>
        ensures { Gives (λ x. x.now) (token (is_mid) self.old) result self.new }
    {
        self.take(self.sees_mid())
    }

    pub(crate) fn tail(&mut self) -> Result<&'a Item, Stop>
        ensures { Gives (λ x. x.now) (token (is_tail) self.old) result self.new }
    {
        self.take(self.sees_tail())
    }

    pub(crate) fn task(&mut self) -> Result<&'a Item, Stop>
        ensures { Gives (λ x. x.now) (token (is_task) self.old) result self.new }
    {
        self.take(self.sees_task())
    }

    /// Takes what closes a list, or a comma, and tells whether the list is closed.
    pub(crate) fn closes(&mut self, close: Symbol) -> Result<bool, Stop>
        ensures { Gives (λ b. b) (closing (is_symbol close) self.old) result self.new }
    {
        if self.sees_symbol(close) {
            self.symbol(close)?;
            return Ok(true);
        }
        self.symbol(Symbol::Comma)?;
        Ok(false)
    }

    pub(crate) fn sees_literal(&self) -> bool
        ensures { result ≡ passes (is_literal) (first self.now) }
    {
        match self.left.first() {
            Some(item) => predicates::is_literal(item),
            None => false,
        }
    }

    pub(crate) fn literal(&mut self) -> Result<&'a Item, Stop>
        ensures { Gives (λ x. x.now) (token (is_literal) self.old) result self.new }
    {
        self.take(self.sees_literal())
    }

    fn sees_with_next(&self) -> bool
        ensures { result ≡ passes (is_with) (first self.now) }
    {
        match self.left.first() {
            Some(item) => predicates::is_called(item, "with"),
            None => false,
        }
    }

    pub(crate) fn with(&mut self) -> Result<&'a Item, Stop>
        ensures { Gives (λ x. x.now) (token (is_with) self.old) result self.new }
    {
        self.take(self.sees_with_next())
    }

    fn after_sees_with(&self) -> bool
        ensures { result ≡ passes (is_with) (first (drop 1 self.now)) }
    {
        match self.peek_after() {
            Some(item) => predicates::is_called(item, "with"),
            None => false,
        }
    }

    /// Whether a name and `with` are next.
    #[tactic(auto, using(crate::proofs::turns::TextLaws::with_seen))]
    pub(crate) fn sees_with(&self) -> bool
        ensures { result ≡ sees_with self.now }
    {
        self.sees_name() && self.after_sees_with()
    }
}
