ghost use Rattle.std.specs.Prelude.{◌≡◌, ◌&&◌, true, false, ℕ, ◌==◌, ◌≤◌, ◌↔◌, ◌⊎◌, OnOk, if◌then◌else◌};
ghost use Rattle.fx_types.specs.Ground as Ground;
ghost use Rattle.fx_types.specs.Instance.{Solution, ground};
ghost use Rattle.fx_types.specs.Shape.{term};
ghost use Rattle.fx_types.specs.Kinds.{of_kind, IsAmong};
ghost use Rattle.fx_unify.specs.Sorts.{set_at, plainest_of, allows};
ghost use Rattle.fx_unify.specs.Tag.{tag_of};

use fx_base::Memory;
use fx_types::Ty;
use fx_value::Kind;

/// Which types a type variable may have.
#[derive(Clone, Copy, Debug)]
pub struct Sorts {
    pub boolean: bool,
    pub integer: bool,
    pub text: bool,
    pub time: bool,
    pub span: bool,
    /// All that are no scalars.
    pub other: bool,
}

impl Sorts {
    /// Those of the kinds, and the duration where `span` is true.
    pub(crate) fn of(kinds: &[Kind], span: bool) -> Sorts
        ensures { (g : Ground.Ground) → (allows result g ≡ true) ↔ IsAmong kinds.now span g }
    {
        let mut sorts = Sorts {
            boolean: false,
            integer: false,
            text: false,
            time: false,
            span,
            other: false,
        };
        for kind in kinds {
            sorts = sorts.with(*kind);
        }
        sorts
    }

    /// These and one kind more.
    fn with(&self, kind: Kind) -> Sorts
        ensures { (g : Ground.Ground) → (allows result g ≡ true) ↔ ((allows self.now g ≡ true) ⊎ (g ≡ of_kind kind)) }
    {
        match kind {
            Kind::Bool => Sorts {
                boolean: true,
                ..*self
            },
            Kind::Int => Sorts {
                integer: true,
                ..*self
            },
            Kind::Text => Sorts {
                text: true,
                ..*self
            },
            Kind::Time => Sorts {
                time: true,
                ..*self
            },
        }
    }

    /// Whether a kind of columns is among them.
    pub(crate) fn has_column(&self) -> bool
        ensures { result ≡ Ground.is_column (plainest_of self.now) }
    {
        self.integer || self.boolean || self.text || self.time
    }

    /// What is in both.
    pub(crate) fn meet(&self, other: &Sorts) -> Sorts
        ensures { (g : Ground.Ground) → allows result g ≡ (allows self.now g && allows other.now g) }
    {
        Sorts {
            boolean: self.boolean && other.boolean,
            integer: self.integer && other.integer,
            text: self.text && other.text,
            time: self.time && other.time,
            span: self.span && other.span,
            other: self.other && other.other,
        }
    }

    pub(crate) fn is_empty(&self) -> bool
        ensures none { result ≡ true → (g : Ground.Ground) → allows self.now g ≡ false }
        ensures some { result ≡ false → allows self.now (plainest_of self.now) ≡ true }
    {
        !(self.integer || self.boolean || self.text || self.time || self.span || self.other)
    }

    /// Whether the type, which is no variable, is among them.
    pub(crate) fn holds(&self, ty: &Ty) -> bool
        requires { tag_of (term ty.now) ≤ 11 }
        ensures { (s : Solution) → allows self.now (ground s (term ty.now)) ≡ result }
    {
        match ty {
            Ty::Bool => self.boolean,
            Ty::Int => self.integer,
            Ty::Text => self.text,
            Ty::Time => self.time,
            Ty::Span => self.span,
            _ => self.other,
        }
    }
}

/// All types.
const EVERY: Sorts = Sorts {
    boolean: true,
    integer: true,
    text: true,
    time: true,
    span: true,
    other: true,
};

/// What the variable of this number may have.
pub fn sorts_at(sorts: &[Sorts], number: u32) -> Sorts
    ensures { result ≡ set_at sorts.now number }
{
    let at = number as usize;
    if at < sorts.len() {
        return sorts[at];
    }
    EVERY
}

/// Says what the variable of this number may have.
pub(crate) fn put_sorts(sorts: &mut Vec<Sorts>, number: u32, set: Sorts) -> Result<(), Memory>
    ensures { OnOk result ((n : ℕ) → set_at sorts.new.items n ≡ (if n == number then set else set_at sorts.old.items n)) }
{
    let at = number as usize;
    while sorts.len() <= at {
        sorts.push(EVERY)?;
    }
    sorts[at] = set;
    Ok(())
}

/// Whether the variable of this number may have a kind of columns.
pub(crate) fn may_be_column(sorts: &[Sorts], number: u32) -> bool
    ensures { result ≡ Ground.is_column (plainest_of (set_at sorts.now number)) }
{
    let at = number as usize;
    if at < sorts.len() {
        return sorts[at].has_column();
    }
    true
}
