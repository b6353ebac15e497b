ghost use Rattle.std.specs.Prelude.{◌≡◌};
ghost use Rattle.fx_types.specs.Shape.{term};
ghost use Rattle.fx_unify.specs.Tag.{tag_of};

use fx_types::Ty;

/// The tag of the last of the types without parts.
pub(crate) const LAST_BASIC: u8 = 7;

/// The number of the form that the type has.
pub(crate) fn tag(ty: &Ty) -> u8
    ensures { result ≡ tag_of (term ty.now) }
{
    match ty {
        Ty::Bool => 1,
        Ty::Int => 2,
        Ty::Text => 3,
        Ty::Time => 4,
        Ty::Span => 5,
        Ty::Pattern => 6,
        Ty::Done => 7,
        Ty::Array(_) => 8,
        Ty::Fun(_) => 9,
        Ty::Rec(_) => 10,
        Ty::Stream(_) => 11,
        Ty::Var(_) => 12,
    }
}
