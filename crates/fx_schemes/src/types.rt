//! The types of the built-ins.
ghost use Rattle.std.specs.Prelude.{◌≡◌, [], false, IfOk, option_map};
ghost use Rattle.fx_schemes.specs.declared.list.Builtin.{Builtin};
ghost use Rattle.fx_schemes.specs.Builtins.{IsLine};
ghost use Rattle.fx_schemes.specs.Names.{IsId};
ghost use Rattle.fx_schemes.specs.Scheme.{Says, IsSchemeOf, shown};
ghost use Rattle.fx_schemes.specs.Signature.{needs_words, words_of};
ghost use Rattle.fx_schemes.specs.Given.{Given};

use crate::builtin_type::BuiltinType;
use crate::given::LabelWords;
use crate::list::Builtin;
use crate::name::{BuiltinId, numbered};
use crate::{aggregates, columns, joins, rows, scalars, shape, sources};
use fx_base::{List, Memory};
use std::alloc::Global;

/// The type of a built-in that needs no label words, with the defaults of its label arguments.
pub fn scheme(alloc: Global, id: BuiltinId) -> Result<BuiltinType, Memory>
    requires { (b : Builtin) × IsId id b × (needs_words b ≡ false) }
    ensures { (b : Builtin) → IsId id b → IfOk result (λ t. IsSchemeOf (IsLine b []) (shown t)) }
{
    let none = List::empty(alloc);
    match scheme_at(alloc, id, &none)? {
        Some(scheme) => Ok(scheme),
        None => unreachable!(),
    }
}

/// The type of a built-in at the words that a call gives at its label arguments. None where no
/// type goes with these words: a word is missing, there are more than one where one is due, it
/// isn't one of those that are listed, or the words of the call don't go together.
pub fn scheme_at(
    alloc: Global,
    id: BuiltinId,
    given: &List<LabelWords>,
) -> Result<Option<BuiltinType>, Memory>
    requires { (b : Builtin) × IsId id b }
    ensures { (b : Builtin) → IsId id b → IfOk result (λ o. Says (IsLine b given.now) (option_map shown o)) }
{
    match numbered(id.number) {
        Some(builtin) => line(alloc, builtin, given),
        None => unreachable!(),
    }
}

/// The type of the built-in at these words.
fn line(
    alloc: Global,
    builtin: Builtin,
    given: &List<LabelWords>,
) -> Result<Option<BuiltinType>, Memory>
    ensures { IfOk result (λ o. Says (IsLine builtin given.now) (option_map shown o)) }
{
    match builtin {
        Builtin::Filter => rows::filter(alloc, given),
        Builtin::Group => shape::group(alloc, given),
        Builtin::AggregateWindow => aggregates::aggregate_window(alloc, given),
        Builtin::Count => aggregates::count(alloc, given),
        Builtin::Sum => aggregates::sum(alloc, given),
        Builtin::Spread => aggregates::sum(alloc, given),
        Builtin::Distinct => aggregates::distinct(alloc, given),
        Builtin::Min => aggregates::extreme(alloc, given),
        Builtin::Max => aggregates::extreme(alloc, given),
        Builtin::First => aggregates::end(alloc, given),
        Builtin::Last => aggregates::end(alloc, given),
        Builtin::Keep => shape::keep(alloc, given),
        Builtin::Drop => shape::without(alloc, given),
        Builtin::Rename => shape::rename(alloc, given),
        Builtin::Duplicate => columns::duplicate(alloc, given),
        Builtin::Set => columns::set(alloc, given),
        Builtin::Fill => columns::fill(alloc, given),
        Builtin::Sort => shape::sort(alloc, given),
        Builtin::Difference => columns::steps(alloc, given),
        Builtin::CumulativeSum => columns::steps(alloc, given),
        Builtin::Elapsed => columns::elapsed(alloc, given),
        Builtin::Pivot => shape::pivot(alloc, given),
        Builtin::JoinTime => joins::join_time(alloc, given),
        _ => Ok(Some(plain_line(alloc, builtin)?)),
    }
}

/// The type of a built-in without label arguments.
fn plain_line(alloc: Global, builtin: Builtin) -> Result<BuiltinType, Memory>
    requires { words_of builtin ≡ [] }
    ensures { (w : Given) → IfOk result (λ t. IsSchemeOf (IsLine builtin w) (shown t)) }
{
    match builtin {
        Builtin::From => sources::integers(alloc),
        Builtin::Texts => sources::texts(alloc),
        Builtin::Bools => sources::truths(alloc),
        Builtin::ArrayFrom => sources::array_from(alloc),
        Builtin::Range => rows::range(alloc),
        Builtin::Map => rows::map(alloc),
        Builtin::Union => sources::union(alloc),
        Builtin::Window => rows::window(alloc),
        Builtin::Reduce => rows::reduce(alloc),
        Builtin::Yield => rows::yielded(alloc),
        Builtin::Limit => columns::part(alloc),
        Builtin::Tail => columns::part(alloc),
        Builtin::JoinInner => joins::join(alloc),
        Builtin::JoinLeft => joins::join(alloc),
        Builtin::JoinRight => joins::join(alloc),
        Builtin::JoinFull => joins::join(alloc),
        Builtin::True => scalars::truth(alloc),
        Builtin::False => scalars::truth(alloc),
        Builtin::Now => scalars::now(alloc),
        Builtin::Int => scalars::to_int(alloc),
        Builtin::String => scalars::to_text(alloc),
        Builtin::Bool => scalars::to_bool(alloc),
        Builtin::Time => scalars::to_time(alloc),
        Builtin::Length => scalars::length(alloc),
        Builtin::Contains => scalars::contains(alloc),
        Builtin::ContainsStr => scalars::text_test(alloc, "substr"),
        Builtin::HasPrefix => scalars::text_test(alloc, "prefix"),
        Builtin::HasSuffix => scalars::text_test(alloc, "suffix"),
        Builtin::Strlen => scalars::strlen(alloc),
        Builtin::Substring => scalars::substring(alloc),
        Builtin::TrimPrefix => scalars::trimmed(alloc, "prefix"),
        Builtin::TrimSuffix => scalars::trimmed(alloc, "suffix"),
        Builtin::ReplaceAll => scalars::replace_all(alloc),
        Builtin::Split => scalars::split(alloc),
        Builtin::JoinStr => scalars::join_str(alloc),
        Builtin::Repeat => scalars::repeat(alloc),
        Builtin::Year => scalars::time_part(alloc),
        Builtin::Month => scalars::time_part(alloc),
        Builtin::MonthDay => scalars::time_part(alloc),
        Builtin::YearDay => scalars::time_part(alloc),
        Builtin::WeekDay => scalars::time_part(alloc),
        Builtin::Hour => scalars::time_part(alloc),
        Builtin::Minute => scalars::time_part(alloc),
        Builtin::Second => scalars::time_part(alloc),
        Builtin::Nanosecond => scalars::time_part(alloc),
        Builtin::Truncate => scalars::truncate(alloc),
        Builtin::Add => scalars::moved(alloc, "to"),
        Builtin::Sub => scalars::moved(alloc, "from"),
        _ => unreachable!(),
    }
}
