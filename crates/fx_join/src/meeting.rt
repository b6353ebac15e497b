ghost use Rattle.std.specs.Prelude.{◌≡◌, ◌≢◌, ◌<◌, ◌+◌, [], ◌∷◌, length, IfOk, IfSome, MatchOption};
ghost use Rattle.std.specs.List.{AllByRecursion};
ghost use Rattle.fx_data.specs.Ascending.{Rise};
ghost use Rattle.fx_data.specs.Table.{HasRisingLabels};
ghost use Rattle.fx_join.specs.Meet.{meetings, lower};

use fx_base::{List, Memory};
use fx_data::{Key, Table, Tables, key_order};
use fx_value::Row;
use std::alloc::Global;
use std::cmp::Ordering;
use std::collections::VecDeque;

/// The rows that stand under one key, on the left and on the right.
#[derive(Drop)]
pub(crate) struct Meeting {
    pub key: Key,
    pub lefts: List<Row>,
    pub rights: List<Row>,
}

/// How the first keys stand to each other. Where one side has ended, the other's is the lower one.
fn lower(lefts: &VecDeque<Table>, rights: &VecDeque<Table>) -> Option<Ordering>
    ensures { result ≡ lower lefts.now.items rights.now.items }
{
    match (lefts.front(), rights.front()) {
        (None, None) => None,
        (Some(_), None) => Some(Ordering::Less),
        (None, Some(_)) => Some(Ordering::Greater),
        (Some(left), Some(right)) => Some(key_order(&left.key, &right.key)),
    }
}

fn take_first(tables: &mut VecDeque<Table>) -> Table
    requires { tables.old.items ≢ [] }
    ensures { tables.old.items ≡ result ∷ tables.new.items }
{
    match tables.pop_front() {
        Some(table) => table,
        None => unreachable!(),
    }
}

/// The rows under the lowest key, which are taken out of the tables; None where there are none.
fn next_meeting(
    alloc: Global,
    lefts: &mut VecDeque<Table>,
    rights: &mut VecDeque<Table>,
) -> Option<Meeting>
    requires lefts { Rise lefts.old.items }
    requires rights { Rise rights.old.items }
    ensures met { MatchOption result (meetings lefts.old.items rights.old.items ≡ []) (λ m. meetings lefts.old.items rights.old.items ≡ m ∷ meetings lefts.new.items rights.new.items) }
    ensures lefts { Rise lefts.new.items }
    ensures rights { Rise rights.new.items }
    ensures fewer { IfSome result (λ m. length lefts.new.items + length rights.new.items < length lefts.old.items + length rights.old.items) }
{
    match lower(lefts, rights) {
        None => None,
        Some(Ordering::Less) => {
            let left = take_first(lefts);
            Some(Meeting {
                key: left.key,
                lefts: left.rows,
                rights: List::empty(alloc),
            })
        }
        Some(Ordering::Greater) => {
            let right = take_first(rights);
            Some(Meeting {
                key: right.key,
                lefts: List::empty(alloc),
                rights: right.rows,
            })
        }
        Some(Ordering::Equal) => {
            let left = take_first(lefts);
            let right = take_first(rights);
            Some(Meeting {
                key: left.key,
                lefts: left.rows,
                rights: right.rows,
            })
        }
    }
}

/// For each key of a table on either side its rows on both, in the order of the keys.
pub(crate) fn meet(alloc: Global, lefts: Tables, rights: Tables) -> Result<List<Meeting>, Memory>
    ensures meetings { IfOk result (λ ms. ms ≡ meetings lefts rights) }
    ensures rising { IfOk result (AllByRecursion (λ m. HasRisingLabels m.key)) }
{
    let mut left = VecDeque::from_vec(lefts.into_list().into_vec());
    let mut right = VecDeque::from_vec(rights.into_list().into_vec());
    let mut met = Vec::new(alloc);
    while let Some(meeting) = next_meeting(alloc, &mut left, &mut right) {
        met.push(meeting)?;
    }
    Ok(List::of(met))
}
