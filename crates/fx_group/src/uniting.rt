ghost use Rattle.std.specs.Prelude.{◌≡◌, ◌++◌, IfOk, OnOk};
ghost use Rattle.std.specs.List.{flat_map, AllByRecursion};
ghost use Rattle.fx_data.specs.Table.{IsLawfulTable};
ghost use Rattle.fx_group.specs.Union.{united};

use fx_base::{List, Memory};
use fx_data::{Table, Tables, collect};
use std::alloc::Global;

fn push_all(all: &mut Vec<Table>, tables: Tables) -> Result<(), Memory>
    ensures tables { OnOk result (all.new.items ≡ all.old.items ++ tables) }
    ensures lawful { OnOk result (AllByRecursion IsLawfulTable all.old.items → AllByRecursion IsLawfulTable all.new.items) }
{
    all.append(&mut tables.into_list().into_vec())?;
    Ok(())
}

/// The tables of the streams, one stream behind the other.
fn all_tables(alloc: Global, streams: List<Tables>) -> Result<List<Table>, Memory>
    ensures tables { IfOk result (λ ts. ts ≡ flat_map (λ tables. tables) streams) }
    ensures lawful { IfOk result (λ ts. AllByRecursion IsLawfulTable ts) }
{
    let mut all = Vec::new(alloc);
    for tables in streams.into_vec() {
        push_all(&mut all, tables)?;
    }
    Ok(List::of(all))
}

/// The rows of the streams, stream after stream, collected under their keys.
pub fn union(alloc: Global, streams: List<Tables>) -> Result<Tables, Memory>
    ensures { IfOk result (λ t. t ≡ united streams) }
{
    let tables = all_tables(alloc, streams)?;
    collect(alloc, tables)
}
