ghost use Rattle.std.specs.Prelude.{◌≡◌, [], IfOk, length, slice_get};
ghost use Rattle.std.specs.Option.{option_map};
ghost use Rattle.fx_data.specs.Table.{AreLawful};

use crate::table::Table;
use fx_base::{List, Memory};
use std::alloc::Global;
use std::marker::Model;

/// Lawful tables in the order of their keys, which differ. Contracts see the list of the tables.
#[derive(Debug, Drop)]
pub struct Tables {
    pub(crate) items: List<Table>,
}

impl Model for Tables {
    ghost use Rattle.std.specs.Prelude.{List};
    ghost use Rattle.std.specs.Coded.{coded_list};
    ghost use Rattle.fx_data.specs.declared.table.Table.{Table};
    ghost use Rattle.fx_data.specs.contracts.table.Table.{the_row};

    ghost Value = { List Table };

    ghost coded = { coded_list the_row.coded };

    ghost use Rattle.fx_data.specs.Table.{AreLawful};

    ghost view = { λ t. t.items };

    ghost invariant = { λ t. AreLawful t.items };
}

impl Tables {
    pub fn empty(alloc: Global) -> Tables
        ensures { result ≡ [] }
    {
        Tables {
            items: List::empty(alloc),
        }
    }

    /// Lawful tables whose keys rise.
    pub fn of(items: List<Table>) -> Tables
        requires { AreLawful items }
        ensures { result ≡ items }
    {
        Tables { items }
    }

    /// Other tables that are the same. Their rows share what the rows share.
    pub fn copy(&self, alloc: Global) -> Result<Tables, Memory>
        ensures { IfOk result (λ t. t ≡ self.now) }
    {
        let items = copies_of(alloc, &self.items)?;
        Ok(Tables { items })
    }

    pub fn len(&self) -> u64
        ensures { result ≡ length self.now }
    {
        self.items.as_slice().len() as u64
    }

    /// The table at this place, or None behind the last.
    pub fn at(&self, place: u64) -> Option<&Table>
        ensures { option_map (λ t. t.now) result ≡ slice_get self.now place }
    {
        self.items.as_slice().get(place as usize)
    }

    pub fn as_slice(&self) -> &[Table]
        ensures value { result.now ≡ self.now }
        ensures lawful { AreLawful self.now }
    {
        self.items.as_slice()
    }

    pub fn into_list(self) -> List<Table>
        ensures value { result ≡ self }
        ensures lawful { AreLawful self }
    {
        let Tables { items } = self;
        items
    }
}

fn copies_of(alloc: Global, tables: &List<Table>) -> Result<List<Table>, Memory>
    ensures { IfOk result (λ ts. ts ≡ tables.now) }
{
    let tables = tables.as_slice();
    let mut copies = Vec::with_capacity(alloc, tables.len())?;
    for table in tables {
        copies.push(table.copy(alloc)?)?;
    }
    Ok(List::of(copies))
}
