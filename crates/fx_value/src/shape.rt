ghost use Rattle.std.specs.Prelude.{◌≡◌, IfOk};

use crate::head::Head;
use fx_base::Memory;
use std::alloc::Global;
use std::marker::Model;
use std::rc::Rc;

/// A head that rows share.
#[derive(Debug, Drop)]
pub struct Shape {
    pub(crate) head: Rc<Head>,
}

impl Model for Shape {
    ghost use Rattle.std.specs.Coded.{coded_list, coded_ℕ};
    ghost use Rattle.std.specs.FinMap as map;
    ghost use Rattle.fx_base.specs.Text.{text_cmp};
    ghost use Rattle.fx_value.specs.declared.source.Source.{Source};
    ghost use Rattle.fx_value.specs.contracts.source.Source.{the_row};

    ghost Value = { map.FinMap text_cmp Source };

    ghost coded = { map.code (coded_list coded_ℕ) the_row.coded };

    ghost view = { λ s. s.head.value };
}

impl Shape {
    pub fn of(alloc: Global, head: Head) -> Result<Shape, Memory>
        ensures { IfOk result (λ s. s ≡ head) }
    {
        Ok(Shape {
            head: Rc::new(alloc, head)?,
        })
    }
}
