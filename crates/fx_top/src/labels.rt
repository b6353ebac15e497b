ghost use Rattle.std.specs.Prelude.{◌≡◌, IfOk};
ghost use Rattle.fx_top.specs.Labels.{AreLabels};

use fx_base::{Memory, Text};
use std::alloc::Global;

/// The engine's own labels, made once for all tables of a run.
#[derive(Debug, Drop)]
pub struct Labels {
    pub field: Text,
    pub measurement: Text,
    pub start: Text,
    pub stop: Text,
    pub time: Text,
    pub value: Text,
}

pub fn own_labels(alloc: Global) -> Result<Labels, Memory>
    ensures { IfOk result AreLabels }
{
    Ok(Labels {
        field: Text::of(alloc, "_field")?,
        measurement: Text::of(alloc, "_measurement")?,
        start: Text::of(alloc, "_start")?,
        stop: Text::of(alloc, "_stop")?,
        time: Text::of(alloc, "_time")?,
        value: Text::of(alloc, "_value")?,
    })
}
