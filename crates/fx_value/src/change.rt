ghost use Rattle.std.specs.Prelude.{◌≡◌, map, IfOk, IfSome, OnOk, OnErr};
ghost use Rattle.fx_value.specs.Change.{all_changed, all_changed_head, changed_head, label_of, IsReshape};

use crate::head::Head;
use crate::row::Row;
use crate::scalar::Scalar;
use crate::source::Source;
use fx_base::{List, Memory, Text};
use std::alloc::Global;
use std::rc::Rc;

/// A change of one label in all rows of a table.
#[derive(Debug, Drop)]
pub enum Change {
    /// The label has this value in each row.
    Set { label: Text, value: Scalar },
    /// No row has the label.
    Remove { label: Text },
}

/// A head, and what changes make of it.
#[derive(Debug, Drop)]
pub struct Reshape {
    pub from: Rc<Head>,
    pub to: Rc<Head>,
}

impl Change {
    pub(crate) fn label(&self) -> &Text
        ensures { result.now ≡ label_of self.now }
    {
        match self {
            Change::Set { label, .. } => label,
            Change::Remove { label } => label,
        }
    }

    fn of_head(&self, alloc: Global, head: &Head) -> Result<Head, Memory>
        ensures { IfOk result (λ h. h ≡ changed_head self.now head.now) }
    {
        match self {
            Change::Set { label, value } => head.with(alloc, label, Source::Fixed(value.copy()?)),
            Change::Remove { label } => head.without(alloc, label),
        }
    }

    fn of_shared(&self, alloc: Global, head: Rc<Head>) -> Result<Rc<Head>, Memory>
        ensures { IfOk result (λ h. h.value ≡ changed_head self.now head.value) }
    {
        let made = self.of_head(alloc, head.as_ref())?;
        Ok(Rc::new(alloc, made)?)
    }
}

/// The head after the changes. Without changes it is shared.
fn head_after(alloc: Global, changes: &[Change], head: &Rc<Head>) -> Result<Rc<Head>, Memory>
    ensures { IfOk result (λ h. h.value ≡ all_changed_head changes.now head.now.value) }
{
    let mut made = head.clone()?;
    for change in changes {
        made = change.of_shared(alloc, made)?;
    }
    Ok(made)
}

/// What the changes make of this head. Where the last head was the same, the answer is shared.
pub(crate) fn reshaped(
    alloc: Global,
    changes: &[Change],
    head: &Rc<Head>,
    last: Option<Reshape>,
) -> Result<Reshape, Memory>
    requires { IfSome last (IsReshape changes.now) }
    ensures from { IfOk result (λ known. known.from.value ≡ head.now.value) }
    ensures to { IfOk result (IsReshape changes.now) }
{
    match last {
        Some(known) if known.from.as_ref().is_same(head.as_ref()) => Ok(known),
        _ => Ok(Reshape {
            from: head.clone()?,
            to: head_after(alloc, changes, head)?,
        }),
    }
}

/// The rows after the changes, one after another. Rows that shared their labels share them still:
/// of rows that follow one another with one head, one new head is made.
pub fn change_rows(alloc: Global, rows: List<Row>, changes: &[Change]) -> Result<List<Row>, Memory>
    ensures { IfOk result (λ rs. rs ≡ map (all_changed changes.now) rows) }
{
    let mut rows = rows.into_vec();
    let mut last = None;
    for row in rows.iter_mut() {
        last = Some(row.change(alloc, changes, last)?);
    }
    Ok(List::of(rows))
}
