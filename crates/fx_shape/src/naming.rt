ghost use Rattle.std.specs.Prelude.{◌≡◌, fold, IfOk};
ghost use Rattle.std.specs.FinMap as fin;
ghost use Rattle.fx_group.specs.Group.{is_listed};
ghost use Rattle.fx_shape.specs.Naming.{name, stays};
ghost use Rattle.fx_shape.specs.Relabelled.{put_label};
ghost use Rattle.fx_shape.specs.Rename.{new_name};

use fx_base::{Memory, Text};
use fx_value::{Head, Recast};
use std::alloc::Global;

/// Which labels stay, and under which names.
#[derive(Clone, Copy)]
pub(crate) enum Naming<'a> {
    /// The listed labels stay.
    Listed { columns: &'a [Text] },
    /// All labels but the listed ones stay.
    Others { columns: &'a [Text] },
    /// Old labels get their new names. Where a new name is no old one, what stood under it goes.
    Renamed { olds: &'a [Text], news: &'a [Text] },
}

fn is_listed(columns: &[Text], label: &Text) -> bool
    ensures { result ≡ is_listed columns.now label.now }
{
    columns.iter().any(|column| *column == *label)
}

/// The new name of a label, which is the label itself where it is no old one.
fn new_name<'a>(olds: &[Text], news: &'a [Text], label: &'a Text) -> &'a Text
    ensures { result.now ≡ new_name olds.now news.now label.now }
{
    for (i, old) in olds.iter().enumerate() {
        if i >= news.len() {
            return label;
        }
        if *label == *old {
            return &news[i];
        }
    }
    label
}

impl<'a> Naming<'a> {
    pub(crate) fn keeps(&self, label: &Text) -> bool
        ensures { result ≡ stays self.now label.now }
    {
        match self {
            Naming::Listed { columns } => is_listed(columns, label),
            Naming::Others { columns } => !is_listed(columns, label),
            Naming::Renamed { olds, news } => !is_listed(news, label) || is_listed(olds, label),
        }
    }

    pub(crate) fn name_of(&self, label: &'a Text) -> &'a Text
        ensures { result.now ≡ name self.now label.now }
    {
        match self {
            Naming::Listed { .. } | Naming::Others { .. } => label,
            Naming::Renamed { olds, news } => new_name(olds, news, label),
        }
    }
}

/// Adds what stands at the label of the head, where it stays, under its name.
fn with_label(
    alloc: Global,
    naming: &Naming<'_>,
    head: &Head,
    label: &Text,
    made: Head,
) -> Result<Head, Memory>
    ensures { IfOk result (λ h. h ≡ put_label (stays naming.now) (name naming.now) head.now made label.now) }
{
    if !naming.keeps(label) {
        return Ok(made);
    }
    match head.get(label) {
        None => Ok(made),
        Some(source) => made.with(alloc, naming.name_of(label), source.copy()?),
    }
}

/// What stands at the labels of the head, where they stay, under their names.
fn relabelled(
    alloc: Global,
    naming: &Naming<'_>,
    head: &Head,
    labels: &[Text],
) -> Result<Head, Memory>
    ensures { IfOk result (λ h. h ≡ fold (put_label (stays naming.now) (name naming.now) head.now) fin.empty labels.now) }
{
    let mut made = Head::empty(alloc);
    for label in labels {
        made = with_label(alloc, naming, head, label, made)?;
    }
    Ok(made)
}

impl Recast for Naming<'_> {
    ghost use Rattle.fx_shape.specs.Heads.{relabelled_by_heads};
    ghost use Rattle.fx_shape.specs.Naming.{name, stays};
    ghost use Rattle.fx_shape.specs.Relabelled.{relabelled};

    ghost of_head = { λ n. relabelled (stays n) (name n) };

    ghost of_row = { λ n. relabelled (stays n) (name n) };

    ghost by_heads = { λ n head first second. relabelled_by_heads first second (stays n) (name n) head };

    fn recast(&self, alloc: Global, head: &Head) -> Result<Head, Memory> {
        let labels = head.labels(alloc)?;
        relabelled(alloc, self, head, labels.as_slice())
    }
}
