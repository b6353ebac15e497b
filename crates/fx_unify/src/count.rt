//! How many nodes a type has at least, under what is bound. Each call has room for so many nodes,
//! and Clash says that no solution needs so few: so a type that stands inside itself is refused
//! too. What was counted of a type variable is kept, so each is counted once.

ghost use Rattle.std.specs.Prelude.{◌≡◌, None, map, option_map};
ghost use Rattle.fx_types.specs.Ground.{g_is};
ghost use Rattle.fx_types.specs.Instance.{ground, ground_labels, ground_pipe};
ghost use Rattle.fx_types.specs.Shape.{term, fun_term, label_term, labels_of, pipe_of};
ghost use Rattle.fx_types.specs.Size.{Pipes, Takes};
ghost use Rattle.fx_types.specs.Term.{fun};
ghost use Rattle.fx_unify.specs.Counted.{Counted};
ghost use Rattle.fx_unify.specs.Measure.{least, Admits, Measuring};
ghost use Rattle.fx_unify.specs.Part.{value};
ghost use Rattle.fx_unify.specs.Sums.{Summing, required_names};
ghost use Rattle.fx_unify.specs.View.{part_seen};

use crate::counts::Counts;
use crate::fault::UnifyFault;
use crate::head::type_bound;
use crate::labels::is_required;
use crate::sorts::Sorts;
use crate::store::Store;
use crate::view::View;
use fx_base::List;
use fx_types::{FunTy, LabelTy, Ty};

impl Store {
    #[cycle(count)]
    pub(crate) fn count(
        &self,
        sorts: &[Sorts],
        counts: &mut Counts,
        ty: &Ty,
        room: u64,
    ) -> Result<u64, UnifyFault>
        requires { Counted self.now sorts.now counts.old }
        ensures counts { Counted self.now sorts.now counts.new }
        ensures nodes { Measuring result (least self.now sorts.now) (Admits self.now sorts.now) Pipes (λ s. g_is (ground s (term ty.now))) room }
    {
        if let Some(nodes) = self.kept_type(counts, ty) {
            self.keep_type(counts, ty, nodes);
            if room < nodes {
                return Err(UnifyFault::Clash);
            }
            return Ok(nodes);
        }
        if room == 0 {
            return Err(UnifyFault::Clash);
        }
        match self.head(ty)? {
            Ty::Array(element) => match self.count(sorts, counts, element.get(), room - 1) {
                Ok(nodes) => {
                    self.keep_type(counts, ty, nodes + 1);
                    Ok(nodes + 1)
                }
                Err(fault) => Err(fault),
            },
            Ty::Fun(function) => match self.count_function(sorts, counts, function.get(), room) {
                Ok(nodes) => {
                    self.keep_type(counts, ty, nodes);
                    Ok(nodes)
                }
                Err(fault) => Err(fault),
            },
            Ty::Rec(row) => match self.count_row(sorts, counts, row.get(), room - 1) {
                Ok(nodes) => {
                    self.keep_type(counts, ty, nodes + 1);
                    Ok(nodes + 1)
                }
                Err(fault) => Err(fault),
            },
            // a stream has nothing but columns
            Ty::Stream(row) => match self.count_row(sorts, counts, row.get(), 0) {
                Ok(_) => {
                    self.keep_type(counts, ty, 1);
                    Ok(1)
                }
                Err(fault) => Err(fault),
            },
            _ => Ok(1),
        }
    }

    /// What is kept of the variable, or else what is counted and then kept.
    pub(crate) fn count_variable(
        &self,
        sorts: &[Sorts],
        counts: &mut Counts,
        variable: usize,
        room: u64,
    ) -> Result<u64, UnifyFault>
        requires { Counted self.now sorts.now counts.old }
        ensures counts { Counted self.now sorts.now counts.new }
        ensures nodes { Measuring result (least self.now sorts.now) (Admits self.now sorts.now) Pipes (λ s. g_is (s.type_of variable)) room }
    {
        if let Some(nodes) = self.kept_nodes(counts, variable) {
            self.keep_nodes(counts, variable, nodes);
            if room < nodes {
                return Err(UnifyFault::Clash);
            }
            return Ok(nodes);
        }
        match self.count_bound(sorts, counts, variable, room) {
            Ok(nodes) => {
                self.keep_nodes(counts, variable, nodes);
                Ok(nodes)
            }
            Err(fault) => Err(fault),
        }
    }

    /// What the variable is bound to, and one node where it is free.
    fn count_bound(
        &self,
        sorts: &[Sorts],
        counts: &mut Counts,
        variable: usize,
        room: u64,
    ) -> Result<u64, UnifyFault>
        requires { Counted self.now sorts.now counts.old }
        ensures counts { Counted self.now sorts.now counts.new }
        ensures nodes { Measuring result (least self.now sorts.now) (Admits self.now sorts.now) Pipes (λ s. g_is (s.type_of variable)) room }
    {
        match type_bound(self.types.as_slice(), variable) {
            Some(ty) => self.count(sorts, counts, ty, room),
            None => {
                if room == 0 {
                    return Err(UnifyFault::Clash);
                }
                Ok(1)
            }
        }
    }

    #[cycle(count)]
    fn count_function(
        &self,
        sorts: &[Sorts],
        counts: &mut Counts,
        function: &FunTy,
        room: u64,
    ) -> Result<u64, UnifyFault>
        requires { Counted self.now sorts.now counts.old }
        ensures counts { Counted self.now sorts.now counts.new }
        ensures nodes { Measuring result (least self.now sorts.now) (Admits self.now sorts.now) Pipes
            (λ s. g_is (ground s (fun (fun_term function.now).required (fun_term function.now).pipe (fun_term function.now).result))) room }
    {
        if room == 0 {
            return Err(UnifyFault::Clash);
        }
        let room = room - 1;
        let labels = match self.count_required(sorts, counts, &function.required, room) {
            Ok(nodes) => nodes,
            Err(fault) => return Err(fault),
        };
        let pipe = match self.count_pipe(sorts, counts, &function.pipe, room - labels) {
            Ok(nodes) => nodes,
            Err(fault) => return Err(fault),
        };
        match self.count(sorts, counts, &function.result, room - labels - pipe) {
            Ok(nodes) => Ok(labels + pipe + nodes + 1),
            Err(fault) => Err(fault),
        }
    }

    #[cycle(count)]
    fn count_required(
        &self,
        sorts: &[Sorts],
        counts: &mut Counts,
        labels: &List<LabelTy>,
        room: u64,
    ) -> Result<u64, UnifyFault>
        requires { Counted self.now sorts.now counts.old }
        ensures counts { Counted self.now sorts.now counts.new }
        ensures nodes { Summing result (least self.now sorts.now) (Admits self.now sorts.now) Takes (λ s. ground_labels s (labels_of (map label_term labels.now))) (required_names labels.now) room }
    {
        let entries = labels.as_slice();
        let mut sum: u64 = 0;
        for (i, entry) in entries.iter().enumerate() {
            if is_required(&entry.label, &entries[..i]) {
                continue;
            }
            if sum == room {
                return Err(UnifyFault::Clash);
            }
            match self.count(sorts, counts, &entry.ty, room - sum - 1) {
                Ok(nodes) => sum += nodes + 1,
                Err(fault) => return Err(fault),
            }
        }
        Ok(sum)
    }

    #[cycle(count)]
    fn count_pipe(
        &self,
        sorts: &[Sorts],
        counts: &mut Counts,
        pipe: &Option<Ty>,
        room: u64,
    ) -> Result<u64, UnifyFault>
        requires { Counted self.now sorts.now counts.old }
        ensures counts { Counted self.now sorts.now counts.new }
        ensures nodes { Measuring result (least self.now sorts.now) (Admits self.now sorts.now) Pipes (λ s. ground_pipe s (pipe_of (option_map term pipe.now))) room }
    {
        match pipe {
            Some(ty) => self.count(sorts, counts, ty, room),
            None => Ok(0),
        }
    }

    /// The nodes of the type that the field is, if it is one.
    pub(crate) fn count_view(
        &self,
        sorts: &[Sorts],
        counts: &mut Counts,
        view: View,
        room: u64,
    ) -> Result<u64, UnifyFault>
        requires { Counted self.now sorts.now counts.old }
        ensures counts { Counted self.now sorts.now counts.new }
        ensures nodes { Measuring result (least self.now sorts.now) (Admits self.now sorts.now) Pipes (λ s. value s (part_seen view.entry)) room }
    {
        let found = self.seen_field(view)?;
        match found {
            View::Is(ty) => self.count(sorts, counts, ty, room),
            _ => Ok(0),
        }
    }
}
