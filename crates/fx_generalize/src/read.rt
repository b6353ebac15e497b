//! Types as they are kept: what is bound is put in, and variables have numbers of their own.

ghost use Rattle.std.specs.Prelude.{◌≡◌, ◌++◌, true, IfOk, None, map, option_map};
ghost use Rattle.fx_types.specs.Instance.{ground_field};
ghost use Rattle.fx_types.specs.declared.term.FieldTy.TheViews.{out-RowTy};
ghost use Rattle.fx_types.specs.Shape.{term, fun_term, row_term, field_term, rest_term, entry_term, fields_of, pipe_of};
ghost use Rattle.fx_types.specs.Term.{fun};
ghost use Rattle.fx_unify.specs.Part.{value};
ghost use Rattle.fx_unify.specs.Store.{entry, bound_to};
ghost use Rattle.fx_unify.specs.Sums as Sums;
ghost use Rattle.fx_unify.specs.View.{part_seen};
ghost use Rattle.fx_generalize.specs.Named.{IsReading, IsPipeReading, IsFieldReading, IsRowReading, IsOpenRead, IsAtRoot, IsRootRead, AreLabelsRead, AreFieldsRead, AreSlotsRead};

use crate::names::{FieldName, Names, is_slot};
use crate::unread::Unread;
use fx_base::{Boxed, List, Memory, Text};
use fx_types::{FieldTy, FunTy, LabelField, LabelTy, Rest, RowTy, Ty};
use fx_unify::{Bindings, Root, View, has_label, view_of};
use std::alloc::Global;

/// What terms are read with.
#[derive(Clone, Copy)]
pub(crate) struct Reader<'a> {
    pub(crate) alloc: Global,
    pub(crate) bindings: &'a Bindings,
    pub(crate) names: &'a Names,
}

impl<'a> Reader<'a> {
    /// The type as it is kept. Refused at the first variable that has no number.
    #[cycle(read)]
    pub(crate) fn read_type(&self, ty: &Ty, fuel: u64) -> Result<Ty, Unread>
        ensures { IfOk result (λ t. IsReading (entry self.now.bindings.now.store) self.now.names.now (term ty.now) (term t)) }
    {
        if fuel == 0 {
            return Err(Unread::Memory);
        }
        match self.bindings.head(ty)? {
            Ty::Array(element) => Ok(Ty::Array(self.read_element(element, fuel - 1)?)),
            Ty::Fun(function) => Ok(Ty::Fun(self.read_function(function, fuel - 1)?)),
            Ty::Rec(row) => Ok(Ty::Rec(self.read_boxed_row(row, fuel - 1)?)),
            Ty::Stream(row) => Ok(Ty::Stream(self.read_boxed_row(row, fuel - 1)?)),
            Ty::Var(number) => Ok(Ty::Var(self.names.type_number(*number)?)),
            head => Ok(head.copy(self.alloc)?),
        }
    }

    #[cycle(read)]
    fn read_element(&self, element: &Boxed<Ty>, fuel: u64) -> Result<Boxed<Ty>, Unread>
        ensures { IfOk result (λ t. IsReading (entry self.now.bindings.now.store) self.now.names.now (term element.now) (term t)) }
    {
        let ty = self.read_type(element.get(), fuel)?;
        Ok(Boxed::new(self.alloc, ty)?)
    }

    #[cycle(read)]
    fn read_function(&self, function: &Boxed<FunTy>, fuel: u64) -> Result<Boxed<FunTy>, Unread>
        ensures { IfOk result (λ f. IsReading (entry self.now.bindings.now.store) self.now.names.now
            (fun (fun_term function.now).required (fun_term function.now).pipe (fun_term function.now).result) (fun (fun_term f).required (fun_term f).pipe (fun_term f).result)) }
    {
        let read = self.read_parts(function.get(), fuel)?;
        Ok(Boxed::new(self.alloc, read)?)
    }

    #[cycle(read)]
    fn read_parts(&self, function: &FunTy, fuel: u64) -> Result<FunTy, Unread>
        ensures { IfOk result (λ f. IsReading (entry self.now.bindings.now.store) self.now.names.now
            (fun (fun_term function.now).required (fun_term function.now).pipe (fun_term function.now).result) (fun (fun_term f).required (fun_term f).pipe (fun_term f).result)) }
    {
        let required = self.read_labels(&function.required, fuel)?;
        let pipe = self.read_pipe(&function.pipe, fuel)?;
        let result = self.read_type(&function.result, fuel)?;
        Ok(FunTy {
            required,
            pipe,
            result,
        })
    }

    #[cycle(read)]
    fn read_labels(&self, labels: &List<LabelTy>, fuel: u64) -> Result<List<LabelTy>, Unread>
        ensures { IfOk result (λ ls. AreLabelsRead (entry self.now.bindings.now.store) self.now.names.now labels.now ls) }
    {
        let mut read = List::empty(self.alloc);
        for entry in labels.as_slice() {
            let ty = self.read_type(&entry.ty, fuel)?;
            let label = entry.label.copy()?;
            read.push(LabelTy { label, ty })?;
        }
        Ok(read)
    }

    #[cycle(read)]
    fn read_pipe(&self, pipe: &Option<Ty>, fuel: u64) -> Result<Option<Ty>, Unread>
        ensures { IfOk result (λ p. IsPipeReading (entry self.now.bindings.now.store) self.now.names.now (pipe_of (option_map term pipe.now)) (pipe_of (option_map term p))) }
    {
        match pipe {
            Some(ty) => Ok(Some(self.read_type(ty, fuel)?)),
            None => Ok(None),
        }
    }

    #[cycle(read)]
    fn read_boxed_row(&self, row: &Boxed<RowTy>, fuel: u64) -> Result<Boxed<RowTy>, Unread>
        ensures { IfOk result (λ r. IsRowReading (entry self.now.bindings.now.store) self.now.names.now (row_term row.now) (row_term r)) }
    {
        let read = self.read_row(row.get(), fuel)?;
        Ok(Boxed::new(self.alloc, read)?)
    }

    #[cycle(read)]
    fn read_row(&self, row: &RowTy, fuel: u64) -> Result<RowTy, Unread>
        ensures { IfOk result (λ r. IsRowReading (entry self.now.bindings.now.store) self.now.names.now (row_term row.now) (row_term r)) }
    {
        let fields = self.read_listed(&row.fields, fuel)?;
        match &row.rest {
            Rest::Default(field) => {
                let rest = Rest::Default(self.read_field(field, fuel)?);
                Ok(RowTy { fields, rest })
            }
            Rest::Var(number) => {
                let open = self.read_open(row.fields.as_slice(), *number, fuel)?;
                Ok(over(fields, open)?)
            }
        }
    }

    #[cycle(read)]
    fn read_listed(&self, fields: &List<LabelField>, fuel: u64) -> Result<List<LabelField>, Unread>
        ensures { IfOk result (λ fs. AreFieldsRead (entry self.now.bindings.now.store) self.now.names.now fields.now fs) }
    {
        let mut read = List::empty(self.alloc);
        for entry in fields.as_slice() {
            let field = self.read_field(&entry.field, fuel)?;
            let label = entry.label.copy()?;
            read.push(LabelField { label, field })?;
        }
        Ok(read)
    }

    /// What the row variable has, but for the labels of the hidden fields. All labels are listed at
    /// which it isn't what its root has, or where a field of its root has a number of its own.
    #[cycle(read)]
    fn read_open(&self, hidden: &[LabelField], row: u32, fuel: u64) -> Result<RowTy, Unread>
        ensures { IfOk result (λ r. IsOpenRead (entry self.now.bindings.now.store) self.now.names.now (Sums.names hidden.now) row (row_term r)) }
    {
        let mut labels = Vec::new(self.alloc);
        let root = self
            .bindings
            .follow(self.alloc, &Rest::Var(row), &mut labels)?;
        self.names.add_named(&root, &mut labels)?;
        let fields = self.read_slots(hidden, row, &root, labels.as_slice(), fuel)?;
        let rest = self.read_root(&root, fuel)?;
        Ok(RowTy { fields, rest })
    }

    #[cycle(read)]
    fn read_slots(
        &self,
        hidden: &[LabelField],
        row: u32,
        root: &Root,
        labels: &[Text],
        fuel: u64,
    ) -> Result<List<LabelField>, Unread>
        ensures { IfOk result (λ fs. AreSlotsRead (entry self.now.bindings.now.store) self.now.names.now row root.now (Sums.names hidden.now) labels.now fs) }
    {
        let mut read = List::empty(self.alloc);
        for at in labels {
            if has_label(hidden, at) {
                continue;
            }
            let found = self.bindings.seen(View::Slot(row, at))?;
            if self.is_at_root(root, at, found) {
                continue;
            }
            let field = self.read_view(found, fuel)?;
            let label = at.copy()?;
            read.push(LabelField { label, field })?;
        }
        Ok(read)
    }

    /// Whether the field is what the root has at the label, and has no number of its own.
    fn is_at_root(&self, root: &Root, label: &Text, found: View) -> bool
        ensures { result ≡ true → IsAtRoot self.now.names.now root.now label.now (part_seen found.entry) }
    {
        match root {
            Root::Default(_) => false,
            Root::Var(row) => {
                is_slot(found, *row, label) && self.names.field_at(found).is_none()
            }
        }
    }

    #[cycle(read)]
    fn read_root(&self, root: &Root, fuel: u64) -> Result<Rest, Unread>
        ensures { IfOk result (λ r. IsRootRead (entry self.now.bindings.now.store) self.now.names.now root.now (rest_term r)) }
    {
        match root {
            Root::Default(field) => Ok(Rest::Default(self.read_field(field, fuel)?)),
            Root::Var(number) => Ok(Rest::Var(self.names.row_number(*number)?)),
        }
    }

    #[cycle(read)]
    fn read_field(&self, field: &FieldTy, fuel: u64) -> Result<FieldTy, Unread>
        ensures { IfOk result (λ f. IsFieldReading (entry self.now.bindings.now.store) self.now.names.now (λ s. ground_field s (field_term field.now)) (field_term f)) }
    {
        let found = self.bindings.seen(view_of(field))?;
        self.read_view(found, fuel)
    }

    /// The field, which is no bound variable.
    #[cycle(read)]
    fn read_view(&self, found: View, fuel: u64) -> Result<FieldTy, Unread>
        requires { bound_to (entry self.now.bindings.now.store) (part_seen found) ≡ None }
        ensures { IfOk result (λ f. IsFieldReading (entry self.now.bindings.now.store) self.now.names.now (λ s. value s (part_seen found.entry)) (field_term f)) }
    {
        match found {
            View::Absent => Ok(FieldTy::Absent),
            View::Is(ty) => Ok(FieldTy::Is(self.read_type(ty, fuel)?)),
            View::Var(number) => {
                let name = FieldName::Var(number);
                Ok(FieldTy::Var(self.names.field_number(found, name)?))
            }
            View::Slot(row, label) => {
                let name = FieldName::Slot(row, label.copy()?);
                Ok(FieldTy::Var(self.names.field_number(found, name)?))
            }
        }
    }
}

/// The fields over the row.
fn over(fields: List<LabelField>, row: RowTy) -> Result<RowTy, Memory>
    ensures { IfOk result (λ r. row_term r ≡ record { fields = fields_of (map entry_term (fields ++ (out-RowTy row).fields)); rest = rest_term (out-RowTy row).rest }) }
{
    let RowTy { fields: more, rest } = row;
    let fields = joined(fields, more)?;
    Ok(RowTy { fields, rest })
}

fn joined(fields: List<LabelField>, more: List<LabelField>) -> Result<List<LabelField>, Memory>
    ensures { IfOk result (λ fs. fs ≡ fields ++ more) }
{
    let mut all = fields;
    for entry in more.into_vec() {
        all.push(entry)?;
    }
    Ok(all)
}
