//! Terms with what is bound put in for type and field variables.

ghost use Rattle.std.specs.Prelude.{◌≡◌, IfOk, map, option_map};
ghost use Rattle.fx_types.specs.Instance.{Solution, ground, ground_labels, ground_pipe, ground_field, ground_tail};
ghost use Rattle.fx_types.specs.Shape.{term, fun_term, row_term, field_term, rest_term, label_term, entry_term, labels_of, fields_of, pipe_of};
ghost use Rattle.fx_types.specs.Term.{Label, fun, rec};
ghost use Rattle.fx_unify.specs.Part.{value, Solved};
ghost use Rattle.fx_unify.specs.PutIn.{IsPutIn, LabelsPutIn, PipePutIn, FieldPutIn, FieldsPutIn, RestPutIn};
ghost use Rattle.fx_unify.specs.Rows.{ground_row, SameLabels, SameFields};
ghost use Rattle.fx_unify.specs.Store.{entry};

use crate::store::Store;
use crate::view::View;
use fx_base::{Boxed, List, Memory};
use fx_types::{FieldTy, FunTy, LabelField, LabelTy, Rest, RowTy, Ty};
use std::alloc::Global;

impl Store {
    /// The type with what is bound put in; Memory where it has more levels than there is fuel.
    #[cycle(apply)]
    pub(crate) fn apply_type(&self, alloc: Global, ty: &Ty, fuel: u64) -> Result<Ty, Memory>
        ensures same { IfOk result (λ t. (s : Solution) → Solved s (entry self.now) → ground s (term t) ≡ ground s (term ty.now)) }
        ensures put_in { IfOk result (λ t. IsPutIn (entry self.now) (term t)) }
    {
        if fuel == 0 {
            return Err(Memory);
        }
        match self.head(ty)? {
            Ty::Array(element) => Ok(Ty::Array(self.apply_element(alloc, element, fuel - 1)?)),
            Ty::Fun(function) => Ok(Ty::Fun(self.apply_function(alloc, function, fuel - 1)?)),
            Ty::Rec(row) => Ok(Ty::Rec(self.apply_row(alloc, row, fuel - 1)?)),
            Ty::Stream(row) => Ok(Ty::Stream(self.apply_row(alloc, row, fuel - 1)?)),
            head => head.copy(alloc),
        }
    }

    #[cycle(apply)]
    fn apply_element(
        &self,
        alloc: Global,
        element: &Boxed<Ty>,
        fuel: u64,
    ) -> Result<Boxed<Ty>, Memory>
        ensures same { IfOk result (λ t. (s : Solution) → Solved s (entry self.now) → ground s (term t) ≡ ground s (term element.now)) }
        ensures put_in { IfOk result (λ t. IsPutIn (entry self.now) (term t)) }
    {
        let ty = self.apply_type(alloc, element.get(), fuel)?;
        Boxed::new(alloc, ty)
    }

    #[cycle(apply)]
    fn apply_function(
        &self,
        alloc: Global,
        function: &Boxed<FunTy>,
        fuel: u64,
    ) -> Result<Boxed<FunTy>, Memory>
        ensures same { IfOk result (λ f. (s : Solution) → Solved s (entry self.now)
            → ground s (fun (fun_term f).required (fun_term f).pipe (fun_term f).result) ≡ ground s (fun (fun_term function.now).required (fun_term function.now).pipe (fun_term function.now).result)) }
        ensures put_in { IfOk result (λ f. IsPutIn (entry self.now) (fun (fun_term f).required (fun_term f).pipe (fun_term f).result)) }
    {
        let applied = self.apply_parts(alloc, function.get(), fuel)?;
        Boxed::new(alloc, applied)
    }

    #[cycle(apply)]
    fn apply_parts(&self, alloc: Global, function: &FunTy, fuel: u64) -> Result<FunTy, Memory>
        ensures same { IfOk result (λ f. (s : Solution) → Solved s (entry self.now)
            → ground s (fun (fun_term f).required (fun_term f).pipe (fun_term f).result) ≡ ground s (fun (fun_term function.now).required (fun_term function.now).pipe (fun_term function.now).result)) }
        ensures put_in { IfOk result (λ f. IsPutIn (entry self.now) (fun (fun_term f).required (fun_term f).pipe (fun_term f).result)) }
    {
        let required = self.apply_labels(alloc, &function.required, fuel)?;
        let pipe = self.apply_pipe(alloc, &function.pipe, fuel)?;
        let result = self.apply_type(alloc, &function.result, fuel)?;
        Ok(FunTy {
            required,
            pipe,
            result,
        })
    }

    #[cycle(apply)]
    fn apply_labels(
        &self,
        alloc: Global,
        labels: &List<LabelTy>,
        fuel: u64,
    ) -> Result<List<LabelTy>, Memory>
        ensures same { IfOk result (λ ls. (s : Solution) → Solved s (entry self.now) → SameLabels s ls labels.now) }
        ensures put_in { IfOk result (λ ls. LabelsPutIn (entry self.now) (labels_of (map label_term ls))) }
    {
        let mut applied = List::empty(alloc);
        for entry in labels.as_slice() {
            let ty = self.apply_type(alloc, &entry.ty, fuel)?;
            let label = entry.label.copy()?;
            applied.push(LabelTy { label, ty })?;
        }
        Ok(applied)
    }

    #[cycle(apply)]
    fn apply_pipe(&self, alloc: Global, pipe: &Option<Ty>, fuel: u64) -> Result<Option<Ty>, Memory>
        ensures same { IfOk result (λ p. (s : Solution) → Solved s (entry self.now) → ground_pipe s (pipe_of (option_map term p)) ≡ ground_pipe s (pipe_of (option_map term pipe.now))) }
        ensures put_in { IfOk result (λ p. PipePutIn (entry self.now) (pipe_of (option_map term p))) }
    {
        match pipe {
            Some(ty) => Ok(Some(self.apply_type(alloc, ty, fuel)?)),
            None => Ok(None),
        }
    }

    #[cycle(apply)]
    fn apply_row(
        &self,
        alloc: Global,
        row: &Boxed<RowTy>,
        fuel: u64,
    ) -> Result<Boxed<RowTy>, Memory>
        ensures same { IfOk result (λ r. (s : Solution) → Solved s (entry self.now) → (l : Label) → ground_row s (row_term r) l ≡ ground_row s (row_term row.now) l) }
        ensures put_in { IfOk result (λ r. IsPutIn (entry self.now) (rec (row_term r).fields (row_term r).rest)) }
    {
        let applied = self.apply_fields(alloc, row.get(), fuel)?;
        Boxed::new(alloc, applied)
    }

    #[cycle(apply)]
    fn apply_fields(&self, alloc: Global, row: &RowTy, fuel: u64) -> Result<RowTy, Memory>
        ensures same { IfOk result (λ r. (s : Solution) → Solved s (entry self.now) → (l : Label) → ground_row s (row_term r) l ≡ ground_row s (row_term row.now) l) }
        ensures put_in { IfOk result (λ r. IsPutIn (entry self.now) (rec (row_term r).fields (row_term r).rest)) }
    {
        let fields = self.apply_listed(alloc, &row.fields, fuel)?;
        let rest = self.apply_rest(alloc, &row.rest, fuel)?;
        Ok(RowTy { fields, rest })
    }

    #[cycle(apply)]
    fn apply_listed(
        &self,
        alloc: Global,
        fields: &List<LabelField>,
        fuel: u64,
    ) -> Result<List<LabelField>, Memory>
        ensures same { IfOk result (λ fs. (s : Solution) → Solved s (entry self.now) → SameFields s fs fields.now) }
        ensures put_in { IfOk result (λ fs. FieldsPutIn (entry self.now) (fields_of (map entry_term fs))) }
    {
        let mut applied = List::empty(alloc);
        for entry in fields.as_slice() {
            let field = self.apply_field(alloc, &entry.field, fuel)?;
            let label = entry.label.copy()?;
            applied.push(LabelField { label, field })?;
        }
        Ok(applied)
    }

    #[cycle(apply)]
    fn apply_rest(&self, alloc: Global, rest: &Rest, fuel: u64) -> Result<Rest, Memory>
        ensures same { IfOk result (λ r. (s : Solution) → Solved s (entry self.now) → (l : Label) → ground_tail s (rest_term r) l ≡ ground_tail s (rest_term rest.now) l) }
        ensures put_in { IfOk result (λ r. RestPutIn (entry self.now) (rest_term r)) }
    {
        match rest {
            Rest::Default(field) => Ok(Rest::Default(self.apply_field(alloc, field, fuel)?)),
            Rest::Var(number) => Ok(Rest::Var(*number)),
        }
    }

    #[cycle(apply)]
    fn apply_field(&self, alloc: Global, field: &FieldTy, fuel: u64) -> Result<FieldTy, Memory>
        ensures same { IfOk result (λ f. (s : Solution) → Solved s (entry self.now) → ground_field s (field_term f) ≡ ground_field s (field_term field.now)) }
        ensures put_in { IfOk result (λ f. FieldPutIn (entry self.now) (field_term f)) }
    {
        match field {
            FieldTy::Absent => Ok(FieldTy::Absent),
            FieldTy::Is(ty) => Ok(FieldTy::Is(self.apply_type(alloc, ty, fuel)?)),
            FieldTy::Var(number) => self.apply_variable(alloc, *number, fuel),
        }
    }

    #[cycle(apply)]
    fn apply_variable(&self, alloc: Global, number: u32, fuel: u64) -> Result<FieldTy, Memory>
        ensures same { IfOk result (λ f. (s : Solution) → Solved s (entry self.now) → ground_field s (field_term f) ≡ s.field_of number) }
        ensures put_in { IfOk result (λ f. FieldPutIn (entry self.now) (field_term f)) }
    {
        let found = self.seen(View::Var(number))?;
        match found {
            View::Absent => Ok(FieldTy::Absent),
            View::Is(ty) => Ok(FieldTy::Is(self.apply_type(alloc, ty, fuel)?)),
            View::Var(last) => Ok(FieldTy::Var(last)),
            // a row's field at a label has no name in a term
            View::Slot(_, _) => Ok(FieldTy::Var(number)),
        }
    }
}
