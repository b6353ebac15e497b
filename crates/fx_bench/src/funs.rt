use fx_base::{Halt, Meter, Patterns, Text};
use fx_value::{Answer, Row, RowFun, Scalar};
use std::alloc::Global;

/// Wants each row.
pub struct AllRows;

impl RowFun for AllRows {
    ghost use Rattle.std.specs.Prelude.{[]};
    ghost use Rattle.fx_value.specs.Ends.{Gives};
    ghost use Rattle.fx_value.specs.declared.answer.Answer.TheVariants.{Cell};
    ghost use Rattle.fx_value.specs.declared.scalar.Scalar.TheVariants.{Bool};
    ghost use Rattle.std.specs.Prelude.{true};
    ghost use Rattle.fx_bench.specs.FirstRow.{always_limited};

    ghost numbers = { λ f. [] };

    ghost means = { λ f says rows limit. Gives (Cell (Bool true)) 0 };

    ghost limited = { λ f says rows. always_limited (Cell (Bool true)) };

    fn call_one<P: Patterns>(
        &self,
        _alloc: Global,
        _row: &Row,
        _meter: &mut Meter,
        _patterns: &mut P,
    ) -> Result<Answer, Halt> {
        Ok(Answer::Cell(Scalar::Bool(true)))
    }

    fn call_two<P: Patterns>(
        &self,
        _alloc: Global,
        _first: &Row,
        _second: &Row,
        _meter: &mut Meter,
        _patterns: &mut P,
    ) -> Result<Answer, Halt> {
        Ok(Answer::Cell(Scalar::Bool(true)))
    }
}

/// Wants no row.
pub struct NoRows;

impl RowFun for NoRows {
    ghost use Rattle.std.specs.Prelude.{[]};
    ghost use Rattle.fx_value.specs.Ends.{Gives};
    ghost use Rattle.fx_value.specs.declared.answer.Answer.TheVariants.{Cell};
    ghost use Rattle.fx_value.specs.declared.scalar.Scalar.TheVariants.{Bool};
    ghost use Rattle.std.specs.Prelude.{false};
    ghost use Rattle.fx_bench.specs.FirstRow.{always_limited};

    ghost numbers = { λ f. [] };

    ghost means = { λ f says rows limit. Gives (Cell (Bool false)) 0 };

    ghost limited = { λ f says rows. always_limited (Cell (Bool false)) };

    fn call_one<P: Patterns>(
        &self,
        _alloc: Global,
        _row: &Row,
        _meter: &mut Meter,
        _patterns: &mut P,
    ) -> Result<Answer, Halt> {
        Ok(Answer::Cell(Scalar::Bool(false)))
    }

    fn call_two<P: Patterns>(
        &self,
        _alloc: Global,
        _first: &Row,
        _second: &Row,
        _meter: &mut Meter,
        _patterns: &mut P,
    ) -> Result<Answer, Halt> {
        Ok(Answer::Cell(Scalar::Bool(false)))
    }
}

/// Gives a label of the first row this value.
#[derive(Drop)]
pub struct SetLabel {
    pub label: Text,
    pub value: i64,
}

impl RowFun for SetLabel {
    ghost use Rattle.std.specs.Prelude.{[]};
    ghost use Rattle.std.specs.FinMap.{insert};
    ghost use Rattle.fx_value.specs.declared.scalar.Scalar.TheVariants.{Int};
    ghost use Rattle.fx_bench.specs.FirstRow.{made_of_first, first_limited};

    ghost numbers = { λ f. [] };

    ghost means = { λ f says rows limit. made_of_first (λ row. insert row f.label (Int f.value)) rows };

    ghost limited = { λ f says rows. first_limited (λ row. insert row f.label (Int f.value)) rows };

    fn call_one<P: Patterns>(
        &self,
        alloc: Global,
        row: &Row,
        _meter: &mut Meter,
        _patterns: &mut P,
    ) -> Result<Answer, Halt> {
        let mut made = row.copy()?;
        made.set(alloc, self.label.copy()?, Scalar::Int(self.value))?;
        Ok(Answer::Line(made))
    }

    fn call_two<P: Patterns>(
        &self,
        alloc: Global,
        first: &Row,
        _second: &Row,
        meter: &mut Meter,
        patterns: &mut P,
    ) -> Result<Answer, Halt> {
        self.call_one(alloc, first, meter, patterns)
    }
}

/// Gives the first row.
pub struct FirstRow;

impl RowFun for FirstRow {
    ghost use Rattle.std.specs.Prelude.{[]};
    ghost use Rattle.fx_bench.specs.FirstRow.{made_of_first, first_limited};

    ghost numbers = { λ f. [] };

    ghost means = { λ f says rows limit. made_of_first (λ row. row) rows };

    ghost limited = { λ f says rows. first_limited (λ row. row) rows };

    fn call_one<P: Patterns>(
        &self,
        _alloc: Global,
        row: &Row,
        _meter: &mut Meter,
        _patterns: &mut P,
    ) -> Result<Answer, Halt> {
        Ok(Answer::Line(row.copy()?))
    }

    fn call_two<P: Patterns>(
        &self,
        _alloc: Global,
        first: &Row,
        _second: &Row,
        _meter: &mut Meter,
        _patterns: &mut P,
    ) -> Result<Answer, Halt> {
        Ok(Answer::Line(first.copy()?))
    }
}
