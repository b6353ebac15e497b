//! Laws of the meaning, each as the contract of a function that does nothing.
ghost use Rattle.std.specs.Prelude.{ℤ, List};
ghost use Rattle.fx_ast.specs.Tree.{Tree};
ghost use Rattle.fx_base.specs.declared.place.Place.{Place};
ghost use Rattle.fx_meaning.specs.declared.setting.Setting.{Setting};
ghost use Rattle.fx_meaning.specs.Meaning.{Tests, meaning, call_meaning};
ghost use Rattle.fx_meaning.specs.Rows.{Row, row_meaning};
ghost use Rattle.fx_meaning.specs.Value.{Slots, Val};
ghost use Rattle.fx_value.specs.Ends.{IsLimited};

/// The law of the limit: evaluation, a call and a row function end within their limit or are More,
/// and an end stays the same under each greater limit. So there is one end at most.
pub fn meaning_is_limited()
    ensures expression { (test : Tests) (setting : Setting) (e : Tree) (env : Slots) → IsLimited (meaning test setting e env) }
    ensures call { (test : Tests) (place : Place) (moment : ℤ) (args : Slots) (v : Val) → IsLimited (call_meaning test place moment args v) }
    ensures row { (test : Tests) (v : Val) (rows : List Row) → IsLimited (row_meaning test v rows) }
{}
