//! What is typed is never stuck: each law as the contract of a function that does nothing.
ghost use Rattle.std.specs.Prelude.{◌≡◌, ◌∷◌, ℕ, List, [], true};
ghost use Rattle.fx_base.specs.declared.place.Place.{Place};
ghost use Rattle.fx_value.specs.Ends.{End};
ghost use Rattle.fx_types.specs.Ground.{Ground, GroundRow, g_stream};
ghost use Rattle.fx_types.specs.Term.{Label};
ghost use Rattle.fx_ast.specs.Free.{free};
ghost use Rattle.fx_ast.specs.Tree.{Tree, tree, name, StatementTree};
ghost use Rattle.fx_data.specs.declared.table.Table.{Table};
ghost use Rattle.fx_infer.specs.Environment.{Env, HasType, assigned};
ghost use Rattle.fx_infer.specs.Script.{HasTyping};
ghost use Rattle.fx_meaning.specs.declared.setting.Setting.{Setting};
ghost use Rattle.fx_meaning.specs.Meaning.{Tests, meaning};
ghost use Rattle.fx_meaning.specs.Value.{Slots, Stream, Val};
ghost use Rattle.fx_build.specs.Fit.{Meets, fits, stream_fits};
ghost use Rattle.fx_build.specs.Rows.{TablesFit};
ghost use Rattle.fx_build.specs.Run.{script_run};
ghost use Rattle.fx_build.specs.Safe.{IsSafe};
ghost use Rattle.fx_build.specs.Sound.{FitsAll, IsSettingOf, RunFits, ShowsSafely};
ghost use Rattle.fx_plan.specs.Sources.{AreLawful, Stored};
ghost use Rattle.fx_plan.specs.Streams.{all_listed, listed_yield, stream_meaning, yield_meaning};

/// A typed expression, in values that meet its environment, is Stuck under no limit, and its value
/// fits each of its types.
pub fn expressions_are_sound()
    ensures safe { (test : Tests) (setting : Setting) (env : Env) (slots : Slots) (e : Tree) (t : Ground) (limit : ℕ) → Meets (free e) setting env slots → HasType env e t → IsSafe (FitsAll env e) (meaning test setting e slots limit) }
    ensures name { (env : Env) (x : Label) (e : Tree) (place : Place) (v : Val) → FitsAll env e v → FitsAll (assigned x e ∷ env) (tree place (name x)) v }
{}

/// A stream that fits is Stuck under no limit over any lawful stored points, and its tables fit; so
/// is its yield. It is made of operators that make tables.
pub fn streams_are_sound()
    ensures listed { (call : Stream) (r : GroundRow) → stream_fits call (g_stream r) → all_listed call ≡ true }
    ensures tables { (test : Tests) (stored : Stored) (call : Stream) (r : GroundRow) (limit : ℕ) → AreLawful stored → all_listed call ≡ true → stream_fits call (g_stream r) → IsSafe (TablesFit r) (stream_meaning test stored call limit) }
    ensures shown { (test : Tests) (stored : Stored) (call : Stream) (r : GroundRow) (limit : ℕ) → AreLawful stored → all_listed call ≡ true → stream_fits call (g_stream r) → IsSafe (TablesFit r) (yield_meaning test stored call limit) }
{}

/// The run of a script with a typing is Stuck under no limit, in a setting with its patterns, where
/// yields of streams that fit are safe. The value of each statement fits every type that the typing
/// gives it, and the tables of each yield fit each row of types that its stream fits. Yields are safe
/// over lawful stored points where each shows what its stream means (`stored`), and so too where
/// those alone do whose operators all make tables (`listed`), which are all.
pub fn runs_are_sound()
    ensures run { (test : Tests) (setting : Setting) (tables : Stream → ℕ → End (List Table)) (ss : List StatementTree) (limit : ℕ) → HasTyping ss → IsSettingOf setting ss → ShowsSafely TablesFit tables → RunFits TablesFit ss [] (script_run test setting tables ss limit) }
    ensures listed { (test : Tests) (setting : Setting) (stored : Stored) (ss : List StatementTree) (limit : ℕ) → AreLawful stored → HasTyping ss → IsSettingOf setting ss → RunFits TablesFit ss [] (script_run test setting (listed_yield test stored) ss limit) }
    ensures stored { (test : Tests) (setting : Setting) (stored : Stored) (ss : List StatementTree) (limit : ℕ) → AreLawful stored → HasTyping ss → IsSettingOf setting ss → RunFits TablesFit ss [] (script_run test setting (yield_meaning test stored) ss limit) }
{}
