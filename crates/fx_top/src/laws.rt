//! What holds of the answers of every call.
ghost use Rattle.std.specs.Prelude.{◌≡◌, ℕ, ℤ, List, Option};
ghost use Rattle.fx_base.specs.Outside.{Told};
ghost use Rattle.fx_top.specs.Answer.{Answers, IsSettled};
ghost use Rattle.fx_top.specs.declared.outcome.Outcome.{Outcome};

/// Of the answers that no device and no want of memory makes, the words and what the files tell
/// allow one at most.
pub fn answers_exclude_each_other()
    ensures { (moment : ℤ) (told : Told) (words : List (List ℕ)) (old new old' new' : Option (List ℕ)) (o p : Outcome) → IsSettled o → IsSettled p → Answers moment told words old new o → Answers moment told words old' new' p → o ≡ p }
{}
