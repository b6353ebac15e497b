//! What holds of every line.
ghost use Rattle.std.specs.Prelude.{◌≡◌, ℕ, List, false};
ghost use Rattle.std.specs.Str.{IsUtf8};
ghost use Rattle.fx_line.specs.declared.line.LineError.{LineError};
ghost use Rattle.fx_line.specs.declared.line.LineError.TheVariants.{Syntax};
ghost use Rattle.fx_line.specs.declared.line.LineMode.{LineMode};
ghost use Rattle.fx_line.specs.declared.point.Point.{Point};
ghost use Rattle.fx_line.specs.Line.{trimmed, is_blank, Gives, Skips, IsRefused};

/// A line gives one list of points, or is refused for one reason, and never both.
pub fn a_line_has_one_answer()
    ensures points { (mode : LineMode) (line : List ℕ) (ps qs : List Point) → Gives mode line ps → Gives mode line qs → ps ≡ qs }
    ensures skipped { (line : List ℕ) (m n : ℕ) → Skips line m → Skips line n → m ≡ n }
    ensures errors { (mode : LineMode) (line : List ℕ) (d e : LineError) → IsRefused mode line d → IsRefused mode line e → d ≡ e }
    ensures apart { (mode : LineMode) (line : List ℕ) (ps : List Point) (e : LineError) → Gives mode line ps → IsRefused mode line e → ⊥ }
{}

/// A line whose bytes are no UTF-8 is of no form, unless it is a comment.
pub fn bytes_are_text()
    ensures { (mode : LineMode) (line : List ℕ) → is_blank (trimmed line) ≡ false → (IsUtf8 line → ⊥) → IsRefused mode line Syntax }
{}
