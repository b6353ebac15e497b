//! Where a text or a pattern ends.
ghost use Rattle.std.specs.Prelude.{◌≡◌, ◌≤◌, IfSome, length};
ghost use Rattle.fx_scan.specs.Forms as form;
ghost use Rattle.fx_scan.specs.Readers as spec;

/// What the bytes before leave open.
#[derive(Clone, Copy)]
pub(crate) enum Open {
    /// A text.
    Text,
    /// A text with a backslash.
    Escape,
    /// A text with a `$`.
    Dollar,
    /// A pattern.
    Pattern,
    /// A pattern with a backslash.
    Backslash,
}

/// What one byte makes of what is open.
#[derive(Clone, Copy)]
enum Step {
    Goes(Open),
    /// The end, by `${` or not.
    Ends(bool),
    /// No text and no pattern.
    Breaks,
}

/// Where a text or a pattern ends: its length, and whether it ends with `${`.
#[derive(Clone, Copy)]
pub(crate) struct End {
    pub(crate) opens: bool,
    pub(crate) len: usize,
}

#[tactic(auto, unfolding(crate::specs::Readers::step_text))]
fn step_text(b: u8) -> Step
    ensures { result ≡ spec.step_text b }
{
    if b == b'"' {
        Step::Ends(false)
    } else if b == b'\\' {
        Step::Goes(Open::Escape)
    } else if b == b'$' {
        Step::Goes(Open::Dollar)
    } else {
        Step::Goes(Open::Text)
    }
}

/// What may stand after a backslash in a text.
#[tactic(auto, unfolding(crate::specs::Forms::is_escape))]
fn is_escape(b: u8) -> bool
    ensures { result ≡ form.is_escape b }
{
    b == b'n' || b == b'r' || b == b't' || b == b'"' || b == b'\\' || b == b'$'
}

#[tactic(auto, unfolding(crate::specs::Readers::step_pattern))]
fn step_pattern(b: u8) -> Step
    ensures { result ≡ spec.step_pattern b }
{
    if b == b'/' {
        Step::Ends(false)
    } else if b == b'\\' {
        Step::Goes(Open::Backslash)
    } else if b == b'\n' {
        Step::Breaks
    } else {
        Step::Goes(Open::Pattern)
    }
}

fn next_step(held: Open, b: u8) -> Step
    ensures { result ≡ spec.next_step held b }
{
    match held {
        Open::Text => step_text(b),
        Open::Escape if is_escape(b) => Step::Goes(Open::Text),
        Open::Escape => Step::Breaks,
        Open::Dollar if b == b'{' => Step::Ends(true),
        Open::Dollar => step_text(b),
        Open::Pattern => step_pattern(b),
        Open::Backslash if b == b'\n' => Step::Breaks,
        Open::Backslash => Step::Goes(Open::Pattern),
    }
}

/// Where that which is open ends, or None where it never does.
pub(crate) fn end_of(held: Open, s: &[u8]) -> Option<End>
    ensures value { result ≡ spec.end_of s.now held 0 }
    ensures within { IfSome result (λ e. e.len ≤ length s.now) }
{
    let mut held = held;
    'bytes: for (i, b) in s.iter().enumerate() {
        match next_step(held, *b) {
            Step::Goes(next) => held = next,
            Step::Ends(opens) => return Some(End { opens, len: i + 1 }),
            Step::Breaks => return None,
        }
    }
    None
}
