/// What the tokens before settle: whether a `/` divides, and whether an interpolation is open.
#[derive(Clone, Copy)]
pub(crate) struct Mode {
    pub(crate) divides: bool,
    pub(crate) in_hole: bool,
}
