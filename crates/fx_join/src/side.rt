ghost use Rattle.std.specs.Prelude.{◌≡◌};
ghost use Rattle.fx_join.specs.Join.{keeps_left, keeps_right};

/// Which rows without a partner a join keeps.
#[derive(Clone, Copy, Debug, PartialEq, Eq)]
pub enum Side {
    Inner,
    Left,
    Right,
    Full,
}

impl Side {
    /// Whether left rows without a partner are kept.
    pub(crate) fn keeps_left(self) -> bool
        ensures { result ≡ keeps_left self }
    {
        match self {
            Side::Inner | Side::Right => false,
            Side::Left | Side::Full => true,
        }
    }

    /// Whether right rows without a partner are kept.
    pub(crate) fn keeps_right(self) -> bool
        ensures { result ≡ keeps_right self }
    {
        match self {
            Side::Inner | Side::Left => false,
            Side::Right | Side::Full => true,
        }
    }
}
