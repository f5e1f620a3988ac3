//! The syntaxes of patterns.
ghost use Rattle.std.specs.Prelude.{◌≡◌};
ghost use Rattle.pvlist.specs.Syntax.{has_bare_groups};

/// How a pattern writes groups and alternatives outside brackets. All else is the same in both.
#[derive(Clone, Copy, Debug, PartialEq, Eq)]
pub enum Syntax {
    /// By `\(`, `\)` and `\|`. Without a backslash the three stand for themselves.
    Escaped,
    /// By `(`, `)` and `|`. After a backslash the three stand for themselves.
    Plain,
}

impl Syntax {
    /// Whether a group is written without a backslash.
    pub(crate) fn has_bare_groups(self) -> bool
        ensures { result ≡ has_bare_groups self }
    {
        self == Syntax::Plain
    }
}
