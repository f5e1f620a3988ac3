//! What ties a count of looks to its table.
ghost use Rattle.std.specs.Prelude.{◌≡◌};

use std::marker::Model;

/// A table and the count that was made beside it bear the same brand. It takes no memory, and no call
/// tells it; nor does a contract say of two tables that theirs are alike, so who has two can't show that the
/// count of one is that of the other.
#[derive(Debug, Drop)]
pub(crate) struct Brand;

impl Model for Brand {
    ghost use Rattle.std.specs.Prelude.{ℕ};

    ghost Value = { ℕ };

    ghost view = { λ b. 0 };
}

impl Brand {
    /// The brand of a table, and the same for its count.
    pub(crate) fn pair() -> (Brand, Brand)
        ensures { result.0 ≡ result.1 }
    {
        (Brand, Brand)
    }
}
