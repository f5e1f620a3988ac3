//! How often an end of a ring looked at what the other end did.
ghost use Rattle.std.specs.Prelude.{◌≡◌, ◌+◌};

use boxcar::tag::{Names, Tag};
use std::marker::Model;

/// A count that contracts alone read. It takes no memory, and to count does nothing at run time.
#[derive(Drop)]
pub(crate) struct LookCount {
    // It names a number for each look.
    each: Tag,
}

impl Model for LookCount {
    ghost use Rattle.std.specs.Prelude.{ℕ, length};

    ghost Value = { ℕ };

    ghost view = { λ l. length l.each.numbers };
}

// The numbers of a tag, and one more.
struct OneMore;

impl Names<Tag> for OneMore {
    ghost use Rattle.std.specs.Prelude.{◌∷◌};

    ghost numbers = { λ tag. 0 ∷ tag.numbers };
}

impl LookCount {
    /// There was none.
    pub(crate) fn none() -> LookCount
        ensures { result ≡ 0 }
    {
        LookCount { each: Tag::empty() }
    }

    /// There is one more.
    pub(crate) fn count(&mut self)
        ensures { self.new ≡ self.old + 1 }
    {
        self.each = Tag::of::<Tag, OneMore>(&self.each);
    }
}
