//! What a worker was told of why it has to end, which contracts alone read.
ghost use Rattle.std.specs.Prelude.{◌≡◌, ◌+◌, []};
ghost use Rattle.board_rings.specs.Told.{name_of};

use crate::looks::LookCount;
use boxcar::tag::{Names, Tag};
use gateway_state::Dest;
use std::marker::Model;

/// What can show to a worker that it has to end: what stands under a gate's lock.
pub trait Teller {
    // Nothing is moved any more, for good.
    ghost has_stopped: { Self → Type 0 };

    ghost use Rattle.gateway_state.specs.declared.event.Dest.{Dest};

    // The messages for the connection come to an end.
    ghost is_over: { Self → Dest → Type 0 };
}

/// Of which connection a worker was told last that its messages come to an end, and how often it was told so. It takes
/// no memory.
#[derive(Drop)]
pub(crate) struct ToldEnds {
    times: LookCount,
    last: Tag,
}

impl Model for ToldEnds {
    ghost use Rattle.board_rings.specs.Told.{TimesTold};

    ghost Value = { TimesTold };

    ghost view = { λ e. record { times = e.times; last = e.last.numbers } };
}

// The numbers by which a connection is named.
struct ByName;

impl Names<Dest> for ByName {
    ghost use Rattle.board_rings.specs.Told.{name_of};

    ghost numbers = { name_of };
}

impl ToldEnds {
    /// It wasn't told.
    pub(crate) fn none() -> ToldEnds
        ensures { result ≡ record { times = 0; last = [] } }
    {
        ToldEnds {
            times: LookCount::none(),
            last: Tag::empty(),
        }
    }

    /// It is told once more.
    pub(crate) fn tell(&mut self, dest: Dest)
        ensures { self.new ≡ record { times = self.old.times + 1; last = name_of dest } }
    {
        self.times.count();
        self.last = Tag::of::<Dest, ByName>(&dest);
    }
}
