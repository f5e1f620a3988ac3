//! What holds of the two ends of a ring, and the numbers of the crate.
ghost use Rattle.std.specs.Prelude.{◌≡◌, ◌+◌, length, take};

use crate::attachment::RING_SIZE;
use crate::ends::{Ends, Inlet, Outlet};

/// How much lies between a reader and the board: what was received is what was offered, from the
/// front on, and this many items follow.
pub fn left_in(inlet: &mut Inlet, ends: &mut Ends) -> usize
    requires pair { inlet.old.ring ≡ ends.old.in_ring }
    ensures count { length inlet.old.offered ≡ length ends.old.received + result }
    ensures order { take (length ends.old.received) inlet.old.offered ≡ ends.old.received }
    ensures same { (inlet.new.offered ≡ inlet.old.offered) × (ends.new ≡ ends.old) }
    ensures ring { inlet.new.ring ≡ inlet.old.ring }
{
    ends.read.slots_beside(&mut inlet.ring.end)
}

/// How much lies between the board and a writer: what was taken is what was pushed, from the front
/// on, and this many messages follow.
pub fn left_out(outlet: &mut Outlet, ends: &mut Ends) -> usize
    requires pair { outlet.old.ring ≡ ends.old.out_ring }
    ensures count { length ends.old.pushed ≡ length outlet.old.taken + result }
    ensures order { take (length outlet.old.taken) ends.old.pushed ≡ outlet.old.taken }
    ensures same { (outlet.new.taken ≡ outlet.old.taken) × (ends.new ≡ ends.old) }
    ensures ring { outlet.new.ring ≡ outlet.old.ring }
{
    outlet.ring.end.slots_beside(&mut ends.write)
}

/// The number of the crate.
pub fn numbers_are_these()
    ensures { RING_SIZE ≡ 256 }
{}
