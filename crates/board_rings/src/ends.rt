//! The ends of the rings.
ghost use Rattle.board_rings.specs.Told.{name_of};
ghost use Rattle.std.specs.Prelude.{◌≡◌, ◌==◌, ◌++◌, ◌∷◌, ◌<◌, ◌≤◌, ◌+◌, [], length, OnOk, OnErr, IfErr, IfSome, IsNone, IsOk, IsSome};

use crate::attachment::RING_SIZE;
use crate::counted::{CountedConsumer, CountedProducer};
use crate::inbound::Inbound;
use crate::looks::LookCount;
use crate::told::{Teller, ToldEnds};
use fanout::Out;
use gateway_state::Dest;
use rtrb::{Consumer, Producer, PushError};
use std::marker::Model;

/// A reader's end of the ring in. It can move to another thread.
#[derive(Drop)]
pub struct Inlet {
    pub(crate) ring: CountedProducer<Inbound>,
    // Whose ring it is, for those that wait for a place.
    pub(crate) dest: Dest,
    pub(crate) stops: LookCount,
}

impl Model for Inlet {
    ghost use Rattle.rtrb.specs.Ring.{sent, known_free};
    ghost use Rattle.board_rings.specs.Rings.{InletState, ring_of};

    ghost Value = { InletState };

    ghost view = { λ i. record {
      ring = ring_of i.ring.end.end;
      dest = i.dest;
      offered = sent i.ring.end;
      free = known_free i.ring.end;
      looks = i.ring.looks;
      stops = i.stops;
    } };
}

impl Inlet {
    /// For which connection it was attached.
    pub fn dest(&self) -> Dest
        ensures { result ≡ self.now.dest }
    {
        self.dest
    }

    /// Offers what comes from the peer. It comes back only where it looked into the ring, and no place was free.
    pub fn offer(&mut self, item: Inbound) -> Result<(), Inbound>
        ensures ok { OnOk result (self.new.offered ≡ self.old.offered ++ item ∷ []) }
        ensures places { OnOk result (self.old.free ≤ self.new.free + 1) }
        ensures err { IfErr result (λ back. back ≡ item) }
        ensures same { OnErr result (self.new ≡ record self.old { looks = self.old.looks + 1 }) }
        ensures full { OnErr result (self.new.free ≡ 0) }
        ensures succeeds { 0 < self.old.free → IsOk result }
        ensures looked { self.new.looks ≡ self.old.looks + 1 }
        ensures ring { self.new.ring ≡ self.old.ring }
        ensures told { self.new.stops ≡ self.old.stops }
        ensures dest { self.new.dest ≡ self.old.dest }
    {
        match self.ring.push(item) {
            Ok(()) => Ok(()),
            Err(PushError::Full(back)) => Err(back),
        }
    }

    /// Whether all places of the ring are free, by a look into it: what was offered has been received.
    pub fn is_clear(&mut self) -> bool
        ensures clear { result ≡ (self.new.free == RING_SIZE) }
        ensures places { self.old.free ≤ self.new.free }
        ensures same { self.new ≡ record self.old { free = self.new.free; looks = self.old.looks + 1 } }
    {
        self.ring.slots() == RING_SIZE
    }

    /// Notes that nothing is moved any more, which the teller shows. It does nothing at run time.
    pub fn note_stop<T: Teller>(&mut self, teller: &T)
        requires { T.has_stopped teller.now }
        ensures { self.new ≡ record self.old { stops = self.old.stops + 1 } }
    {
        let _teller = teller;
        self.stops.count();
    }
}

/// A writer's end of the ring out. It can move to another thread.
#[derive(Drop)]
pub struct Outlet {
    pub(crate) ring: CountedConsumer<Out>,
    pub(crate) stops: LookCount,
    pub(crate) ends: ToldEnds,
}

impl Model for Outlet {
    ghost use Rattle.rtrb.specs.Ring.{received, known_items};
    ghost use Rattle.board_rings.specs.Rings.{OutletState, ring_of};

    ghost Value = { OutletState };

    ghost view = { λ o. record {
      ring = ring_of o.ring.end.end;
      taken = received o.ring.end;
      seen = known_items o.ring.end;
      looks = o.ring.looks;
      stops = o.stops;
      ends = o.ends;
    } };
}

impl Outlet {
    /// Takes the next message that goes to the peer. There is none only where it looked into the ring, and found it
    /// empty.
    pub fn next(&mut self) -> Option<Out>
        ensures some { IfSome result (λ out. self.new.taken ≡ self.old.taken ++ out ∷ []) }
        ensures none { IsNone result → self.new ≡ record self.old { looks = self.old.looks + 1 } }
        ensures nothing { IsNone result → self.new.seen ≡ [] }
        ensures succeeds { 0 < length self.old.seen → IsSome result }
        ensures looked { self.new.looks ≡ self.old.looks + 1 }
        ensures ring { self.new.ring ≡ self.old.ring }
        ensures told { (self.new.stops ≡ self.old.stops) × (self.new.ends ≡ self.old.ends) }
    {
        match self.ring.pop() {
            Ok(out) => Some(out),
            Err(_) => None,
        }
    }

    /// Notes that nothing is moved any more, which the teller shows. It does nothing at run time.
    pub fn note_stop<T: Teller>(&mut self, teller: &T)
        requires { T.has_stopped teller.now }
        ensures { self.new ≡ record self.old { stops = self.old.stops + 1 } }
    {
        let _teller = teller;
        self.stops.count();
    }

    /// Notes that the messages for a connection come to an end, which the teller shows. It does nothing at run time.
    pub fn note_over<T: Teller>(&mut self, teller: &T, dest: Dest)
        requires { T.is_over teller.now dest }
        ensures { self.new ≡ record self.old { ends = record { times = self.old.ends.times + 1; last = name_of dest } } }
    {
        let _teller = teller;
        self.ends.tell(dest);
    }
}

/// The board's ends of both rings of one attachment.
#[derive(Drop)]
pub struct Ends {
    pub read: Consumer<Inbound>,
    pub write: Producer<Out>,
}

impl Model for Ends {
    ghost use Rattle.rtrb.specs.Ring.{sent, received};
    ghost use Rattle.board_rings.specs.Rings.{EndsState, ring_of};

    ghost Value = { EndsState };

    ghost view = { λ e. record {
      in_ring = ring_of e.read.end;
      received = received e.read;
      out_ring = ring_of e.write.end;
      pushed = sent e.write;
    } };
}
