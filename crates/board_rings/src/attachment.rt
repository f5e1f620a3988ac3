//! The board's side of one attachment.
ghost use Rattle.std.specs.Prelude.{◌≡◌, ◌^◌, ◌≤◌, ◌+◌, ◌-◌, ◌++◌, [], length, map, IfOk, IfSome, IsNone};
ghost use Rattle.rtrb.specs.Ring.{sent, known_free, SameProducer};
ghost use Rattle.fanout.specs.Waiting.{out_len};
ghost use Rattle.board_rings.specs.Attachments.{is_attachment_of, last_sid, new_attachment, reaches_server, sid_after, with_free, with_full, with_leaving, with_look_in, with_pushed, with_received};
ghost use Rattle.board_rings.specs.OnTheWay.{bytes_on_the_way};

use crate::counted::{CountedConsumer, CountedProducer};
use crate::ends::{Ends, Inlet, Outlet};
use crate::inbound::Inbound;
use crate::lengths::Lengths;
use crate::looks::LookCount;
use crate::told::ToldEnds;
use ca_message::commands::{
    CA_PROTO_EVENT_ADD, CA_PROTO_EVENT_CANCEL, CA_PROTO_WRITE, CA_PROTO_WRITE_NOTIFY,
};
use fanout::Out;
use gateway_state::Dest;
use rtrb::{Producer, RingBuffer};
use std::alloc::{AllocError, Global};
use std::marker::Model;

/// How many items a ring holds at most.
pub const RING_SIZE: usize = 256;

/// A connection that is attached, and the board's ends of its rings.
#[derive(Drop)]
pub struct Attachment {
    dest: Dest,
    read: CountedConsumer<Inbound>,
    write: CountedProducer<Out>,
    /// The lengths of what was pushed and isn't known to be taken.
    lengths: Lengths,
    last: Option<u32>,
    leaving: bool,
    full: bool,
}

impl Model for Attachment {
    ghost use Rattle.std.specs.Prelude.{◌≡◌, ◌≤◌, ◌-◌, length, map};
    ghost use Rattle.rtrb.specs.Ring.{sent, received, known_free, known_items, producer_capacity, consumer_capacity};
    ghost use Rattle.board_rings.specs.declared.attachment.TheConstants.{RING_SIZE};
    ghost use Rattle.fanout.specs.Waiting.{out_len};
    ghost use Rattle.board_rings.specs.OnTheWay.{last_of};
    ghost use Rattle.board_rings.specs.Rings.{AttachmentState, ring_of};

    ghost Value = { AttachmentState };

    ghost view = { λ l. record {
      dest = l.dest;
      ends = record {
        in_ring = ring_of l.read.end.end;
        received = received l.read.end;
        out_ring = ring_of l.write.end.end;
        pushed = sent l.write.end;
      };
      free = known_free l.write.end;
      seen = length (known_items l.read.end);
      in_looks = l.read.looks;
      out_looks = l.write.looks;
      last = l.last;
      leaving = l.leaving;
      full = l.full;
    } };

    ghost invariant = { λ l. record {
      places : producer_capacity l.write.end ≡ RING_SIZE;
      items : consumer_capacity l.read.end ≡ RING_SIZE;
      few : known_free l.write.end ≤ RING_SIZE;
      lengths : l.lengths ≡ map out_len (last_of (RING_SIZE - known_free l.write.end) (sent l.write.end));
    } };
}

impl Attachment {
    /// Makes both rings of a connection.
    pub(crate) fn open(alloc: Global, dest: Dest) -> Result<(Attachment, Inlet, Outlet), AllocError>
        ensures offered { IfOk result (λ r. (r.1.offered ≡ []) × (r.1.free ≡ RING_SIZE)) }
        ensures dest { IfOk result (λ r. r.1.dest ≡ dest) }
        ensures taken { IfOk result (λ r. (r.2.taken ≡ []) × (r.2.seen ≡ [])) }
        ensures attachment { IfOk result (λ r. r.0 ≡ new_attachment dest r.1.ring r.2.ring RING_SIZE) }
    {
        let (inward, read) = RingBuffer::new(alloc, RING_SIZE)?;
        let (write, outward) = RingBuffer::new(alloc, RING_SIZE)?;
        let attachment = Attachment {
            dest,
            read: CountedConsumer::new(read),
            write: CountedProducer::new(write),
            lengths: Lengths::new(alloc)?,
            last: None,
            leaving: false,
            full: false,
        };
        let inlet = Inlet {
            ring: CountedProducer::new(inward),
            dest,
            stops: LookCount::none(),
        };
        let outlet = Outlet {
            ring: CountedConsumer::new(outward),
            stops: LookCount::none(),
            ends: ToldEnds::none(),
        };
        Ok((attachment, inlet, outlet))
    }

    /// Whose attachment it is.
    pub(crate) fn dest(&self) -> Dest
        ensures { result ≡ self.now.dest }
    {
        self.dest
    }

    /// Whether it is this connection's attachment.
    pub(crate) fn is_of(&self, dest: Dest) -> bool
        ensures { result ≡ is_attachment_of dest self.now }
    {
        self.dest == dest
    }

    /// Receives one item, and tells how many are seen to follow. There is none only where it looked into the ring, and
    /// found it empty.
    pub(crate) fn receive(&mut self) -> Option<(Inbound, usize)>
        ensures some { IfSome result (λ r. self.new ≡ with_received r.0 r.1 self.old) }
        ensures none { IsNone result → self.new ≡ with_look_in self.old }
        ensures nothing { IsNone result → self.old.seen ≡ 0 }
    {
        match self.read.pop() {
            Ok(item) => {
                self.last = sid_after(&item, self.last);
                let seen = self.read.slots();
                Some((item, seen))
            }
            Err(_) => None,
        }
    }

    /// How many places of the ring out are free now, by a look into it.
    pub(crate) fn room(&mut self) -> usize
        ensures found { self.new ≡ with_free result self.old }
        ensures more { self.old.free ≤ result }
        ensures most { result ≤ RING_SIZE }
    {
        let free = self.write.slots();
        self.lengths.keep_last(RING_SIZE - free);
        free
    }

    /// How many bytes were pushed and aren't known to be taken.
    pub(crate) fn bytes(&self) -> u128
        ensures { result ≡ bytes_on_the_way self.now.free self.now }
    {
        self.lengths.bytes()
    }

    /// Pushes messages for which there is room.
    pub(crate) fn push_all(&mut self, outs: Vec<Out>)
        requires { length outs.items ≤ self.old.free }
        ensures { self.new ≡ with_pushed outs.items self.old }
    {
        push_each(&mut self.write.end, &mut self.lengths, outs);
    }

    /// Notes that its end comes.
    pub(crate) fn note_end(&mut self)
        ensures { self.new ≡ with_leaving self.old }
    {
        self.leaving = true;
    }

    /// Notes whether too much waits for it.
    pub(crate) fn note_full(&mut self, full: bool)
        ensures { self.new ≡ with_full full self.old }
    {
        self.full = full;
    }

    /// Whether too much waited for it when that was noted last.
    pub(crate) fn is_full(&self) -> bool
        ensures { result ≡ self.now.full }
    {
        self.full
    }

    /// The SID of the last request, where that reaches a server, unless its end comes.
    pub(crate) fn last_sid(&self) -> Option<u32>
        ensures { result ≡ last_sid self.now }
    {
        if self.leaving { None } else { self.last }
    }

    /// Gives up the ends of both rings.
    pub(crate) fn into_ends(self) -> Ends
        ensures { result ≡ self.ends }
    {
        let Attachment {
            dest: _,
            read,
            write,
            lengths: _,
            last: _,
            leaving: _,
            full: _,
        } = self;
        Ends {
            read: read.into_end(),
            write: write.into_end(),
        }
    }
}

/// Whether a request reaches a server: a write, a subscription or its cancel, whose first parameter is the SID of its
/// channel. A read doesn't, which is answered from the cache.
fn reaches_server(command: u16) -> bool
    ensures { result ≡ reaches_server command }
{
    command == CA_PROTO_WRITE
        || command == CA_PROTO_WRITE_NOTIFY
        || command == CA_PROTO_EVENT_ADD
        || command == CA_PROTO_EVENT_CANCEL
}

/// The SID of the last request, where that reaches a server, once this item came behind the others.
fn sid_after(item: &Inbound, before: Option<u32>) -> Option<u32>
    ensures { result ≡ sid_after item.now before }
{
    match item {
        Inbound::Message(message) if reaches_server(message.head.command) => Some(message.head.p1),
        Inbound::Message(_) => None,
        Inbound::Gone => before,
    }
}

/// How many bytes a message has as it goes out.
fn len_of(out: &Out) -> u128
    ensures len { result ≡ out_len out.now }
    ensures short { result ≤ 2 ^ 65 }
{
    out.head.as_slice().len() as u128 + out.payload.len() as u128
}

fn push_each(ring: &mut Producer<Out>, lengths: &mut Lengths, outs: Vec<Out>)
    requires room { length outs.items ≤ known_free ring.old }
    requires counted { length lengths.old + length outs.items ≤ RING_SIZE }
    ensures same { SameProducer ring.old ring.new }
    ensures pushed { sent ring.new ≡ sent ring.old ++ outs.items }
    ensures free { known_free ring.new ≡ known_free ring.old - length outs.items }
    ensures lengths { lengths.new ≡ lengths.old ++ map out_len outs.items }
{
    for out in outs {
        lengths.push(len_of(&out));
        ring.push_reserved(out);
    }
}
