//! The attachments of all connections that are attached.
ghost use Rattle.std.specs.Prelude.{◌≡◌, ◌==◌, ◌<◌, ◌≤◌, [], length, true, false, IfOk, OnErr, IfSome, IsSome, IsNone, slice_get, vec_len, vec_capacity};
ghost use Rattle.std.specs.List.{filter, position};
ghost use Rattle.std.specs.Option.{option_map};
ghost use Rattle.rows.specs.Rows.{change_first};
ghost use Rattle.board_rings.specs.Rings.{AttachmentState};
ghost use Rattle.board_rings.specs.Attachments.{are_in_order, have_full, is_attached, is_full, is_attachment_of, is_not_attachment_of, attachment_of, last_sid_of, new_attachment, with_free, with_full, with_leaving, with_look_in, with_pushed, with_received, IsWith, SeesNothing};
ghost use Rattle.board_rings.specs.OnTheWay.{bytes_known_to};

use crate::attachment::{Attachment, RING_SIZE};
use crate::ends::{Ends, Inlet, Outlet};
use crate::inbound::Inbound;
use crate::places::{place_for, place_near, place_of};
use fanout::Out;
use gateway_state::Dest;
use std::alloc::{AllocError, Global};
use std::marker::Model;

/// The attachments of all connections that are attached: clients first, each by rising number.
#[derive(Drop)]
pub struct Attachments {
    rows: Vec<Attachment>,
}

impl Model for Attachments {
    ghost use Rattle.std.specs.Prelude.{◌≡◌, List, true};
    ghost use Rattle.board_rings.specs.Rings.{AttachmentState};
    ghost use Rattle.board_rings.specs.Attachments.{are_in_order};

    ghost Value = { List AttachmentState };

    ghost view = { λ l. l.rows.items };

    ghost invariant = { λ l. are_in_order l.rows.items ≡ true };
}

impl Attachments {
    /// None is attached. This takes no memory.
    pub fn new(alloc: Global) -> Attachments
        ensures { result ≡ [] }
    {
        Attachments {
            rows: Vec::new(alloc),
        }
    }

    /// How many are attached.
    pub fn len(&self) -> usize
        ensures { result ≡ length self.now }
    {
        self.rows.len()
    }

    /// Whether none is attached.
    pub fn is_empty(&self) -> bool
        ensures { result ≡ (length self.now == 0) }
    {
        self.rows.is_empty()
    }

    fn place_of(&self, dest: Dest) -> Option<usize>
        ensures { result ≡ position (is_attachment_of dest) self.now }
    {
        place_of(&self.rows, dest)
    }

    /// Whether the connection is attached.
    pub fn is_attached(&self, dest: Dest) -> bool
        ensures { result ≡ is_attached dest self.now }
    {
        self.place_of(dest).is_some()
    }

    /// The n-th of the connections that are attached.
    pub fn dest(&self, n: usize) -> Option<Dest>
        ensures { result ≡ option_map (λ attachment. attachment.dest) (slice_get self.now n) }
    {
        match self.rows.get(n) {
            Some(attachment) => Some(attachment.dest()),
            None => None,
        }
    }

    /// Makes the rings of a connection that isn't attached, and gives its workers their ends. Where
    /// memory is refused, nothing changes.
    pub fn attach(&mut self, alloc: Global, dest: Dest) -> Result<(Inlet, Outlet), AllocError>
        requires new { is_attached dest self.old ≡ false }
        ensures ok { IfOk result (λ ends. IsWith (new_attachment dest ends.0.ring ends.1.ring RING_SIZE) self.old self.new) }
        ensures offered { IfOk result (λ ends. (ends.0.offered ≡ []) × (ends.0.free ≡ RING_SIZE)) }
        ensures dest { IfOk result (λ ends. ends.0.dest ≡ dest) }
        ensures taken { IfOk result (λ ends. (ends.1.taken ≡ []) × (ends.1.seen ≡ [])) }
        ensures err { OnErr result (self.new ≡ self.old) }
    {
        self.rows.reserve(1)?;
        let (attachment, inlet, outlet) = Attachment::open(alloc, dest)?;
        add(&mut self.rows, attachment);
        Ok((inlet, outlet))
    }

    /// Receives one item that a reader offered, and tells how many are seen to follow. There is none only
    /// where it looked into the ring and found it empty, or the connection isn't attached. The guess is where its attachment may
    /// stand: a wrong one costs a search.
    pub fn receive(&mut self, dest: Dest, guess: usize) -> Option<(Inbound, usize)>
        ensures some { IfSome result (λ r. self.new ≡ change_first (is_attachment_of dest) (with_received r.0 r.1) self.old) }
        ensures there { IsSome result → is_attached dest self.old ≡ true }
        ensures none { IsNone result → self.new ≡ change_first (is_attachment_of dest) with_look_in self.old }
        ensures nothing { IsNone result → SeesNothing dest self.old }
    {
        receive(&mut self.rows, dest, guess)
    }

    /// How many places of the ring out are free now, by a look into it, 0 where the connection isn't attached.
    pub fn room(&mut self, dest: Dest, guess: usize) -> usize
        ensures found { self.new ≡ change_first (is_attachment_of dest) (with_free result) self.old }
        ensures none { is_attached dest self.old ≡ false → result ≡ 0 }
        ensures more { (attachment : AttachmentState) → attachment_of dest self.old ≡ Some attachment → attachment.free ≤ result }
        ensures most { result ≤ RING_SIZE }
    {
        room(&mut self.rows, dest, guess)
    }

    /// How many bytes were pushed and aren't known to be taken, 0 where the connection isn't attached: those of
    /// the messages that were pushed last, one for each place that wasn't found free.
    pub fn on_its_way(&self, dest: Dest, guess: usize) -> u128
        ensures { result ≡ bytes_known_to dest self.now }
    {
        on_its_way(&self.rows, dest, guess)
    }

    /// Pushes messages for which there is room, in order. Where the connection isn't attached, they are
    /// dropped.
    pub fn push_all(&mut self, dest: Dest, guess: usize, outs: Vec<Out>)
        requires { (attachment : AttachmentState) → attachment_of dest self.old ≡ Some attachment → length outs.items ≤ attachment.free }
        ensures { self.new ≡ change_first (is_attachment_of dest) (with_pushed outs.items) self.old }
    {
        push_all(&mut self.rows, dest, guess, outs);
    }

    /// Notes that a connection's end comes.
    pub fn note_end(&mut self, dest: Dest)
        ensures { self.new ≡ change_first (is_attachment_of dest) with_leaving self.old }
    {
        note_end(&mut self.rows, dest);
    }

    /// Notes of a connection whether too much waits for it.
    pub fn note_full(&mut self, dest: Dest, guess: usize, full: bool)
        ensures { self.new ≡ change_first (is_attachment_of dest) (with_full full) self.old }
    {
        note_full(&mut self.rows, dest, guess, full);
    }

    /// Whether too much waited for a connection when that was noted last.
    pub fn is_full(&self, dest: Dest) -> bool
        ensures { result ≡ is_full dest self.now }
    {
        is_full(&self.rows, dest)
    }

    /// Whether one of them was noted so.
    pub fn have_full(&self) -> bool
        ensures { result ≡ have_full self.now }
    {
        self.rows.iter().any(|attachment| attachment.is_full())
    }

    /// The SID of a connection's last request, where that reaches a server, nothing where its end comes.
    pub fn last_sid(&self, dest: Dest, guess: usize) -> Option<u32>
        ensures { result ≡ last_sid_of dest self.now }
    {
        last_sid(&self.rows, dest, guess)
    }

    /// Takes off the attachment of a connection, and gives up the board's ends.
    pub fn retire(&mut self, dest: Dest) -> Option<Ends>
        ensures found { result ≡ option_map (λ attachment. attachment.ends) (attachment_of dest self.old) }
        ensures rest { self.new ≡ filter (is_not_attachment_of dest) self.old }
    {
        retire(&mut self.rows, dest)
    }
}

// Puts an attachment at its place. There is room for it.
fn add(rows: &mut Vec<Attachment>, attachment: Attachment)
    requires order { are_in_order rows.old.items ≡ true }
    requires room { vec_len rows.old < vec_capacity rows.old }
    requires new { is_attached attachment.dest rows.old.items ≡ false }
    ensures { IsWith attachment rows.old.items rows.new.items }
{
    let place = place_for(rows, attachment.dest());
    rows.insert(place, attachment).unwrap();
}

#[tactic(auto, using(rows::proofs::RowLemmas::set_is_change_first, rows::proofs::RowLemmas::change_first_none, crate::proofs::AttachmentOrder::attached_there, crate::proofs::AttachmentOrder::sees_nothing_at, crate::proofs::AttachmentOrder::sees_nothing_nowhere))]
fn receive(rows: &mut Vec<Attachment>, dest: Dest, guess: usize) -> Option<(Inbound, usize)>
    requires { are_in_order rows.old.items ≡ true }
    ensures some { IfSome result (λ r. rows.new.items ≡ change_first (is_attachment_of dest) (with_received r.0 r.1) rows.old.items) }
    ensures there { IsSome result → is_attached dest rows.old.items ≡ true }
    ensures none { IsNone result → rows.new.items ≡ change_first (is_attachment_of dest) with_look_in rows.old.items }
    ensures nothing { IsNone result → SeesNothing dest rows.old.items }
{
    let place = place_near(rows, dest, guess)?;
    let attachment = &mut rows[place];
    attachment.receive()
}

#[tactic(auto, using(rows::proofs::RowLemmas::set_is_change_first, rows::proofs::RowLemmas::change_first_none, rows::proofs::RowLemmas::find_is_there, rows::proofs::RowLemmas::find_none, crate::proofs::AttachmentOrder::attached_there))]
fn room(rows: &mut Vec<Attachment>, dest: Dest, guess: usize) -> usize
    requires { are_in_order rows.old.items ≡ true }
    ensures found { rows.new.items ≡ change_first (is_attachment_of dest) (with_free result) rows.old.items }
    ensures none { is_attached dest rows.old.items ≡ false → result ≡ 0 }
    ensures more { (attachment : AttachmentState) → attachment_of dest rows.old.items ≡ Some attachment → attachment.free ≤ result }
    ensures most { result ≤ RING_SIZE }
{
    match place_near(rows, dest, guess) {
        Some(place) => {
            let attachment = &mut rows[place];
            attachment.room()
        }
        None => 0,
    }
}

#[tactic(auto, using(rows::proofs::RowLemmas::set_is_change_first, rows::proofs::RowLemmas::change_first_none, rows::proofs::RowLemmas::find_is_there))]
fn push_all(rows: &mut Vec<Attachment>, dest: Dest, guess: usize, outs: Vec<Out>)
    requires order { are_in_order rows.old.items ≡ true }
    requires room { (attachment : AttachmentState) → attachment_of dest rows.old.items ≡ Some attachment → length outs.items ≤ attachment.free }
    ensures { rows.new.items ≡ change_first (is_attachment_of dest) (with_pushed outs.items) rows.old.items }
{
    if let Some(place) = place_near(rows, dest, guess) {
        let attachment = &mut rows[place];
        attachment.push_all(outs);
    }
}

#[tactic(auto, using(rows::proofs::RowLemmas::set_is_change_first, rows::proofs::RowLemmas::change_first_none, rows::proofs::RowLemmas::find_is_there))]
fn note_end(rows: &mut Vec<Attachment>, dest: Dest)
    requires { are_in_order rows.old.items ≡ true }
    ensures { rows.new.items ≡ change_first (is_attachment_of dest) with_leaving rows.old.items }
{
    if let Some(place) = place_of(rows, dest) {
        let attachment = &mut rows[place];
        attachment.note_end();
    }
}

#[tactic(auto, using(rows::proofs::RowLemmas::set_is_change_first, rows::proofs::RowLemmas::change_first_none, rows::proofs::RowLemmas::find_is_there))]
fn note_full(rows: &mut Vec<Attachment>, dest: Dest, guess: usize, full: bool)
    requires { are_in_order rows.old.items ≡ true }
    ensures { rows.new.items ≡ change_first (is_attachment_of dest) (with_full full) rows.old.items }
{
    if let Some(place) = place_near(rows, dest, guess) {
        let attachment = &mut rows[place];
        attachment.note_full(full);
    }
}

#[tactic(auto, using(rows::proofs::RowLemmas::find_is_there, rows::proofs::RowLemmas::find_none, crate::proofs::AttachmentOrder::removed_is_rest, crate::proofs::AttachmentOrder::rest_is_all))]
fn retire(rows: &mut Vec<Attachment>, dest: Dest) -> Option<Ends>
    requires { are_in_order rows.old.items ≡ true }
    ensures found { result ≡ option_map (λ attachment. attachment.ends) (attachment_of dest rows.old.items) }
    ensures rest { rows.new.items ≡ filter (is_not_attachment_of dest) rows.old.items }
{
    match place_of(rows, dest) {
        Some(place) => Some(rows.remove(place).into_ends()),
        None => None,
    }
}

#[tactic(auto, using(crate::proofs::AttachmentAnswers::way_at, crate::proofs::AttachmentAnswers::way_nowhere))]
fn on_its_way(rows: &[Attachment], dest: Dest, guess: usize) -> u128
    requires { are_in_order rows.now ≡ true }
    ensures { result ≡ bytes_known_to dest rows.now }
{
    match place_near(rows, dest, guess) {
        Some(place) => {
            let attachment = &rows[place];
            attachment.bytes()
        }
        None => 0,
    }
}

#[tactic(auto, using(crate::proofs::AttachmentAnswers::full_at, crate::proofs::AttachmentAnswers::full_nowhere))]
fn is_full(rows: &[Attachment], dest: Dest) -> bool
    requires { are_in_order rows.now ≡ true }
    ensures { result ≡ is_full dest rows.now }
{
    match place_of(rows, dest) {
        Some(place) => {
            let attachment = &rows[place];
            attachment.is_full()
        }
        None => false,
    }
}

#[tactic(auto, using(crate::proofs::AttachmentAnswers::sid_at, crate::proofs::AttachmentAnswers::sid_nowhere))]
fn last_sid(rows: &[Attachment], dest: Dest, guess: usize) -> Option<u32>
    requires { are_in_order rows.now ≡ true }
    ensures { result ≡ last_sid_of dest rows.now }
{
    match place_near(rows, dest, guess) {
        Some(place) => {
            let attachment = &rows[place];
            attachment.last_sid()
        }
        None => None,
    }
}
