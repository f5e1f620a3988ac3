//! The board.
ghost use Rattle.std.specs.Prelude.{◌≡◌, ℕ, ◌↔◌, ◌⊎◌, [], Some, IsSome, IsNone, IsOk, OnOk, OnErr, IfOk, IfSome, IsErrOf, filter, true};
ghost use Rattle.std.specs.Option.{option_map};
ghost use Rattle.gateway_calls.specs.Counting.{link_count_of};
ghost use Rattle.gateway_calls.specs.Searching.{IsSearched};
ghost use Rattle.gateway_state.specs.Asked.{is_open, must_end, queued};
ghost use Rattle.gateway_state.specs.Variables.{asks, is_missing};
ghost use Rattle.gateway_state.specs.RowCounts.{row_counts};
ghost use Rattle.rows.specs.Rows.{change_first};
ghost use Rattle.board_rings.specs.Attachments.{are_in_order, is_attached, is_attachment_of, is_not_attachment_of, attachment_of, with_leaving};
ghost use Rattle.board_rings.specs.declared.attachment.TheConstants.{RING_SIZE};
ghost use Rattle.board_rings.specs.Calls.{Attaches};
ghost use Rattle.board_rings.specs.History.{HasHistory};
ghost use Rattle.board_moves.specs.Answers.{ends_of, IsDesk, IsNew, IsPump, IsSendOut, IsWaiting, KeepsRings};
ghost use Rattle.board_moves.specs.Noted.{bare, has_left_nothing, lost_by, seat_bit, IsNoted, PumpTells, SendTells, StayNoted};
ghost use Rattle.board_moves.specs.Rounds.{IsBatch, IsRound};

use crate::fault::BoardFault;
use crate::news::{News, Traffic};
use crate::{batches, moves, rounds};
use board_rings::{Attachments, Ends, Inlet, Outlet};
use gateway_calls::{AskFault, Failed, GatewayCalls};
use gateway_state::{Dest, Event, Fullest, LimitsMet, RowCounts, UnansweredSince};
use pv_name::{Host, Name};
use pv_search::SearchAnswer;
use std::alloc::{AllocError, Global};
use std::marker::Model;

/// A gateway, and an attachment with two rings for each connection that is attached. A refused step leaves it
/// failed for good; then it still attaches and retires.
#[derive(Drop)]
pub struct BoardOver<G: GatewayCalls + Drop> {
    alloc: Global,
    gate: G,
    attachments: Attachments,
    // Whom the moves concern, for those that wait.
    news: News,
}

impl<G: GatewayCalls + Drop> Model for BoardOver<G> {
    ghost use Rattle.board_rings.specs.History.{HasHistory};
    ghost use Rattle.board_moves.specs.Answers.{board_of};
    ghost use Rattle.board_moves.specs.Noted.{NotedBoard};
    ghost use Rattle.rule_desk.specs.contracts.policy.Policy as the_policy;
    ghost use Rattle.std.specs.Coded.{codes};

    ghost Value = { NotedBoard };

    ghost coded = { Prim.hlevel (codes, the_policy.the_row.coded) };

    ghost view = { λ b. record { rows = G.state b.gate; attachments = b.attachments; news = b.news } };

    // Whatever was called, some history leads to the board.
    ghost invariant = { λ b. HasHistory (board_of (G.state b.gate) b.attachments) };
}

impl<G: GatewayCalls + Drop> BoardOver<G> {
    /// A board for a gateway to which nothing happened yet. No connection is attached.
    pub fn new(alloc: Global, gate: G) -> BoardOver<G>
        requires new { IsNew (G.state gate) }
        ensures rows { result.rows ≡ G.state gate }
        ensures attachments { result.attachments ≡ [] }
        ensures news { (seat : ℕ) → seat_bit seat result.news.words ≡ 0 }
    {
        BoardOver {
            alloc,
            gate,
            attachments: Attachments::new(alloc),
            news: News::none(),
        }
    }

    /// Does nothing. Its contract is a law: some history leads to the board, whose attachments stand in order.
    pub fn has_history(&mut self)
        ensures history { HasHistory (bare self.old) }
        ensures ordered { are_in_order self.old.attachments ≡ true }
        ensures same { self.new ≡ self.old }
    {
        let _gate = &self.gate;
    }

    /// Gives a connection two rings. It may be one that doesn't stand yet, or not any more.
    #[tactic(auto, using(board_rings::proofs::Goes::attached_has_history))]
    pub fn attach(&mut self, dest: Dest) -> Result<(Inlet, Outlet), BoardFault>
        ensures ok { IfOk result (λ r. Attaches dest r.0.ring r.1.ring RING_SIZE (bare self.old) (bare self.new)) }
        ensures empty { IfOk result (λ r. (r.0.offered ≡ []) × (r.0.free ≡ RING_SIZE) × (r.1.taken ≡ []) × (r.1.seen ≡ [])) }
        ensures dest { IfOk result (λ r. r.0.dest ≡ dest) }
        ensures attached { IsErrOf result BoardFault.Attached ↔ (is_attached dest self.old.attachments ≡ true) }
        ensures err { OnErr result (self.new ≡ self.old) }
        ensures news { self.new.news ≡ self.old.news }
        ensures cause { IsErrOf result BoardFault.Attached ⊎ IsErrOf result BoardFault.OutOfMemory ⊎ IsOk result }
    {
        if self.attachments.is_attached(dest) {
            return Err(BoardFault::Attached);
        }
        match self.attachments.attach(self.alloc, dest) {
            Ok(ends) => Ok(ends),
            Err(_) => Err(BoardFault::OutOfMemory),
        }
    }

    /// Receives one item of a connection and performs its event. It answers whether there was one.
    #[tactic(auto, using(crate::proofs::Keeps::pump_keeps))]
    pub fn pump(&mut self, dest: Dest) -> Result<bool, BoardFault>
        ensures pump { IsPump dest (bare self.old) result (bare self.new) }
        ensures told { PumpTells dest result self.old.attachments self.new.attachments self.new.rows self.old.news self.new.news }
        ensures kept { StayNoted self.old.news self.new.news }
        ensures rings { KeepsRings self.old.attachments self.new.attachments }
    {
        moves::pump(&mut self.gate, &mut self.attachments, &mut self.news, dest)
    }

    /// Performs an event that comes through no ring: any but a connection's messages and what takes
    /// messages.
    #[tactic(auto, using(crate::proofs::Keeps::desk_keeps))]
    pub fn desk(&mut self, event: Event) -> Result<(), BoardFault>
        ensures desk { IsDesk event (bare self.old) result (bare self.new) }
        ensures told { OnOk result (IfSome (lost_by event) (λ lost. IsNoted lost self.new.news)) }
        ensures kept { StayNoted self.old.news self.new.news }
        ensures rings { KeepsRings self.old.attachments self.new.attachments }
    {
        moves::desk(&mut self.gate, &self.attachments, &mut self.news, event)
    }

    /// Takes a connection's share of messages, as one event, and pushes them: as many as places of its ring out are
    /// found free, up to 64, where all that waits and all that is on its way are below a bound in bytes; else as many
    /// as would fit if all were equally long, one at least, and none where the bound is reached. It answers how many
    /// there were.
    #[tactic(auto, using(crate::proofs::Keeps::send_out_keeps))]
    pub fn send_out(&mut self, dest: Dest) -> Result<usize, BoardFault>
        ensures sent { IsSendOut dest (bare self.old) result (bare self.new) }
        ensures told { SendTells dest result self.old.rows (bare self.new) self.old.news self.new.news }
        ensures kept { StayNoted self.old.news self.new.news }
        ensures rings { KeepsRings self.old.attachments self.new.attachments }
    {
        moves::send_out(
            &mut self.gate,
            &mut self.attachments,
            &mut self.news,
            dest,
            0,
        )
    }

    /// Pumps each attached connection, then sends out to each, clients first, by rising number, up to the
    /// first fault. It answers how many items were moved.
    #[tactic(auto, using(crate::proofs::Keeps::round_keeps))]
    pub fn round(&mut self) -> Result<usize, BoardFault>
        ensures round { IsRound self.old result self.new }
        ensures kept { StayNoted self.old.news self.new.news }
        ensures rings { KeepsRings self.old.attachments self.new.attachments }
    {
        rounds::round(&mut self.gate, &mut self.attachments, &mut self.news)
    }

    /// Weighs what waits for servers, and for clients where too much came to wait for one in the last round, or is noted
    /// of somebody. Then it performs a round, but for those that are held, which aren't pumped, and again as long as one
    /// saw items that it left, a bounded number of times, up to the first fault, or until too much waits for a client of
    /// which that isn't noted. It answers how many items were moved. A client is held for which more than 32 MiB waited;
    /// or whose last request, a write, a subscription or a cancel, reached a server for which more than 8,192 messages or
    /// 16 MiB waited, unless its end comes.
    pub fn batch(&mut self) -> Result<usize, BoardFault>
        ensures batch { IsBatch self.old result self.new }
        ensures kept { StayNoted self.old.news self.new.news }
        ensures rings { KeepsRings self.old.attachments self.new.attachments }
    {
        batches::batch(&mut self.gate, &mut self.attachments, &mut self.news)
    }

    /// Takes the board's ends of a connection's rings off, with all that went through them.
    #[tactic(auto, using(crate::proofs::Keeps::retire_keeps))]
    pub fn retire(&mut self, dest: Dest) -> Option<Ends>
        ensures found { result ≡ option_map ends_of (attachment_of dest self.old.attachments) }
        ensures rows { self.new.rows ≡ self.old.rows }
        ensures attachments { self.new.attachments ≡ filter (is_not_attachment_of dest) self.old.attachments }
        ensures news { self.new.news ≡ self.old.news }
    {
        self.attachments.retire(dest)
    }

    /// How many messages wait for the connection, 0 where it doesn't stand.
    pub fn queued(&mut self, dest: Dest) -> Result<usize, Failed>
        ensures found { IfOk result (λ answer. Some answer ≡ option_map (λ w. queued w dest) self.old.rows) }
        ensures failed { IsOk result ↔ IsSome self.old.rows }
        ensures same { self.new ≡ self.old }
    {
        self.gate.queued(dest)
    }

    /// How many rows of each kind the gateway has.
    pub fn row_counts(&mut self) -> Result<RowCounts, Failed>
        ensures found { IfOk result (λ counts. Some counts ≡ option_map row_counts self.old.rows) }
        ensures failed { IsOk result ↔ IsSome self.old.rows }
        ensures same { self.new ≡ self.old }
    {
        self.gate.row_counts()
    }

    /// How many bytes wait for the connection in its outbox, and in its ring out as far as they aren't known to be
    /// taken, after a look at the places of the ring: 0 where it doesn't stand and isn't attached, and at most the
    /// type's last value.
    #[tactic(auto, using(crate::proofs::Keeps::waiting_keeps))]
    pub fn waiting_bytes(&mut self, dest: Dest) -> Result<u64, Failed>
        ensures waiting { IsWaiting dest (bare self.old) result (bare self.new) }
        ensures news { self.new.news ≡ self.old.news }
    {
        moves::waiting_bytes(&mut self.gate, &mut self.attachments, dest)
    }

    /// Notes that the end of a connection comes: it isn't held any more, so that its end is heard.
    #[tactic(auto, using(crate::proofs::Keeps::ended_keeps))]
    pub fn note_end(&mut self, dest: Dest)
        ensures rows { self.new.rows ≡ self.old.rows }
        ensures attachments { self.new.attachments ≡ change_first (is_attachment_of dest) with_leaving self.old.attachments }
        ensures news { self.new.news ≡ self.old.news }
    {
        self.attachments.note_end(dest);
    }

    /// How many links a server has, none where there is no such server.
    pub fn link_count_of(&mut self, server: u32) -> Result<usize, Failed>
        ensures found { IfOk result (λ answer. Some answer ≡ option_map (λ w. link_count_of w server) self.old.rows) }
        ensures failed { IsOk result ↔ IsSome self.old.rows }
        ensures same { self.new ≡ self.old }
    {
        self.gate.link_count_of(server)
    }

    /// Whether the name is one to ask servers for now: wanted, and without a link.
    pub fn is_missing(&mut self, name: &Name) -> Result<bool, Failed>
        ensures found { IfOk result (λ answer. Some answer ≡ option_map (λ w. is_missing w name.now) self.old.rows) }
        ensures failed { IsOk result ↔ IsSome self.old.rows }
        ensures same { self.new ≡ self.old }
    {
        self.gate.is_missing(name)
    }

    /// How often limits were met since the start. No contract speaks of it: it is for whoever watches.
    pub fn limits_met(&self) -> LimitsMet {
        self.gate.limits_met()
    }

    /// How many searches on connections had no answer when they came. No contract speaks of it: it is for whoever
    /// makes them again.
    pub fn unanswered_count(&self) -> u64 {
        self.gate.unanswered_count()
    }

    /// The searches on connections that had no answer when they came, behind the first so many, as far as they are
    /// known. No contract speaks of it: it is for whoever makes them again.
    pub fn unanswered_since(
        &self,
        alloc: Global,
        seen: u64,
    ) -> Result<UnansweredSince, AllocError> {
        self.gate.unanswered_since(alloc, seen)
    }

    /// The most that one client or server has now. No contract speaks of it: it is for whoever watches.
    pub fn fullest(&self) -> Fullest {
        self.gate.fullest()
    }

    /// Whether the last round left no items and no messages, and too much waits for nobody: another one finds what came
    /// since, or places that became free.
    pub fn has_left_nothing(&self) -> bool
        ensures { result ≡ has_left_nothing self.now }
    {
        let is_left = self.news.has_left() || self.news.has_unsent();
        let is_much = self.news.has_grown() || self.attachments.have_full();
        !(is_left || is_much)
    }

    /// How many messages went through so far.
    pub fn traffic(&self) -> Traffic
        ensures { result ≡ self.now.news.traffic }
    {
        self.news.traffic()
    }

    /// Hands out whom the moves concerned since this was last called.
    pub fn take_news(&mut self) -> News
        ensures out { result ≡ self.old.news }
        ensures anew { (seat : ℕ) → seat_bit seat self.new.news.words ≡ 0 }
        ensures counts { self.new.news.traffic ≡ self.old.news.traffic }
        ensures same { bare self.new ≡ bare self.old }
    {
        self.news.take()
    }

    /// Whether the connection stands.
    pub fn is_open(&mut self, dest: Dest) -> Result<bool, Failed>
        ensures found { IfOk result (λ answer. Some answer ≡ option_map (λ w. is_open w dest) self.old.rows) }
        ensures failed { IsOk result ↔ IsSome self.old.rows }
        ensures same { self.new ≡ self.old }
    {
        self.gate.is_open(dest)
    }

    /// Whether the connection stands and must end.
    pub fn must_end(&mut self, dest: Dest) -> Result<bool, Failed>
        ensures found { IfOk result (λ answer. Some answer ≡ option_map (λ w. must_end w dest) self.old.rows) }
        ensures failed { IsOk result ↔ IsSome self.old.rows }
        ensures same { self.new ≡ self.old }
    {
        self.gate.must_end(dest)
    }

    /// The names to ask servers for.
    pub fn asks(&mut self) -> Result<Vec<Name>, AskFault>
        ensures found { IfOk result (λ names. Some names.items ≡ option_map asks self.old.rows) }
        ensures failed { IsErrOf result AskFault.Failed ↔ IsNone self.old.rows }
        ensures same { self.new ≡ self.old }
    {
        self.gate.asks()
    }

    /// What a client's datagram from this host comes to.
    pub fn search(&mut self, host: &Host, datagram: &[u8]) -> Result<SearchAnswer, AskFault>
        ensures found { IfOk result (λ answer. IfSome self.old.rows (λ w. IsSearched w host.now datagram.now answer)) }
        ensures failed { IsErrOf result AskFault.Failed ↔ IsNone self.old.rows }
        ensures same { self.new ≡ self.old }
    {
        self.gate.search(host, datagram)
    }
}
