//! What stands under a gate's lock.
ghost use Rattle.std.specs.Prelude.{◌≡◌, ℕ, ◌↔◌, ◌⊎◌, [], Some, IsSome, IsNone, IsOk, IsTrue, OnOk, OnErr, IfOk, IfSome, IsErrOf, filter, true, false};
ghost use Rattle.std.specs.Option.{option_map};
ghost use Rattle.gateway_calls.specs.Counting.{link_count_of};
ghost use Rattle.gateway_calls.specs.Searching.{IsSearched};
ghost use Rattle.gateway_state.specs.Asked.{is_open, must_end};
ghost use Rattle.gateway_state.specs.Variables.{asks, is_missing};
ghost use Rattle.gateway_state.specs.RowCounts.{row_counts};
ghost use Rattle.rows.specs.Rows.{change_first};
ghost use Rattle.board_rings.specs.Attachments.{is_attached, is_attachment_of, is_not_attachment_of, attachment_of, with_leaving};
ghost use Rattle.board_rings.specs.declared.attachment.TheConstants.{RING_SIZE};
ghost use Rattle.board_rings.specs.Calls.{Attaches};
ghost use Rattle.board_rings.specs.History.{is_for_desk};
ghost use Rattle.board_moves.specs.Answers.{ends_of, IsDesk, IsWaiting, KeepsRings};
ghost use Rattle.board_moves.specs.Noted.{bare, lost_by, seat_bit, IsNoted, StayNoted};
ghost use Rattle.board_moves.specs.Keeping.{has_waiting, is_over, woken, ComesTo, IsBatchTurn, IsTurn, SameBeside, WakesBeside};

use crate::board::BoardOver;
use crate::fault::BoardFault;
use crate::news::{News, Traffic};
use crate::turn::Turn;
use board_rings::{Ends, Inlet, Outlet, Teller};
use gateway_calls::{AskFault, Failed, GatewayCalls};
use gateway_state::{Dest, Event, Fullest, LimitsMet, RowCounts, UnansweredSince};
use pv_name::{Host, Name};
use pv_search::SearchAnswer;
use std::alloc::{AllocError, Global};
use std::marker::Model;

/// A board, a mark that its gate is closed, a count of wakes, and whether nothing is to be moved before the next: a
/// thread that remembers the count from before it tried misses none.
#[derive(Drop)]
pub struct KeptBoard<G: GatewayCalls + Drop> {
    board: BoardOver<G>,
    closed: bool,
    wakes: u64,
    rests: bool,
}

impl<G: GatewayCalls + Drop> Model for KeptBoard<G> {
    ghost use Rattle.board_moves.specs.Keeping.{KeptState};
    ghost use Rattle.rule_desk.specs.contracts.policy.Policy as the_policy;
    ghost use Rattle.std.specs.Coded.{codes};

    ghost Value = { KeptState };

    ghost coded = { Prim.hlevel (codes, the_policy.the_row.coded) };

    ghost view = { λ k. record { board = k.board; closed = k.closed; wakes = k.wakes; rests = k.rests } };
}

// What it shows to a worker that has to end. A mark that is set stays so, and a gateway that has failed.
impl<G: GatewayCalls + Drop> Teller for KeptBoard<G> {
    ghost use Rattle.std.specs.Prelude.{◌≡◌, ◌⊎◌, true, IsNone};
    ghost use Rattle.board_moves.specs.Keeping.{is_over};

    ghost has_stopped = { λ k. (k.closed ≡ true) ⊎ IsNone k.board.rows };

    ghost is_over = { λ k dest. is_over dest k.board.rows ≡ true };
}

impl<G: GatewayCalls + Drop> KeptBoard<G> {
    /// A gate's keep that is open, for a board.
    pub fn new(board: BoardOver<G>) -> KeptBoard<G>
        ensures { result ≡ record { board = board; closed = false; wakes = 0; rests = false } }
    {
        KeptBoard {
            board,
            closed: false,
            wakes: 0,
            rests: false,
        }
    }

    /// The count of wakes.
    pub fn wakes(&self) -> u64
        ensures { result ≡ self.now.wakes }
    {
        self.wakes
    }

    /// Whether the last turn moved something and left nothing, and nothing woke since.
    pub fn rests(&self) -> bool
        ensures { result ≡ self.now.rests }
    {
        self.rests
    }

    /// Counts one wake more.
    pub fn wake(&mut self)
        ensures { self.new ≡ woken self.old }
    {
        self.wakes = self.wakes.wrapping_add(1);
        self.rests = false;
    }

    /// Closes for good, and counts a wake.
    pub fn close(&mut self)
        ensures { self.new ≡ record (woken self.old) { closed = true } }
    {
        self.closed = true;
        self.wake();
    }

    /// Whether nothing will be moved any more: it is closed, or the gateway has failed.
    pub fn has_stopped(&mut self) -> bool
        ensures stopped { IsTrue result ↔ ((self.old.closed ≡ true) ⊎ IsNone self.old.board.rows) }
        ensures same { self.new ≡ self.old }
    {
        self.closed || self.board.is_open(Dest::Session(0)).is_err()
    }

    /// Whether the connection's messages come to an end: it doesn't stand, or must end.
    pub fn is_over(&mut self, dest: Dest) -> bool
        ensures over { result ≡ is_over dest self.old.board.rows }
        ensures same { self.new ≡ self.old }
    {
        let stands = matches!(self.board.is_open(dest), Ok(true));
        !stands || matches!(self.board.must_end(dest), Ok(true))
    }

    /// Whether messages wait for the connection.
    pub fn has_waiting(&mut self, dest: Dest) -> bool
        ensures waiting { result ≡ has_waiting dest self.old.board.rows }
        ensures same { self.new ≡ self.old }
    {
        match self.board.queued(dest) {
            Ok(count) => count != 0,
            Err(_) => false,
        }
    }

    /// Performs an event that comes through no ring, and counts a wake.
    pub fn desk(&mut self, event: Event) -> Result<(), BoardFault>
        ensures desk { IsDesk event (bare self.old.board) result (bare self.new.board) }
        ensures told { OnOk result (IfSome (lost_by event) (λ lost. IsNoted lost self.new.board.news)) }
        ensures kept { StayNoted self.old.board.news self.new.board.news }
        ensures not_here { IsErrOf result BoardFault.NotHere ↔ (is_for_desk event ≡ false) }
        ensures rings { KeepsRings self.old.board.attachments self.new.board.attachments }
        ensures wakes { WakesBeside self.old self.new }
    {
        let answer = self.board.desk(event);
        self.wake();
        answer
    }

    /// Gives a connection two rings, and counts a wake.
    pub fn attach(&mut self, dest: Dest) -> Result<(Inlet, Outlet), BoardFault>
        ensures ok { IfOk result (λ r. Attaches dest r.0.ring r.1.ring RING_SIZE (bare self.old.board) (bare self.new.board)) }
        ensures empty { IfOk result (λ r. (r.0.offered ≡ []) × (r.0.free ≡ RING_SIZE) × (r.1.taken ≡ []) × (r.1.seen ≡ [])) }
        ensures dest { IfOk result (λ r. r.0.dest ≡ dest) }
        ensures attached { IsErrOf result BoardFault.Attached ↔ (is_attached dest self.old.board.attachments ≡ true) }
        ensures err { OnErr result (self.new.board ≡ self.old.board) }
        ensures news { self.new.board.news ≡ self.old.board.news }
        ensures cause { IsErrOf result BoardFault.Attached ⊎ IsErrOf result BoardFault.OutOfMemory ⊎ IsOk result }
        ensures wakes { WakesBeside self.old self.new }
    {
        let answer = self.board.attach(dest);
        self.wake();
        answer
    }

    /// Takes the board's ends of a connection's rings off.
    pub fn retire(&mut self, dest: Dest) -> Option<Ends>
        ensures found { result ≡ option_map ends_of (attachment_of dest self.old.board.attachments) }
        ensures rows { self.new.board.rows ≡ self.old.board.rows }
        ensures attachments { self.new.board.attachments ≡ filter (is_not_attachment_of dest) self.old.board.attachments }
        ensures news { self.new.board.news ≡ self.old.board.news }
        ensures same { SameBeside self.old self.new }
    {
        self.board.retire(dest)
    }

    /// What a client's datagram from this host comes to.
    pub fn search(&mut self, host: &Host, datagram: &[u8]) -> Result<SearchAnswer, AskFault>
        ensures found { IfOk result (λ answer. IfSome self.old.board.rows (λ w. IsSearched w host.now datagram.now answer)) }
        ensures failed { IsErrOf result AskFault.Failed ↔ IsNone self.old.board.rows }
        ensures same { self.new ≡ self.old }
    {
        self.board.search(host, datagram)
    }

    /// The names to ask servers for.
    pub fn asks(&mut self) -> Result<Vec<Name>, AskFault>
        ensures found { IfOk result (λ names. Some names.items ≡ option_map asks self.old.board.rows) }
        ensures failed { IsErrOf result AskFault.Failed ↔ IsNone self.old.board.rows }
        ensures same { self.new ≡ self.old }
    {
        self.board.asks()
    }

    /// Whether the connection stands.
    pub fn is_open(&mut self, dest: Dest) -> Result<bool, Failed>
        ensures found { IfOk result (λ answer. Some answer ≡ option_map (λ w. is_open w dest) self.old.board.rows) }
        ensures failed { IsOk result ↔ IsSome self.old.board.rows }
        ensures same { self.new ≡ self.old }
    {
        self.board.is_open(dest)
    }

    /// Whether the connection stands and must end.
    pub fn must_end(&mut self, dest: Dest) -> Result<bool, Failed>
        ensures found { IfOk result (λ answer. Some answer ≡ option_map (λ w. must_end w dest) self.old.board.rows) }
        ensures failed { IsOk result ↔ IsSome self.old.board.rows }
        ensures same { self.new ≡ self.old }
    {
        self.board.must_end(dest)
    }

    /// How many rows of each kind the gateway has.
    pub fn row_counts(&mut self) -> Result<RowCounts, Failed>
        ensures found { IfOk result (λ counts. Some counts ≡ option_map row_counts self.old.board.rows) }
        ensures failed { IsOk result ↔ IsSome self.old.board.rows }
        ensures same { self.new ≡ self.old }
    {
        self.board.row_counts()
    }

    /// How many bytes wait for the connection in its outbox, and in its ring out as far as they aren't known to be
    /// taken, after a look at the places of the ring: 0 where it doesn't stand and isn't attached, and at most the
    /// type's last value.
    pub fn waiting_bytes(&mut self, dest: Dest) -> Result<u64, Failed>
        ensures waiting { IsWaiting dest (bare self.old.board) result (bare self.new.board) }
        ensures news { self.new.board.news ≡ self.old.board.news }
        ensures same { SameBeside self.old self.new }
    {
        self.board.waiting_bytes(dest)
    }

    /// Notes that the end of a connection comes, and counts a wake: it isn't held any more.
    pub fn note_end(&mut self, dest: Dest)
        ensures rows { self.new.board.rows ≡ self.old.board.rows }
        ensures attachments { self.new.board.attachments ≡ change_first (is_attachment_of dest) with_leaving self.old.board.attachments }
        ensures news { self.new.board.news ≡ self.old.board.news }
        ensures wakes { WakesBeside self.old self.new }
    {
        self.board.note_end(dest);
        self.wake();
    }

    /// How many links a server has, none where there is no such server.
    pub fn link_count_of(&mut self, server: u32) -> Result<usize, Failed>
        ensures found { IfOk result (λ answer. Some answer ≡ option_map (λ w. link_count_of w server) self.old.board.rows) }
        ensures failed { IsOk result ↔ IsSome self.old.board.rows }
        ensures same { self.new ≡ self.old }
    {
        self.board.link_count_of(server)
    }

    /// Whether the name is one to ask servers for now: wanted, and without a link.
    pub fn is_missing(&mut self, name: &Name) -> Result<bool, Failed>
        ensures found { IfOk result (λ answer. Some answer ≡ option_map (λ w. is_missing w name.now) self.old.board.rows) }
        ensures failed { IsOk result ↔ IsSome self.old.board.rows }
        ensures same { self.new ≡ self.old }
    {
        self.board.is_missing(name)
    }

    /// How often limits were met since the start. No contract speaks of it: it is for whoever watches.
    pub fn limits_met(&self) -> LimitsMet {
        self.board.limits_met()
    }

    /// How many searches on connections had no answer when they came. No contract speaks of it: it is for whoever
    /// makes them again.
    pub fn unanswered_count(&self) -> u64 {
        self.board.unanswered_count()
    }

    /// The searches on connections that had no answer when they came, behind the first so many, as far as they are
    /// known. No contract speaks of it: it is for whoever makes them again.
    pub fn unanswered_since(
        &self,
        alloc: Global,
        seen: u64,
    ) -> Result<UnansweredSince, AllocError> {
        self.board.unanswered_since(alloc, seen)
    }

    /// The most that one client or server has now. No contract speaks of it: it is for whoever watches.
    pub fn fullest(&self) -> Fullest {
        self.board.fullest()
    }

    /// Performs one round of the board, unless it is closed. Nothing where that moved nothing; else it
    /// counts a wake, and rests if nothing is left.
    pub fn try_turn(&mut self) -> Option<Turn>
        ensures turn { IsTurn self.old result self.new }
    {
        if self.closed {
            self.wake();
            return Some(Turn::Closed);
        }
        let moved = self.board.round();
        self.turn_of(moved)
    }

    /// Performs one batch of the board, as `try_turn` does a round.
    pub fn try_batch(&mut self) -> Option<Turn>
        ensures turn { IsBatchTurn self.old result self.new }
    {
        if self.closed {
            self.wake();
            return Some(Turn::Closed);
        }
        let moved = self.board.batch();
        self.turn_of(moved)
    }

    // What so many moved items come to. Unless they are none it counts a wake, and rests if nothing is left.
    fn turn_of(&mut self, moved: Result<usize, BoardFault>) -> Option<Turn>
        ensures turn { ComesTo moved self.old result self.new }
    {
        match moved {
            Ok(0) => None,
            Ok(_) => {
                self.wake();
                self.rests = self.board.has_left_nothing();
                Some(Turn::Moved)
            }
            Err(_) => {
                self.wake();
                Some(Turn::Failed)
            }
        }
    }

    /// How many messages went through so far.
    pub fn traffic(&self) -> Traffic
        ensures { result ≡ self.now.board.news.traffic }
    {
        self.board.traffic()
    }

    /// Hands out whom the moves concerned since this was last called.
    pub fn take_news(&mut self) -> News
        ensures out { result ≡ self.old.board.news }
        ensures anew { (seat : ℕ) → seat_bit seat self.new.board.news.words ≡ 0 }
        ensures counts { self.new.board.news.traffic ≡ self.old.board.news.traffic }
        ensures board { bare self.new.board ≡ bare self.old.board }
        ensures same { SameBeside self.old self.new }
    {
        self.board.take_news()
    }
}
