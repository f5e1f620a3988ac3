//! What is asked under the lock.
ghost use Rattle.gateway_state.specs.Asked.{must_end, is_open};
ghost use Rattle.gateway_state.specs.RowCounts.{row_counts};
ghost use Rattle.gateway_state.specs.Variables.{is_missing};
ghost use Rattle.gate_board.specs.Locked.{AreAsks, IsAnswered, IsSearchedIn, IsTraffic, AreArrears, IsWeighed};
ghost use Rattle.gateway_calls.specs.Counting.{link_count_of};
ghost use Rattle.gateway_calls.specs.Searching.{IsSearched};

use crate::gate::{Arrears, GateOver};
use board_moves::Traffic;
use gateway_calls::{AskFault, Failed, GatewayCalls};
use gateway_state::{Dest, Fullest, LimitsMet, RowCounts, UnansweredSince};
use pv_name::{Host, Name};
use pv_search::SearchAnswer;
use std::alloc::{AllocError, Global};
use std::sync::Wait;

impl<G: GatewayCalls + Drop> GateOver<G> {
    /// What a client's datagram from this host comes to.
    #[tactic(auto, using(crate::proofs::Under::searched))]
    pub fn search<R: Wait>(
        &self,
        rt: &R,
        host: &Host,
        datagram: &[u8],
    ) -> Result<SearchAnswer, AskFault>
        ensures { IsSearchedIn (λ w answer. IsSearched w host.now datagram.now answer) result }
    {
        self.kept.lock(rt).search(host, datagram)
    }

    /// The names to ask servers for.
    #[tactic(auto, using(crate::proofs::Under::asked))]
    pub fn asks<R: Wait>(&self, rt: &R) -> Result<Vec<Name>, AskFault>
        ensures { AreAsks result }
    {
        self.kept.lock(rt).asks()
    }

    /// Whether the connection stands.
    #[tactic(auto, using(crate::proofs::Under::answered))]
    pub fn is_open<R: Wait>(&self, rt: &R, dest: Dest) -> Result<bool, Failed>
        ensures { IsAnswered (λ w. is_open w dest) result }
    {
        self.kept.lock(rt).is_open(dest)
    }

    /// Whether the connection stands and must end.
    #[tactic(auto, using(crate::proofs::Under::answered))]
    pub fn must_end<R: Wait>(&self, rt: &R, dest: Dest) -> Result<bool, Failed>
        ensures { IsAnswered (λ w. must_end w dest) result }
    {
        self.kept.lock(rt).must_end(dest)
    }

    /// How many bytes wait for the connection in its outbox, and in its ring out as far as they aren't known to be
    /// taken: 0 where it doesn't stand and isn't attached, and at most the type's last value.
    #[tactic(auto, using(crate::proofs::Under::weighed))]
    pub fn waiting_bytes<R: Wait>(&self, rt: &R, dest: Dest) -> Result<u64, Failed>
        ensures { IsWeighed dest result }
    {
        self.kept.lock(rt).waiting_bytes(dest)
    }

    /// Whether the connection must end, and how many bytes wait for it, at one time.
    #[tactic(auto, using(crate::proofs::Under::arrears_so, crate::proofs::Under::failed_so))]
    pub fn arrears<R: Wait>(&self, rt: &R, dest: Dest) -> Result<Arrears, Failed>
        ensures { AreArrears dest result }
    {
        let mut kept = self.kept.lock(rt);
        let waiting = kept.waiting_bytes(dest)?;
        let must_end = kept.must_end(dest)?;
        Ok(Arrears { must_end, waiting })
    }

    /// How many links a server has, none where there is no such server.
    #[tactic(auto, using(crate::proofs::Under::answered))]
    pub fn link_count_of<R: Wait>(&self, rt: &R, server: u32) -> Result<usize, Failed>
        ensures { IsAnswered (λ w. link_count_of w server) result }
    {
        self.kept.lock(rt).link_count_of(server)
    }

    /// Whether the name is one to ask servers for now: wanted, and without a link.
    #[tactic(auto, using(crate::proofs::Under::answered))]
    pub fn is_missing<R: Wait>(&self, rt: &R, name: &Name) -> Result<bool, Failed>
        ensures { IsAnswered (λ w. is_missing w name.now) result }
    {
        self.kept.lock(rt).is_missing(name)
    }

    /// How often limits were met since the start.
    pub fn limits_met<R: Wait>(&self, rt: &R) -> LimitsMet {
        self.kept.lock(rt).limits_met()
    }

    /// Waits while so many searches on connections had no answer when they came, and gives those that came since, as
    /// far as they are known: for whoever makes them again. `None` where the gate is closed or the engine has failed.
    pub fn next_unanswered<R: Wait>(
        &self,
        rt: &R,
        alloc: Global,
        seen: u64,
    ) -> Option<Result<UnansweredSince, AllocError>> {
        let kept = self.kept.lock(rt);
        let mut kept = self.unanswered.wait_while(rt, kept, |kept| {
            !kept.has_stopped() && kept.unanswered_count() == seen
        });
        if kept.has_stopped() {
            return None;
        }
        Some(kept.unanswered_since(alloc, seen))
    }

    /// The most that one client or server has now.
    pub fn fullest<R: Wait>(&self, rt: &R) -> Fullest {
        self.kept.lock(rt).fullest()
    }

    /// How many rows of each kind the gateway has.
    #[tactic(auto, using(crate::proofs::Under::answered))]
    pub fn row_counts<R: Wait>(&self, rt: &R) -> Result<RowCounts, Failed>
        ensures { IsAnswered row_counts result }
    {
        self.kept.lock(rt).row_counts()
    }

    /// How many messages went through so far.
    #[tactic(auto, using(crate::proofs::Under::told))]
    pub fn traffic<R: Wait>(&self, rt: &R) -> Traffic
        ensures { IsTraffic result }
    {
        self.kept.lock(rt).traffic()
    }
}
