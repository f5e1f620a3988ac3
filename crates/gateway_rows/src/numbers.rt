//! The numbers of new channels.
ghost use Rattle.std.specs.Prelude.{◌≡◌, ◌≤◌, ◌<◌, ◌||◌, suc, length, true, IfSome, IsNone, OnSome};
ghost use Rattle.channel_table.specs.ClientRows.{has_channel};
ghost use Rattle.gateway_state.specs.Clients.{next_sid, sids_of};
ghost use Rattle.link_table.specs.declared.counter.TheConstants.{LAST_NUMBER};
ghost use Rattle.link_table.specs.Counters.{are_over, begins_again, first_free, given_out};
ghost use Rattle.link_table.specs.Numbers.{fitting, fitting_one};

use crate::state::Known;
use channel_table::Table;
use link_table::{Counter, LAST_NUMBER, begins_again, fitting, turned};

impl Known {
    /// Gives out the number of the session's next channel, which no other channel of it has: as long as the
    /// counter didn't begin again, it is the counter's. There is none past the last one, and then nothing
    /// changes.
    #[tactic(auto, using(link_table::proofs::HadLemmas::over_with))]
    pub fn new_sid(&mut self, number: u32) -> Option<u32>
        ensures found { IfSome result (λ sid. sid ≡ next_sid self.old.state number) }
        ensures given { OnSome result (self.new.state ≡ record self.old.state {
          upstream = record self.old.state.upstream {
            counters = given_out Counter.Sid self.old.state.limits.reuses_numbers (next_sid self.old.state number) self.old.state.upstream.counters;
          };
        }) }
        ensures used_up { IsNone result → are_over (given_out Counter.Sid self.old.state.limits.reuses_numbers (next_sid self.old.state number) self.old.state.upstream.counters) ≡ true }
        ensures brand { self.new.brand ≡ self.old.brand }
    {
        let sid = self.sid_in_range(number)?;
        let reuses = self.limits.reuses_numbers;
        self.upstream.give(Counter::Sid, reuses, sid);
        Some(sid)
    }

    // The number of the session's next channel, if it can be given out, told in parts.
    fn sid_in_range(&self, number: u32) -> Option<u32>
        ensures found { IfSome result (λ sid. sid ≡ next_sid self.now.state number) }
        ensures in_range { IfSome result (λ sid. sid ≤ LAST_NUMBER) }
        ensures none { IsNone result → LAST_NUMBER < next_sid self.now.state number }
    {
        self.next_sid(number)
    }

    // The number of the session's next channel, if it can be given out. As long as the counter didn't begin
    // again, none is looked for.
    fn next_sid(&self, number: u32) -> Option<u32>
        ensures { result ≡ fitting (next_sid self.now.state number) }
    {
        if self.is_searched() {
            self.searched(number)
        } else {
            fitting(self.upstream.next(Counter::Sid))
        }
    }

    // Whether a number that no channel of a session has is searched for.
    fn is_searched(&self) -> bool
        ensures { result ≡ (self.now.state.upstream.counters.again.sid || begins_again self.now.state.limits.reuses_numbers self.now.state.upstream.counters.sid) }
    {
        let next = self.upstream.next(Counter::Sid);
        self.upstream.began_again(Counter::Sid) || begins_again(self.limits.reuses_numbers, next)
    }

    // The first number from the next one on that no channel of the session has, if it can be given out. One more
    // is looked at than it has channels.
    fn searched(&self, number: u32) -> Option<u32>
        ensures { result ≡ fitting_one (first_free self.now.state.limits.reuses_numbers self.now.state.config.first (λ sid. has_channel number sid self.now.state.clients) (suc (length (sids_of number self.now.state))) self.now.state.upstream.counters.sid) }
    {
        let reuses = self.limits.reuses_numbers;
        let first = self.config.first;
        let next = self.upstream.next(Counter::Sid);
        let tries = self.clients.channel_count(number) as u128 + 1;
        free_sid(&self.clients, number, reuses, first, next, tries)
    }
}

// The first number from the next one on that no channel of the session has, of so many that are looked at, if
// it can be given out.
fn free_sid(
    clients: &Table,
    number: u32,
    reuses: bool,
    first: u32,
    next: u32,
    tries: u128,
) -> Option<u32>
    ensures { result ≡ fitting_one (first_free reuses first (λ sid. has_channel number sid clients.now.rows) tries next) }
{
    let mut next = next;
    let mut left = tries;
    while left > 0 {
        let sid = turned(reuses, first, next);
        if sid > LAST_NUMBER {
            return None;
        }
        if !clients.has_channel(number, sid) {
            return Some(sid);
        }
        next = sid + 1;
        left -= 1;
    }
    None
}
