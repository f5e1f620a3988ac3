//! The numbers that rows have, and those that new rows are given.
ghost use Rattle.std.specs.Prelude.{◌≡◌, suc, ◌*◌, ◌≤◌, ◌<◌, ◌||◌, length, true, IfSome, IsNone, OnSome};
ghost use Rattle.link_table.specs.declared.counter.TheConstants.{LAST_NUMBER};
ghost use Rattle.link_table.specs.Counters.{are_over, began_again, begins_again, counter_of, first_free, given_out};
ghost use Rattle.link_table.specs.Numbers.{fitting, fitting_one};
ghost use Rattle.plain_rows.specs.Numbers.{is_taken, next_for, taken};

use crate::clients::{ChannelAt, ChannelsOf};
use crate::lists::{any, count};
use crate::state::PlainRows;
use crate::upstream::{LinkNumbered, LinkSubscribed, LinksOf, WriteAt, WritesTo};
use link_table::{Counter, LAST_NUMBER, begins_again, fitting, turned};

impl PlainRows {
    /// Gives out the number of the next row of a kind: of a channel of a session, of a link, or of a
    /// subscription or a write to a server. There is none past the last one.
    #[tactic(auto, using(link_table::proofs::HadLemmas::over_with))]
    pub fn give_out(&mut self, counter: Counter, owner: u32) -> Option<u32>
        ensures found { IfSome result (λ number. number ≡ next_for counter owner self.old) }
        ensures given { OnSome result (self.new ≡ record self.old {
          upstream = record self.old.upstream {
            counters = given_out counter self.old.limits.reuses_numbers (next_for counter owner self.old) self.old.upstream.counters;
          };
        }) }
        ensures used_up { IsNone result → are_over (given_out counter self.old.limits.reuses_numbers (next_for counter owner self.old) self.old.upstream.counters) ≡ true }
    {
        let number = self.next_in_range(counter, owner)?;
        let reuses = self.limits.reuses_numbers;
        self.numbers.give(counter, reuses, number);
        Some(number)
    }

    // The number of the next row of a kind, if it can be given out, told in parts.
    fn next_in_range(&self, counter: Counter, owner: u32) -> Option<u32>
        ensures found { IfSome result (λ number. number ≡ next_for counter owner self.now) }
        ensures in_range { IfSome result (λ number. number ≤ LAST_NUMBER) }
        ensures none { IsNone result → LAST_NUMBER < next_for counter owner self.now }
    {
        self.next_number(counter, owner)
    }

    // The number of the next row of a kind, if it can be given out. As long as its counter didn't begin again,
    // none is looked for.
    fn next_number(&self, counter: Counter, owner: u32) -> Option<u32>
        ensures { result ≡ fitting (next_for counter owner self.now) }
    {
        if self.is_searched(counter) {
            self.searched(counter, owner)
        } else {
            fitting(self.numbers.next(counter))
        }
    }

    // Whether a number that no row has is searched for.
    fn is_searched(&self, counter: Counter) -> bool
        ensures { result ≡ (began_again counter self.now.upstream.counters || begins_again self.now.limits.reuses_numbers (counter_of counter self.now.upstream.counters)) }
    {
        let next = self.numbers.next(counter);
        self.numbers.began_again(counter) || begins_again(self.limits.reuses_numbers, next)
    }

    // The first number from the next one on that no row has, if it can be given out. One more is looked at than
    // rows can have.
    fn searched(&self, counter: Counter, owner: u32) -> Option<u32>
        ensures { result ≡ fitting_one (first_free self.now.limits.reuses_numbers self.now.config.first (is_taken counter owner self.now) (suc (length (taken counter owner self.now))) (counter_of counter self.now.upstream.counters)) }
    {
        let tries = self.row_count(counter, owner) as u128 * 2 + 1;
        let next = self.numbers.next(counter);
        let reuses = self.limits.reuses_numbers;
        self.first_free(counter, owner, reuses, self.config.first, next, tries)
    }

    // The first number from the next one on that no row has, of so many that are looked at, if it can be given
    // out.
    fn first_free(
        &self,
        counter: Counter,
        owner: u32,
        reuses: bool,
        first: u32,
        next: u32,
        tries: u128,
    ) -> Option<u32>
        ensures { result ≡ fitting_one (first_free reuses first (is_taken counter owner self.now) tries next) }
    {
        let mut next = next;
        let mut left = tries;
        while left > 0 {
            let number = turned(reuses, first, next);
            if number > LAST_NUMBER {
                return None;
            }
            if !self.is_taken(counter, owner, number) {
                return Some(number);
            }
            next = number + 1;
            left -= 1;
        }
        None
    }

    // Whether a row has the number.
    fn is_taken(&self, counter: Counter, owner: u32, number: u32) -> bool
        ensures { result ≡ is_taken counter owner self.now number }
    {
        match counter {
            Counter::Sid => {
                let key = ChannelAt {
                    session: owner,
                    sid: number,
                };
                any(&self.channels, key)
            }
            Counter::Cid => any(&self.links, LinkNumbered { cid: number }),
            Counter::Subscription => {
                let key = LinkSubscribed {
                    server: owner,
                    id: number,
                };
                any(&self.links, key)
            }
            Counter::Write => {
                let key = WriteAt {
                    server: owner,
                    id: number,
                };
                any(&self.writes, key)
            }
        }
    }

    // How many rows have a number of the kind: a link has two subscriptions at most.
    #[tactic(auto, using(crate::proofs::TakenNumbers::sids_counted, crate::proofs::TakenNumbers::links_counted, crate::proofs::TakenNumbers::subs_counted_on, crate::proofs::TakenNumbers::writes_counted_to))]
    fn row_count(&self, counter: Counter, owner: u32) -> usize
        ensures { length (taken counter owner self.now) ≤ 2 * result }
    {
        match counter {
            Counter::Sid => count(&self.channels, ChannelsOf { session: owner }),
            Counter::Cid => self.links.len(),
            Counter::Subscription => count(&self.links, LinksOf { server: owner }),
            Counter::Write => count(&self.writes, WritesTo { server: owner }),
        }
    }
}
