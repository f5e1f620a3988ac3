//! The table's numbers.
ghost use Rattle.std.specs.Prelude.{◌≡◌, suc, ◌*◌, ◌≤◌, ◌<◌, ◌↔◌, ◌||◌, length, true, false, IfSome, IfNone, IsNone, OnSome};
ghost use Rattle.std.specs.List.{list_any};
ghost use Rattle.link_table.specs.Counters.{are_over, began_again, begins_again, counter_of, first_free, given_out};
ghost use Rattle.link_table.specs.Links.{has_subscription, is_link};
ghost use Rattle.link_table.specs.Numbers.{fitting, fitting_one, has_cid_below, has_id_below, has_write_id_below, is_had, is_of_cid, next_cid, next_of, next_sub_id, next_write_id, numbers_had, AreBelow, AreNumbersBelow};
ghost use Rattle.link_table.specs.Servers.{HaveServers};
ghost use Rattle.link_table.specs.Writes.{is_write};

use super::Links;
use crate::counter::{Counter, LAST_NUMBER, begins_again, fitting, turned};
use crate::link_set::LinkSet;
use crate::servers::Server;

impl Links {
    /// Where a counter stands: one behind the number that it gave out last.
    pub fn next(&self, counter: Counter) -> u32
        ensures { result ≡ counter_of counter self.now.counters }
    {
        self.next.next(counter)
    }

    /// Whether a counter went past the last number, and began again at the first.
    pub fn began_again(&self, counter: Counter) -> bool
        ensures { result ≡ began_again counter self.now.counters }
    {
        self.next.began_again(counter)
    }

    /// A number of a counter is given out, which the caller found: it goes on behind that.
    pub fn give(&mut self, counter: Counter, reuses: bool, number: u32)
        requires { number ≤ LAST_NUMBER }
        ensures { self.new ≡ record self.old { counters = given_out counter reuses number self.old.counters } }
    {
        self.next.give(counter, reuses, number);
    }

    /// Gives out the number of a new link, which no link has: as long as the counter didn't begin again, all links
    /// have to have lower ones. There is none past `LAST_NUMBER`, and then nothing changes. Where numbers come
    /// again, `first` is the one behind the last.
    pub fn new_cid(&mut self, reuses: bool, first: u32) -> Option<u32>
        ensures found { IfSome result (λ number. number ≡ next_cid reuses first self.old) }
        ensures given { OnSome result (self.new ≡ record self.old { counters = given_out Counter.Cid reuses (next_cid reuses first self.old) self.old.counters }) }
        ensures free { AreBelow self.old.counters.again.cid (has_cid_below self.old.counters.cid) self.old.links →
            IfSome result (λ number. list_any (is_of_cid number) self.old.links ≡ false) }
        ensures none { IsNone result ↔ (LAST_NUMBER < next_cid reuses first self.old) }
        ensures same { IfNone result (self.new ≡ self.old) }
        ensures used_up { IsNone result → are_over (given_out Counter.Cid reuses (next_cid reuses first self.old) self.old.counters) ≡ true }
    {
        self.give_out(Counter::Cid, reuses, first, 0)
    }

    /// The same for a new subscription to a server: no other subscription to it has the ID.
    pub fn new_sub_id(&mut self, reuses: bool, first: u32, server: u32) -> Option<u32>
        ensures found { IfSome result (λ number. number ≡ next_sub_id reuses first server self.old) }
        ensures given { OnSome result (self.new ≡ record self.old { counters = given_out Counter.Subscription reuses (next_sub_id reuses first server self.old) self.old.counters }) }
        ensures free { AreBelow self.old.counters.again.subscription (has_id_below self.old.counters.subscription) self.old.links →
            IfSome result (λ number. list_any (has_subscription server number) self.old.links ≡ false) }
        ensures none { IsNone result ↔ (LAST_NUMBER < next_sub_id reuses first server self.old) }
        ensures same { IfNone result (self.new ≡ self.old) }
        ensures used_up { IsNone result → are_over (given_out Counter.Subscription reuses (next_sub_id reuses first server self.old) self.old.counters) ≡ true }
    {
        self.give_out(Counter::Subscription, reuses, first, server)
    }

    /// The same for a new write to a server: no other write to it has the ID.
    pub fn new_write_id(&mut self, reuses: bool, first: u32, server: u32) -> Option<u32>
        ensures found { IfSome result (λ number. number ≡ next_write_id reuses first server self.old) }
        ensures given { OnSome result (self.new ≡ record self.old { counters = given_out Counter.Write reuses (next_write_id reuses first server self.old) self.old.counters }) }
        ensures free { AreBelow self.old.counters.again.write (has_write_id_below self.old.counters.write) self.old.writes →
            IfSome result (λ number. list_any (is_write server number) self.old.writes ≡ false) }
        ensures none { IsNone result ↔ (LAST_NUMBER < next_write_id reuses first server self.old) }
        ensures same { IfNone result (self.new ≡ self.old) }
        ensures used_up { IsNone result → are_over (given_out Counter.Write reuses (next_write_id reuses first server self.old) self.old.counters) ≡ true }
    {
        self.give_out(Counter::Write, reuses, first, server)
    }

    // Gives out the next number of a counter.
    #[tactic(auto, using(crate::proofs::HadLemmas::over_with))]
    fn give_out(&mut self, counter: Counter, reuses: bool, first: u32, server: u32) -> Option<u32>
        ensures found { IfSome result (λ number. number ≡ next_of counter reuses first server self.old) }
        ensures given { OnSome result (self.new ≡ record self.old { counters = given_out counter reuses (next_of counter reuses first server self.old) self.old.counters }) }
        ensures free { AreNumbersBelow counter self.old → IfSome result (λ number. is_had counter server self.old number ≡ false) }
        ensures none { IsNone result ↔ (LAST_NUMBER < next_of counter reuses first server self.old) }
        ensures same { IfNone result (self.new ≡ self.old) }
        ensures used_up { IsNone result → are_over (given_out counter reuses (next_of counter reuses first server self.old) self.old.counters) ≡ true }
    {
        let number = self.next_in_range(counter, reuses, first, server)?;
        self.next.give(counter, reuses, number);
        Some(number)
    }

    // The next number of a counter, if it can be given out, told in parts.
    fn next_in_range(&self, counter: Counter, reuses: bool, first: u32, server: u32) -> Option<u32>
        ensures found { IfSome result (λ number. number ≡ next_of counter reuses first server self.now) }
        ensures in_range { IfSome result (λ number. number ≤ LAST_NUMBER) }
        ensures free { AreNumbersBelow counter self.now → IfSome result (λ number. is_had counter server self.now number ≡ false) }
        ensures none { IsNone result ↔ (LAST_NUMBER < next_of counter reuses first server self.now) }
    {
        self.next_number(counter, reuses, first, server)
    }

    // The next number of a counter, if it can be given out. As long as the counter didn't begin again, no row
    // has it, and none is looked for.
    fn next_number(&self, counter: Counter, reuses: bool, first: u32, server: u32) -> Option<u32>
        ensures found { result ≡ fitting (next_of counter reuses first server self.now) }
        ensures free { AreNumbersBelow counter self.now → IfSome result (λ number. is_had counter server self.now number ≡ false) }
    {
        if self.is_searched(counter, reuses) {
            self.searched(counter, reuses, first, server)
        } else {
            fitting(self.next.next(counter))
        }
    }

    // Whether a free number is searched for.
    fn is_searched(&self, counter: Counter, reuses: bool) -> bool
        ensures { result ≡ (began_again counter self.now.counters || begins_again reuses (counter_of counter self.now.counters)) }
    {
        self.next.began_again(counter) || begins_again(reuses, self.next.next(counter))
    }

    // The first number from the next one on that no row has, if it can be given out. One more is looked at than
    // rows can have.
    fn searched(&self, counter: Counter, reuses: bool, first: u32, server: u32) -> Option<u32>
        ensures found { result ≡ fitting_one (first_free reuses first (is_had counter server self.now) (suc (length (numbers_had counter server self.now))) (counter_of counter self.now.counters)) }
        ensures free { IfSome result (λ number. is_had counter server self.now number ≡ false) }
    {
        let tries = self.row_count(counter, server) as u128 * 2 + 1;
        let next = self.next.next(counter);
        self.first_free(counter, reuses, first, server, next, tries)
    }

    // The first number from the next one on that no row has, of so many that are looked at, if it can be given
    // out.
    fn first_free(
        &self,
        counter: Counter,
        reuses: bool,
        first: u32,
        server: u32,
        next: u32,
        tries: u128,
    ) -> Option<u32>
        ensures found { result ≡ fitting_one (first_free reuses first (is_had counter server self.now) tries next) }
        ensures free { IfSome result (λ number. is_had counter server self.now number ≡ false) }
    {
        let mut next = next;
        let mut left = tries;
        while left > 0 {
            let number = turned(reuses, first, next);
            if number > LAST_NUMBER {
                return None;
            }
            if !self.is_had(counter, server, number) {
                return Some(number);
            }
            next = number + 1;
            left -= 1;
        }
        None
    }

    // Whether a row has the number.
    #[tactic(auto, using(crate::proofs::KeyedLemmas::is_some_found))]
    fn is_had(&self, counter: Counter, server: u32, number: u32) -> bool
        ensures { result ≡ is_had counter server self.now number }
    {
        match counter {
            Counter::Sid => false,
            Counter::Cid => has_cid(self.servers.as_slice(), &self.links, number),
            Counter::Subscription => self.by_sub(server, number).is_some(),
            Counter::Write => self.write(server, number).is_some(),
        }
    }

    // How many rows a counter numbers, of those on which no two may have the same number. A link has two
    // subscriptions at most.
    #[tactic(auto, using(crate::proofs::HadLemmas::cids_counted, crate::proofs::HadLemmas::subs_counted, crate::proofs::HadLemmas::writes_counted))]
    fn row_count(&self, counter: Counter, server: u32) -> usize
        ensures { length (numbers_had counter server self.now) ≤ 2 * result }
    {
        match counter {
            Counter::Sid => 0,
            Counter::Cid => self.links.len(),
            Counter::Subscription => self.links.count_of(server),
            Counter::Write => self.writes.count_to(server),
        }
    }
}

// Whether a link has this number.
fn has_cid(servers: &[Server], links: &LinkSet, cid: u32) -> bool
    requires { HaveServers servers.now links.now }
    ensures { result ≡ list_any (is_of_cid cid) links.now }
{
    has_cid_on(servers, links, cid)
}

// The same, looked up for each of these servers.
fn has_cid_on(servers: &[Server], links: &LinkSet, cid: u32) -> bool
    ensures { result ≡ list_any (λ server. list_any (is_link server.number cid) links.now) servers.now }
{
    servers
        .iter()
        .any(|server| links.contains(server.number, cid))
}
