//! The book of servers.
ghost use Rattle.std.specs.Prelude.{◌≡◌, ◌≤◌, ℕ, List, replicate, is_some, true, IfOk, OnErr, OnOk, None};
ghost use Rattle.std.specs.HashMap.{get};
ghost use Rattle.std.specs.Option.{option_copied};
ghost use Rattle.server_book.specs.declared.address.Address.{Address as AddressValue};
ghost use Rattle.server_book.specs.Books.{Agree, after_fixed, after_free, after_heard, answer_in, answer_new, answer_of, answer_to, may_wait, number_for, passes, seats_waiting, seats_with, with_server};
ghost use Rattle.server_book.specs.Names.{AreApart};
ghost use Rattle.server_book.specs.Seats.{Seat, all_waiting, handed_out_in, is_at, leaving, least_free, number_of, same_address, seat};
ghost use Rattle.server_book.specs.Servers.{can_retry, connected, counted, failed, is_idle, lost, retried};

use crate::address::Address;
use crate::heard::Heard;
use crate::server::KnownServer;
use crate::{NoMemory, seats};
use pv_name::Name;
use std::alloc::{AllocError, Global};
use std::collections::HashMap;
use std::marker::Model;

/// So many names wait for one server at most.
pub const MOST_WAITING_FOR_SERVER: usize = 256;

/// So many names wait in all at most.
pub const MOST_WAITING: usize = 16_384;

/// What is known of servers, each under a number from 1.
#[derive(Drop)]
pub struct ServerBook {
    // After how many looks in a row without a link a server is closed.
    limit: u32,
    // That of the number n is the nth.
    seats: Vec<Option<KnownServer>>,
    // The number of the server at an address. So it is found without a walk.
    numbers: HashMap<Address, u32>,
    // How many names wait in all.
    waiting: usize,
    alloc: Global,
}

impl Model for ServerBook {
    ghost use Rattle.std.specs.HashMap.{get};
    ghost use Rattle.server_book.specs.Books.{Agree, Book};
    ghost use Rattle.server_book.specs.Seats.{same_address};

    ghost Value = { Book };

    ghost view = { λ b. record { limit = b.limit; seats = b.seats.items } };

    ghost invariant = { λ b. Agree b.seats.items (get same_address b.numbers) b.waiting };
}

impl ServerBook {
    /// A book of no servers, and of at most `most`. A server that was found by search is to be closed after `limit` looks in a row
    /// at which it had no link.
    pub fn new(alloc: Global, most: u32, limit: u32) -> Result<ServerBook, NoMemory>
        ensures { IfOk result (λ book. book ≡ record { limit = limit; seats = replicate most None }) }
    {
        Ok(ServerBook {
            limit,
            seats: seats::free_seats(alloc, most)?,
            numbers: HashMap::new(alloc),
            waiting: 0,
            alloc,
        })
    }

    /// The number of the server at this address.
    pub fn number_of(&self, address: Address) -> Option<u32>
        ensures { result ≡ number_of address self.now.seats }
    {
        self.numbers.get(&address).copied()
    }

    /// The server of this number.
    pub fn server(&self, number: u32) -> Option<&KnownServer>
        ensures { option_copied result ≡ seat number self.now.seats }
    {
        seats::server_at(&self.seats, number)
    }

    /// How many names wait for connections.
    pub fn waiting(&self) -> usize
        ensures count { result ≡ all_waiting self.now.seats }
        ensures within { result ≤ MOST_WAITING }
    {
        self.waiting
    }

    /// Does nothing. Its contract is a law: no two servers have the same address.
    pub fn has_each_address_once(&self)
        ensures { (address : AddressValue) (m n : ℕ) → is_at address (seat m self.now.seats) ≡ true → is_at address (seat n self.now.seats) ≡ true → m ≡ n }
    {
        let _ = &self.seats;
    }

    /// A server is known for good from now on, as one that is named on the command line. Its number: that which it has, or else
    /// the least free one, under which it is connecting. `None` where no number is free: then, and at an error, nothing changes.
    pub fn fix(&mut self, address: Address) -> Result<Option<u32>, NoMemory>
        ensures number { IfOk result (λ number. number ≡ number_for (number_of address self.old.seats) self.old.seats) }
        ensures ok { OnOk result (self.new ≡ after_fixed address self.old) }
        ensures err { OnErr result (self.new ≡ self.old) }
    {
        if let Some(number) = self.number_of(address) {
            seats::fix(&mut self.seats, number);
            return Ok(Some(number));
        }
        let Some(number) = seats::least_free(&self.seats) else {
            return Ok(None);
        };
        let server = KnownServer::new(self.alloc, address, true);
        if let Err(_) = self.numbers.insert(address, number) {
            return Err(AllocError);
        }
        seats::put(&mut self.seats, number, server);
        Ok(Some(number))
    }

    /// A server says that it has a name. What is to be done about it. At an error nothing changes.
    pub fn heard(&mut self, address: Address, name: &Name, look: u64) -> Result<Heard, NoMemory>
        ensures answer { IfOk result (λ answer. answer ≡ answer_to address name.now look self.old) }
        ensures ok { OnOk result (self.new ≡ after_heard address name.now look self.old) }
        ensures err { OnErr result (self.new ≡ self.old) }
    {
        match self.number_of(address) {
            Some(number) => self.hear(number, name, look),
            None => self.meet(address, name),
        }
    }

    // The server of this number has the name.
    fn hear(&mut self, number: u32, name: &Name, look: u64) -> Result<Heard, NoMemory>
        ensures answer { IfOk result (λ answer. answer ≡ answer_in number name.now look self.old.seats (seat number self.old.seats)) }
        ensures ok { IfOk result (λ answer. self.new ≡ record self.old { seats = seats_waiting answer number name.now self.old.seats }) }
        ensures err { OnErr result (self.new ≡ self.old) }
    {
        let answer = answer_in(&self.seats, self.waiting, number, name, look);
        if !answer.has_waiting() {
            return Ok(answer);
        }
        let more = seats::wait(&mut self.seats, number, name)?;
        self.waiting += more;
        Ok(answer)
    }

    // A server that isn't known has the name.
    fn meet(&mut self, address: Address, name: &Name) -> Result<Heard, NoMemory>
        requires { number_of address self.old.seats ≡ None }
        ensures answer { IfOk result (λ answer. answer ≡ answer_new (least_free self.old.seats) self.old.seats) }
        ensures ok { OnOk result (self.new ≡ record self.old { seats = seats_with (least_free self.old.seats) address name.now self.old.seats }) }
        ensures err { OnErr result (self.new ≡ self.old) }
    {
        let Some(number) = seats::least_free(&self.seats) else {
            return Ok(Heard::Full);
        };
        if self.waiting >= MOST_WAITING {
            return Ok(Heard::Dropped);
        }
        let mut server = KnownServer::new(self.alloc, address, false);
        server.wait(name)?;
        if let Err(_) = self.numbers.insert(address, number) {
            return Err(AllocError);
        }
        seats::put(&mut self.seats, number, server);
        self.waiting += 1;
        Ok(Heard::Connect(number))
    }

    /// The connection to the server of this number stands, if it was being made. The names that waited for it, in order and each
    /// once: they wait no longer. This takes no memory.
    pub fn connected(&mut self, number: u32) -> Vec<Name>
        ensures names { result.items ≡ handed_out_in (seat number self.old.seats) }
        ensures once { AreApart result.items }
        ensures new { self.new ≡ with_server number connected self.old }
    {
        let names = seats::connect(self.alloc, &mut self.seats, number);
        self.waiting -= names.as_slice().len();
        names
    }

    /// The connection to the server of this number couldn't be made, if it was being made. The names that waited for it are
    /// forgotten, and it is held off: for a second, or for twice as long as after the failure before, up to 256 seconds.
    pub fn failed(&mut self, number: u32, look: u64)
        ensures { self.new ≡ with_server number (failed look) self.old }
    {
        let forgotten = seats::fail(self.alloc, &mut self.seats, number, look);
        self.waiting -= forgotten;
    }

    /// The connection to the server of this number ended, if it stood. It is held off as after a failure.
    pub fn lost(&mut self, number: u32, look: u64)
        ensures { self.new ≡ with_server number (lost look) self.old }
    {
        seats::lose(&mut self.seats, number, look);
    }

    /// Whether the server of this number is to be connected to again, which it then is: it was held off until this look, or until
    /// one before it.
    pub fn retry(&mut self, number: u32, look: u64) -> bool
        ensures answer { result ≡ passes (can_retry look) (seat number self.old.seats) }
        ensures new { self.new ≡ with_server number (retried look) self.old }
    {
        seats::retry(&mut self.seats, number, look)
    }

    /// A look at how many links the server of this number has. Whether it is to be closed: it was found by search, stands, and had
    /// none for so many looks in a row as the limit says.
    pub fn look(&mut self, number: u32, links: usize) -> bool
        ensures answer { result ≡ passes (is_idle links self.old.limit) (seat number self.old.seats) }
        ensures new { self.new ≡ with_server number (counted links self.old.limit) self.old }
    {
        seats::count(&mut self.seats, number, links, self.limit)
    }

    /// The number is free from now on, and its server is forgotten, if that was found by search and is held off. Whether it was.
    pub fn free(&mut self, number: u32) -> bool
        ensures answer { result ≡ is_some (leaving (seat number self.old.seats)) }
        ensures new { self.new ≡ after_free number self.old }
    {
        let Some(server) = seats::leave(&mut self.seats, number) else {
            return false;
        };
        self.numbers.remove(&server.address);
        self.waiting -= server.waiting.len();
        true
    }
}

// What is to be done about a name of the server of this number, where so many names wait in all.
fn answer_in(
    seats: &[Option<KnownServer>],
    waiting: usize,
    number: u32,
    name: &Name,
    look: u64,
) -> Heard
    requires { waiting ≡ all_waiting seats.now }
    ensures { result ≡ answer_in number name.now look seats.now (seat number seats.now) }
{
    match seats::server_at(seats, number) {
        Some(server) => answer_of(server, waiting, number, name, look),
        None => Heard::Full,
    }
}

// The same for this server.
fn answer_of(server: &KnownServer, waiting: usize, number: u32, name: &Name, look: u64) -> Heard
    ensures { (seats : List Seat) → waiting ≡ all_waiting seats → result ≡ answer_of number name.now look seats server.now }
{
    if server.stands() {
        return Heard::Find(number);
    }
    let is_connecting = server.is_connecting();
    if !is_connecting && !server.can_retry(look) {
        return Heard::HeldOff;
    }
    if !may_wait(server, waiting, name) {
        return Heard::Dropped;
    }
    if is_connecting {
        Heard::Waits(number)
    } else {
        Heard::Connect(number)
    }
}

// Whether the name waits for the server already, or may, where so many names wait in all.
fn may_wait(server: &KnownServer, waiting: usize, name: &Name) -> bool
    ensures { (seats : List Seat) → waiting ≡ all_waiting seats → result ≡ may_wait name.now seats server.now }
{
    server.waiting.has(name)
        || server.waiting.len() < MOST_WAITING_FOR_SERVER && waiting < MOST_WAITING
}
