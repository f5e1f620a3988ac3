//! Seats of servers, by their numbers.
ghost use Rattle.std.specs.Prelude.{◌≡◌, ◌+◌, ◌<◌, ◌^◌, length, replicate, None, Some, IfNone, IfOk, IfSome, OnErr, OnOk};
ghost use Rattle.std.specs.List.{position};
ghost use Rattle.std.specs.Option.{option_copied, option_map};
ghost use Rattle.server_book.specs.Books.{passes};
ghost use Rattle.server_book.specs.Names.{AreApart};
ghost use Rattle.server_book.specs.Seats.{changed, count_handed_out, handed_out_in, is_free, leaving, least_free, new_in, put, seat, staying};
ghost use Rattle.server_book.specs.Servers.{can_retry, connected, counted, failed, fixed, is_idle, lost, retried, with_name};

use crate::NoMemory;
use crate::server::KnownServer;
use pv_name::Name;
use std::alloc::Global;

/// So many free seats.
pub(crate) fn free_seats(alloc: Global, count: u32) -> Result<Vec<Option<KnownServer>>, NoMemory>
    ensures { IfOk result (λ seats. seats.items ≡ replicate count None) }
{
    let mut seats = Vec::with_capacity(alloc, count as usize)?;
    for _ in 0..count {
        seats.push(None)?;
    }
    Ok(seats)
}

/// The place of the seat of a number.
fn place_of(seats: &[Option<KnownServer>], number: u32) -> Option<usize>
    ensures some { IfSome result (λ place. (number ≡ place + 1) × (place < length seats.now)) }
    ensures none { IfNone result (0 < number → length seats.now < number) }
{
    match number.checked_sub(1) {
        Some(place) if (place as usize) < seats.len() => Some(place as usize),
        _ => None,
    }
}

/// The server of a number.
pub(crate) fn server_at(seats: &[Option<KnownServer>], number: u32) -> Option<&KnownServer>
    ensures { option_copied result ≡ seat number seats.now }
{
    match place_of(seats, number) {
        Some(place) => seats[place].as_ref(),
        None => None,
    }
}

/// The least number of a free seat.
pub(crate) fn least_free(seats: &[Option<KnownServer>]) -> Option<u32>
    requires { length seats.now < 2 ^ 32 }
    ensures { result ≡ least_free seats.now }
{
    match free_place(seats) {
        Some(place) => Some(place as u32 + 1),
        None => None,
    }
}

fn free_place(seats: &[Option<KnownServer>]) -> Option<usize>
    ensures place { result ≡ position is_free seats.now }
    ensures within { IfSome result (λ place. place < length seats.now) }
{
    seats.iter().position(|seat| seat.is_none())
}

/// A free seat has this server from now on.
pub(crate) fn put(seats: &mut Vec<Option<KnownServer>>, number: u32, server: KnownServer)
    ensures { seats.new.items ≡ put number (Some server) seats.old.items }
{
    if let Some(place) = place_of(seats, number) {
        seats[place] = Some(server);
    }
}

/// Takes a server out whose number can be free.
pub(crate) fn leave(seats: &mut Vec<Option<KnownServer>>, number: u32) -> Option<KnownServer>
    ensures server { result ≡ leaving (seat number seats.old.items) }
    ensures new { seats.new.items ≡ put number (staying (seat number seats.old.items)) seats.old.items }
{
    match place_of(seats, number) {
        Some(place) => leave_seat(&mut seats[place]),
        None => None,
    }
}

fn leave_seat(seat: &mut Option<KnownServer>) -> Option<KnownServer>
    ensures server { result ≡ leaving seat.old }
    ensures new { seat.new ≡ staying seat.old }
{
    match seat {
        Some(server) if server.may_leave() => seat.take(),
        _ => None,
    }
}

pub(crate) fn fix(seats: &mut Vec<Option<KnownServer>>, number: u32)
    ensures { seats.new.items ≡ changed number fixed seats.old.items }
{
    if let Some(place) = place_of(seats, number) {
        fix_in(&mut seats[place]);
    }
}

fn fix_in(seat: &mut Option<KnownServer>)
    ensures { seat.new ≡ option_map fixed seat.old }
{
    if let Some(server) = seat {
        server.fix();
    }
}

/// A name waits for the server of this number. How many names wait more than before. At an error nothing changes.
pub(crate) fn wait(
    seats: &mut Vec<Option<KnownServer>>,
    number: u32,
    name: &Name,
) -> Result<usize, NoMemory>
    ensures more { IfOk result (λ more. more ≡ new_in name.now (seat number seats.old.items)) }
    ensures ok { OnOk result (seats.new.items ≡ changed number (with_name name.now) seats.old.items) }
    ensures err { OnErr result (seats.new.items ≡ seats.old.items) }
{
    match place_of(seats, number) {
        Some(place) => wait_in(&mut seats[place], name),
        None => Ok(0),
    }
}

fn wait_in(seat: &mut Option<KnownServer>, name: &Name) -> Result<usize, NoMemory>
    ensures more { IfOk result (λ more. more ≡ new_in name.now seat.old) }
    ensures ok { OnOk result (seat.new ≡ option_map (with_name name.now) seat.old) }
    ensures err { OnErr result (seat.new ≡ seat.old) }
{
    match seat {
        Some(server) => server.wait(name),
        None => Ok(0),
    }
}

/// The connection of the server of this number stands. The names that waited for it.
pub(crate) fn connect(alloc: Global, seats: &mut Vec<Option<KnownServer>>, number: u32) -> Vec<Name>
    ensures names { result.items ≡ handed_out_in (seat number seats.old.items) }
    ensures once { AreApart result.items }
    ensures new { seats.new.items ≡ changed number connected seats.old.items }
{
    match place_of(seats, number) {
        Some(place) => connect_in(alloc, &mut seats[place]),
        None => Vec::new(alloc),
    }
}

fn connect_in(alloc: Global, seat: &mut Option<KnownServer>) -> Vec<Name>
    ensures names { result.items ≡ handed_out_in seat.old }
    ensures once { AreApart result.items }
    ensures new { seat.new ≡ option_map connected seat.old }
{
    match seat {
        Some(server) => server.connect(alloc),
        None => Vec::new(alloc),
    }
}

/// The connection of the server of this number couldn't be made. How many names are forgotten.
pub(crate) fn fail(
    alloc: Global,
    seats: &mut Vec<Option<KnownServer>>,
    number: u32,
    look: u64,
) -> usize
    ensures count { result ≡ count_handed_out (seat number seats.old.items) }
    ensures new { seats.new.items ≡ changed number (failed look) seats.old.items }
{
    match place_of(seats, number) {
        Some(place) => fail_in(alloc, &mut seats[place], look),
        None => 0,
    }
}

fn fail_in(alloc: Global, seat: &mut Option<KnownServer>, look: u64) -> usize
    ensures count { result ≡ count_handed_out seat.old }
    ensures new { seat.new ≡ option_map (failed look) seat.old }
{
    match seat {
        Some(server) => server.fail(alloc, look),
        None => 0,
    }
}

pub(crate) fn lose(seats: &mut Vec<Option<KnownServer>>, number: u32, look: u64)
    ensures { seats.new.items ≡ changed number (lost look) seats.old.items }
{
    if let Some(place) = place_of(seats, number) {
        lose_in(&mut seats[place], look);
    }
}

fn lose_in(seat: &mut Option<KnownServer>, look: u64)
    ensures { seat.new ≡ option_map (lost look) seat.old }
{
    if let Some(server) = seat {
        server.lose(look);
    }
}

pub(crate) fn retry(seats: &mut Vec<Option<KnownServer>>, number: u32, look: u64) -> bool
    ensures answer { result ≡ passes (can_retry look) (seat number seats.old.items) }
    ensures new { seats.new.items ≡ changed number (retried look) seats.old.items }
{
    match place_of(seats, number) {
        Some(place) => retry_in(&mut seats[place], look),
        None => false,
    }
}

fn retry_in(seat: &mut Option<KnownServer>, look: u64) -> bool
    ensures answer { result ≡ passes (can_retry look) seat.old }
    ensures new { seat.new ≡ option_map (retried look) seat.old }
{
    match seat {
        Some(server) => server.retry(look),
        None => false,
    }
}

pub(crate) fn count(
    seats: &mut Vec<Option<KnownServer>>,
    number: u32,
    links: usize,
    limit: u32,
) -> bool
    ensures answer { result ≡ passes (is_idle links limit) (seat number seats.old.items) }
    ensures new { seats.new.items ≡ changed number (counted links limit) seats.old.items }
{
    match place_of(seats, number) {
        Some(place) => count_in(&mut seats[place], links, limit),
        None => false,
    }
}

fn count_in(seat: &mut Option<KnownServer>, links: usize, limit: u32) -> bool
    ensures answer { result ≡ passes (is_idle links limit) seat.old }
    ensures new { seat.new ≡ option_map (counted links limit) seat.old }
{
    match seat {
        Some(server) => server.count(links, limit),
        None => false,
    }
}
