//! What a tally keeps: counts, and room for the count of each reader.
ghost use Rattle.std.specs.Prelude.{◌≡◌, ◌≤◌, ◌<◌, ◌+◌, ◌^◌, true, insert, length, position, remove, vec_len, vec_capacity, IfSome, IsNone, OnOk};
ghost use Rattle.std.specs.List.{position_or_len};
ghost use Rattle.rows.specs.Rows.{remove_first};
ghost use Rattle.mask_merge.specs.Counts.{asks_log, more_if, less_if, has_such, is_count, put_rising, counted_with, left_of, holds, log_mask, greatest_of, wanted_by};
ghost use Rattle.mask_merge.specs.Kept.{counts_of, is_not_less, Fits, HasRoom, NeverFalls};

use crate::want::{ALWAYS_ASKED, Ask, KNOWN_EVENTS, LOG_EVENT, Want};
use std::alloc::AllocError;

#[derive(Debug, Drop)]
pub(crate) struct KeptCounts {
    pub(crate) logs: usize,
    pub(crate) silent: usize,
    pub(crate) props: usize,
    pub(crate) texts: usize,
    pub(crate) counts: Vec<u32>,
}

fn asks_log(mask: u16) -> bool
    ensures { result ≡ asks_log mask }
{
    mask & LOG_EVENT == LOG_EVENT
}

fn more_if(asked: bool, count: usize) -> usize
    requires { count + 1 < 2 ^ 64 }
    ensures { result ≡ more_if asked count }
{
    if asked { count + 1 } else { count }
}

fn less_if(asked: bool, count: usize) -> usize
    ensures { result ≡ less_if asked count }
{
    if asked {
        count.saturating_sub(1)
    } else {
        count
    }
}

fn has_such(asked: bool, count: usize, all: usize) -> bool
    ensures { result ≡ has_such asked count all }
{
    if asked { count > 0 } else { count < all }
}

/// Whether such a reader can be among those that are counted.
pub(crate) fn is_held(kept: &KeptCounts, ask: Option<Ask>) -> bool
    ensures { result ≡ holds ask (counts_of kept.now) }
{
    let Some(ask) = ask else {
        return kept.silent > 0;
    };
    let all = kept.counts.len();
    kept.counts.contains(&ask.want.count)
        && has_such(asks_log(ask.want.mask), kept.logs, all)
        && has_such(ask.props, kept.props, all)
        && has_such(ask.texts, kept.texts, all)
}

/// Makes room for one reader more.
pub(crate) fn make_room(kept: &mut KeptCounts) -> Result<(), AllocError>
    requires fits { Fits kept.old }
    ensures room { OnOk result (HasRoom kept.new) }
    ensures fits { Fits kept.new }
    ensures same { counts_of kept.new ≡ counts_of kept.old }
{
    kept.counts.reserve(kept.silent + 1)
}

/// Counts one reader more. There is room for it, so no memory is taken.
pub(crate) fn count_in(kept: &mut KeptCounts, ask: Option<Ask>)
    requires fits { Fits kept.old }
    requires room { HasRoom kept.old }
    ensures fits { Fits kept.new }
    ensures counted { counts_of kept.new ≡ counted_with ask (counts_of kept.old) }
{
    let Some(ask) = ask else {
        kept.silent += 1;
        return;
    };
    kept.logs = more_if(asks_log(ask.want.mask), kept.logs);
    kept.props = more_if(ask.props, kept.props);
    kept.texts = more_if(ask.texts, kept.texts);
    put(&mut kept.counts, ask.want.count);
}

/// Counts one reader less, which leaves room for another.
pub(crate) fn count_out(kept: &mut KeptCounts, ask: Option<Ask>)
    requires fits { Fits kept.old }
    requires held { holds ask (counts_of kept.old) ≡ true }
    ensures fits { Fits kept.new }
    ensures room { HasRoom kept.new }
    ensures left { counts_of kept.new ≡ left_of ask (counts_of kept.old) }
{
    let Some(ask) = ask else {
        kept.silent -= 1;
        return;
    };
    kept.logs = less_if(asks_log(ask.want.mask), kept.logs);
    kept.props = less_if(ask.props, kept.props);
    kept.texts = less_if(ask.texts, kept.texts);
    take_away(&mut kept.counts, ask.want.count);
}

fn first_not_less(counts: &[u32], count: u32) -> Option<usize>
    ensures { result ≡ position (is_not_less count) counts.now }
{
    counts.iter().position(|other| *other >= count)
}

#[tactic(auto, using(crate::proofs::PlaceLemmas::place_or_end))]
fn place_for(counts: &[u32], count: u32) -> usize
    ensures { result ≡ position_or_len (is_not_less count) counts.now }
{
    first_not_less(counts, count).unwrap_or(counts.len())
}

/// Where a count is put: behind all others where none is greater, so that most are put there without a walk.
#[tactic(auto, using(crate::proofs::PlaceLemmas::put_at_place, crate::proofs::PlaceLemmas::place_within, crate::proofs::RisingLemmas::put_at_end))]
fn place_to_put(counts: &[u32], count: u32) -> usize
    requires rising { NeverFalls counts.now }
    ensures put { insert counts.now result count ≡ put_rising count counts.now }
    ensures within { result ≤ length counts.now }
{
    match counts.last() {
        Some(last) if *last <= count => counts.len(),
        _ => place_for(counts, count),
    }
}

fn put(counts: &mut Vec<u32>, count: u32)
    requires rising { NeverFalls counts.old.items }
    requires room { vec_len counts.old < vec_capacity counts.old }
    ensures items { counts.new.items ≡ put_rising count counts.old.items }
    ensures room { vec_capacity counts.old ≤ vec_capacity counts.new }
{
    let place = place_to_put(counts, count);
    counts.insert(place, count).unwrap();
}

fn place_of(counts: &[u32], count: u32) -> Option<usize>
    ensures { result ≡ position (is_count count) counts.now }
{
    counts.iter().position(|other| *other == count)
}

/// From where a count is taken away: from the end where it is the greatest, which moves none of the others.
#[tactic(auto, using(rows::proofs::RowLemmas::remove_is_remove_first, rows::proofs::RowLemmas::remove_first_none, crate::proofs::RisingLemmas::removed_at_end))]
fn place_to_take(counts: &[u32], count: u32) -> Option<usize>
    requires rising { NeverFalls counts.now }
    ensures taken { IfSome result (λ place. (remove counts.now place ≡ remove_first (is_count count) counts.now) × (place < length counts.now)) }
    ensures none { IsNone result → remove_first (is_count count) counts.now ≡ counts.now }
{
    match counts.last() {
        Some(last) if *last == count => Some(counts.len() - 1),
        _ => place_of(counts, count),
    }
}

fn take_away(counts: &mut Vec<u32>, count: u32)
    requires rising { NeverFalls counts.old.items }
    ensures items { counts.new.items ≡ remove_first (is_count count) counts.old.items }
    ensures room { vec_capacity counts.new ≡ vec_capacity counts.old }
{
    if let Some(place) = place_to_take(counts, count) {
        counts.remove(place);
    }
}

fn log_mask(logs: usize) -> u16
    ensures { result ≡ log_mask logs }
{
    if logs > 0 { LOG_EVENT } else { 0 }
}

fn greatest_of(native: u32, counts: &[u32]) -> u32
    requires { 0 < length counts.now }
    ensures { result ≡ greatest_of native counts.now }
{
    let last = counts[counts.len() - 1];
    if counts[0] == 0 {
        native.max(last)
    } else {
        last
    }
}

/// What so many that ask for LOG and these rising counts want together.
#[tactic(auto, using(crate::proofs::PlaceLemmas::wanted_there))]
pub(crate) fn wanted_by(native: u32, logs: usize, counts: &[u32]) -> Option<Want>
    ensures { result ≡ wanted_by native logs counts.now }
{
    if counts.is_empty() {
        return None;
    }
    Some(Want {
        mask: log_mask(logs) & KNOWN_EVENTS | ALWAYS_ASKED,
        count: greatest_of(native, counts),
    })
}
