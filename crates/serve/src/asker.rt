//! What asks servers for names.
use crate::asks::{Asks, ask_each};
use crate::hub::{AsHub, Hub, Wanted};
use crate::machine::System;
use ask_schedule::{Added, Newcomers, Schedule};
use gateway_core::AskFault;
use pv_name::{Name, NoMemory};
use serve_state::{AskBudget, AskRhythm, Notice};
use std::alloc::AllocError;
use std::collections::HashMap;
use std::sync::CondvarTimeouts;
use std::time::Duration;

/// So many of 1,024 names that may be remembered are many, where no server has them: they are worth a notice.
const MANY: usize = 875;

/// How many milliseconds a look has, in which so many datagrams may be sent.
const LOOK: u64 = 32;

/// How many milliseconds a look of the schedule has, which is the first gap between two asks for a name. It is a long
/// one, so that names that are sought one after the other are asked for again together, in full datagrams.
const FIRST_GAP: u64 = 512;

/// How many names a schedule keeps, and of how many it is known that a server had them.
const NAME_LIMIT: usize = 65_536;

/// How many newcomers wait at most.
const NEWCOMER_LIMIT: usize = 16_384;

/// How many names are taken from the schedules at once: as many as four datagrams hold, of names of 31 bytes.
const PART: usize = 112;

/// So many of them are lost ones at most, where others wait.
const LOST_PART: usize = 108;

/// For so many looks after a server came, all of them are lost ones, and the first of these looks has its datagrams anew: so
/// 1,000 names that the server had are asked for as soon as if nobody looked for others.
const HURRY: u64 = 8;

/// After so many looks the next server that comes has that again.
const CALM: u64 = 32;

/// Where a server came that may have any name, those that were asked for more often than so many times are asked for after the
/// gap behind as many: some 8 seconds.
const SOONER_TRIES: u32 = 4;

/// A minute, in milliseconds.
const MINUTE: u64 = 60_000;

/// Under this number of a host stand names that no host sought just now.
const NO_HOST: u128 = 0;

/// What the asker knows besides what is wanted of it.
#[derive(Drop)]
struct Asker {
    rhythm: AskRhythm,
    // Names that were never asked for.
    newcomers: Newcomers,
    // Names that were asked for, and that no server had.
    schedule: Schedule,
    // Names that a server had, and that are missing now.
    lost: Schedule,
    // Names that a server had: of each that wasn't begun with again since it was found, how many servers were lost before that.
    found: HashMap<Name, Option<u64>>,
    // So many servers that were found by search were lost.
    losses: u64,
    budget: AskBudget,
    // Taken from the schedules, and not sent yet.
    asks: Asks,
    had_many: bool,
    // The look in which lost names began to come before all others.
    hurried: u64,
    // A server came that may have any name. The look of the schedule in which one did last.
    wants_sooner: bool,
    sooner: u64,
    // So many names were dropped since that was told, and when it was.
    dropped: u64,
    told_dropped: Option<u64>,
    // The time, in milliseconds of the system's clock.
    now: u64,
}

impl Asker {
    fn new(hub: &Hub) -> Asker {
        Asker {
            rhythm: AskRhythm::new(hub.options.back_off),
            newcomers: Newcomers::new(hub.alloc, NEWCOMER_LIMIT),
            schedule: Schedule::new(hub.alloc, NAME_LIMIT),
            lost: Schedule::new(hub.alloc, NAME_LIMIT),
            found: HashMap::new(hub.alloc),
            losses: 0,
            budget: AskBudget::new(),
            asks: Asks::new(hub.alloc),
            had_many: false,
            hurried: 0,
            wants_sooner: false,
            sooner: 0,
            dropped: 0,
            told_dropped: None,
            now: 0,
        }
    }

    fn look(&self) -> u64 {
        self.now / LOOK
    }

    // The look of the schedule.
    fn turn(&self) -> u64 {
        self.now / FIRST_GAP
    }

    // A server came: what it had may be found now. Where memory is refused, the names that are taken already stay in front.
    fn hurry(&mut self) {
        let (turn, look) = (self.turn(), self.look());
        self.lost.soon(turn.saturating_sub(1), 0);
        self.schedule.soon(turn, 0);
        if look.saturating_sub(self.hurried) >= CALM {
            self.hurried = look;
            self.budget = AskBudget::new();
            let _ = self.asks.put_off();
        }
    }

    // Servers came that may have any name: all together once in a look of the schedule.
    fn seek_sooner(&mut self) {
        let turn = self.turn();
        if self.wants_sooner && self.sooner != turn {
            self.wants_sooner = false;
            self.sooner = turn;
            self.lost.soon(turn, 0);
            self.schedule.soon(turn, SOONER_TRIES);
        }
    }

    fn lost_part(&self) -> usize {
        if self.look().saturating_sub(self.hurried) < HURRY {
            PART
        } else {
            LOST_PART
        }
    }

    fn has_names(&self) -> bool {
        self.newcomers.len() > 0
            || self.schedule.len() > 0
            || self.lost.len() > 0
            || !self.asks.is_empty()
    }

    // Notes names that a server has. Where there are too many, it forgets those that it knows.
    fn note_found(&mut self, names: Vec<Name>) -> Result<(), NoMemory> {
        for name in names {
            if self.found.len() >= NAME_LIMIT {
                self.found.clear();
            }
            if self.found.insert(name, Some(self.losses)).is_err() {
                return Err(AllocError);
            }
        }
        Ok(())
    }

    // Has a missing name asked for. One that a server had comes before all that none had.
    fn want(&mut self, host: u128, name: Name) -> Result<(), NoMemory> {
        if self.found.contains_key(&name) {
            self.begin_again(&name);
            self.schedule.remove(&name);
            let added = self.lost.add(&name)?;
            self.note_added(added);
            return Ok(());
        }
        if self.schedule.has(&name) {
            return Ok(());
        }
        // Where they are as many as before, one of them went.
        let count = self.newcomers.len();
        self.newcomers.add(host, name)?;
        if self.newcomers.len() == count {
            self.dropped = self.dropped.saturating_add(1);
        }
        Ok(())
    }

    fn note_added(&mut self, added: Added) {
        if added == Added::Full {
            self.dropped = self.dropped.saturating_add(1);
        }
    }

    // Where a server was lost since the name was found, it is asked for as if it never was: else the names of a server that comes
    // and goes are found later each time. That is done once until the name is found, whatever is lost meanwhile.
    fn begin_again(&mut self, name: &Name) {
        if let Some(found) = self.found.get_mut(name) {
            if matches!(*found, Some(losses) if losses < self.losses) {
                *found = None;
                self.lost.remove(name);
            }
        }
    }

    // Has all missing names asked for. Those that wait already need not come again.
    fn want_all(&mut self, names: Vec<Name>) -> Result<(), NoMemory> {
        let has_waiting = self.newcomers.has_of(NO_HOST);
        for name in names {
            if !has_waiting || self.found.contains_key(&name) {
                self.want(NO_HOST, name)?;
            }
        }
        Ok(())
    }

    // How many milliseconds it may wait. None where it has nothing to do until something is wanted of it.
    fn pause(&self) -> Option<u64> {
        let pause = self.rhythm.wait(self.now);
        if !self.has_names() {
            return pause;
        }
        let left = LOOK - self.now % LOOK;
        Some(pause.unwrap_or(left).min(left))
    }
}

/// Asks for wanted names, as often as it is to: for all of them each time that somebody has them asked, or, with
/// `back_off`, for each at looks that get rarer.
pub fn ask_servers<R: System, H: AsHub>(rt: R, hub: &H) {
    let mut asker = Asker::new(hub.hub());
    for _ in rt.forever() {
        let Some(wanted) = next_wanted(rt, hub.hub(), asker.pause()) else {
            return;
        };
        asker.now = milliseconds(rt, asker.now);
        if wanted.asks {
            asker.rhythm.want();
        }
        let done = if hub.hub().options.back_off {
            back_off(rt, hub, &mut asker, wanted)
        } else {
            ask_for_all(rt, hub, &mut asker)
        };
        if done.is_err() {
            hub.hub().tell(&rt, Notice::OutOfMemory);
        }
    }
}

/// The time of the system's clock, or a little more than the last one where it can't be read.
pub fn milliseconds<R: System>(rt: R, last: u64) -> u64 {
    match rt.monotonic() {
        Ok(time) => u64::try_from(time.as_millis()).unwrap_or(u64::MAX),
        Err(_) => last.saturating_add(LOOK),
    }
}

// What is wanted, once something is or the pause is over. None where the gateway ends.
fn next_wanted<R: System>(rt: R, hub: &Hub, pause: Option<u64>) -> Option<Wanted> {
    let wanted = hub.wanted.lock(&rt);
    let mut wanted = match pause {
        Some(pause) => {
            let pause = Duration::from_millis(pause);
            let (wanted, _) = hub
                .asker
                .wait_timeout_while(&rt, wanted, pause, |wanted| wanted.is_nothing());
            wanted
        }
        None => hub
            .asker
            .wait_while(&rt, wanted, |wanted| wanted.is_nothing()),
    };
    if wanted.end {
        return None;
    }
    Some(wanted.take(hub.alloc))
}

// The names that are wanted now, where it is due to find out.
fn wanted_names<R: System, H: AsHub>(rt: R, hub: &H, asker: &mut Asker) -> Option<Vec<Name>> {
    if !asker.rhythm.look(asker.now) {
        return None;
    }
    match hub.gate().asks(&rt) {
        Ok(names) => {
            let most = hub.hub().limits().searches;
            let has_many = names.len() >= many_of(most);
            if has_many && !asker.had_many {
                hub.hub()
                    .tell(&rt, Notice::NamesNearLimit(names.len(), most));
            }
            asker.had_many = has_many;
            Some(names)
        }
        Err(AskFault::OutOfMemory) => {
            hub.hub().tell(&rt, Notice::OutOfMemory);
            None
        }
        Err(AskFault::Failed) => None,
    }
}

// So many of so many names are many.
fn many_of(most: usize) -> usize {
    (most.saturating_mul(MANY) / 1_024).max(1)
}

fn tell_asked<R: System>(rt: R, hub: &Hub, names: usize) {
    if names > 0 {
        hub.tell(&rt, Notice::NamesAsked(names));
    }
}

// Asks for all names that are wanted, where it is due.
fn ask_for_all<R: System, H: AsHub>(rt: R, hub: &H, asker: &mut Asker) -> Result<(), NoMemory> {
    match wanted_names(rt, hub, asker) {
        Some(names) => {
            tell_asked(rt, hub.hub(), names.len());
            ask_each(rt, hub.hub(), names)
        }
        None => Ok(()),
    }
}

// Takes names in, and asks for those that are due.
fn back_off<R: System, H: AsHub>(
    rt: R,
    hub: &H,
    asker: &mut Asker,
    wanted: Wanted,
) -> Result<(), NoMemory> {
    if wanted.soon {
        asker.hurry();
    }
    asker.wants_sooner |= wanted.sooner;
    asker.seek_sooner();
    let noted = asker.note_found(wanted.found);
    if wanted.lost {
        asker.losses = asker.losses.saturating_add(1);
    }
    noted?;
    for wish in wanted.wishes {
        asker.want(wish.host, wish.name)?;
    }
    if let Some(names) = wanted_names(rt, hub, asker) {
        asker.want_all(names)?;
    }
    let sent = ask_due(rt, hub, asker);
    tell_dropped(rt, hub.hub(), asker);
    tell_asked(rt, hub.hub(), sent?);
    Ok(())
}

// That names aren't looked for is told once a minute.
fn tell_dropped<R: System>(rt: R, hub: &Hub, asker: &mut Asker) {
    let rests = match asker.told_dropped {
        Some(told) => asker.now.saturating_sub(told) < MINUTE,
        None => false,
    };
    if asker.dropped > 0 && !rests {
        hub.tell(&rt, Notice::NamesDropped(asker.dropped));
        asker.told_dropped = Some(asker.now);
        asker.dropped = 0;
    }
}

// Asks for names that are due, as many as a look's datagrams hold, and answers how many.
fn ask_due<R: System, H: AsHub>(rt: R, hub: &H, asker: &mut Asker) -> Result<usize, NoMemory> {
    let look = asker.look();
    let mut sent = 0usize;
    for _ in rt.forever() {
        if !asker.budget.may_send(look) {
            break;
        }
        if asker.asks.is_short() {
            take_due(rt, hub, asker)?;
        }
        if asker.asks.is_empty() {
            break;
        }
        asker.budget.send(look);
        sent = sent.saturating_add(asker.asks.send(rt, hub.hub())?);
    }
    Ok(sent)
}

// Takes names that are due: lost ones first, then those that were put off, then as many that were asked for as newcomers.
// What one kind leaves is the others'.
fn take_due<R: System, H: AsHub>(rt: R, hub: &H, asker: &mut Asker) -> Result<(), NoMemory> {
    let (turn, most) = (asker.turn(), asker.lost_part());
    let lost = take_from(rt, hub, &mut asker.asks, &mut asker.lost, turn, most)?;
    if lost == PART {
        return Ok(());
    }
    let left = PART.saturating_sub(lost.saturating_add(asker.asks.take_up()?));
    let again = take_from(
        rt,
        hub,
        &mut asker.asks,
        &mut asker.schedule,
        turn,
        left / 2,
    )?;
    let left = left.saturating_sub(again);
    welcome(rt, hub, asker, left)?;
    let more = take_from(rt, hub, &mut asker.asks, &mut asker.schedule, turn, left)?;
    let left = left.saturating_sub(more);
    take_from(rt, hub, &mut asker.asks, &mut asker.lost, turn, left)?;
    Ok(())
}

// Takes the names that are due from a schedule, at most so many, and answers how many these are. Those that aren't missing
// any more leave it.
fn take_from<R: System, H: AsHub>(
    rt: R,
    hub: &H,
    asks: &mut Asks,
    schedule: &mut Schedule,
    turn: u64,
    most: usize,
) -> Result<usize, NoMemory> {
    let mut count = 0usize;
    for name in schedule.due(turn, most)? {
        match hub.gate().is_missing(&rt, &name) {
            Ok(true) => {
                asks.add(rt, hub.hub(), name)?;
                count = count.saturating_add(1);
            }
            Ok(false) => schedule.remove(&name),
            Err(_) => (),
        }
    }
    Ok(count)
}

// Takes newcomers into the schedule, at most so many. There they are due first.
fn welcome<R: System, H: AsHub>(
    rt: R,
    hub: &H,
    asker: &mut Asker,
    most: usize,
) -> Result<(), NoMemory> {
    let mut room = most;
    for _ in rt.forever() {
        let names = asker.newcomers.take(room)?;
        if names.is_empty() {
            break;
        }
        for name in names {
            if welcome_one(rt, hub, asker, &name)? {
                room = room.saturating_sub(1);
            }
        }
    }
    Ok(())
}

// Whether it was new, and is missing still.
fn welcome_one<R: System, H: AsHub>(
    rt: R,
    hub: &H,
    asker: &mut Asker,
    name: &Name,
) -> Result<bool, NoMemory> {
    if asker.schedule.has(name) || !matches!(hub.gate().is_missing(&rt, name), Ok(true)) {
        return Ok(false);
    }
    let added = asker.schedule.add(name)?;
    asker.note_added(added);
    Ok(added == Added::New)
}
