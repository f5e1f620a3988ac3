//! The lines of a script, performed on a gateway.
ghost use Rattle.std.specs.Prelude.{◌≡◌, ◌++◌, None, Some, Option, IsTrue, IfOk, IfSome, List, OnOk, map, option_map, flat_map, length, ℕ};
ghost use Rattle.std.specs.BTreeMap.{get, keys};
ghost use Rattle.std.specs.BTreeSet.{contains};
ghost use Rattle.std.specs.Io.KnownBytes.{Appends};
ghost use Rattle.std.specs.List.{find};
ghost use Rattle.ca_header.specs.Reading.{front_at};
ghost use Rattle.ca_header.specs.declared.header.Message.{Message};
ghost use Rattle.gateway_state.specs.Asked.{must_end};
ghost use Rattle.gateway_state.specs.Step.{run, step, taken};
ghost use Rattle.replay_text.specs.Limits.{with_limit};
ghost use Rattle.replay.specs.Editing.{IfEdit, IsEdited, IsPrinted as IsLinePrinted, refusal};
ghost use Rattle.replay.specs.Ending.{AreEnded, IsEndedFirst, IsShut, opened, without};
ghost use Rattle.replay.specs.Performed.{IsDone, IsLine, IsSearchedFor};
ghost use Rattle.replay.specs.Performing.{Performs};
ghost use Rattle.replay.specs.Played.{loss, out_line, said};
ghost use Rattle.replay.specs.Player.{beginning, playing};
ghost use Rattle.replay.specs.Printing.{AreEmptied, IsEmptied, IsEmptiedUnless, IsPrinted, is_held};
ghost use Rattle.replay.specs.Receiving.{AreTaken, IsReceived, fault_in, misframed_at, put_behind};

use crate::entry::{EditFiles, ScriptEntry};
use crate::fault::PlayFault;
use ca_header::{FrameFault, Intake, IntakeFault, Message};
use fanout::Out;
use gateway_calls::GatewayCalls;
use gateway_state::{Dest, Event};
use pv_name::{Host, Name};
use replay_text::{
    Line, NewLimit, write_asks, write_end, write_message, write_props, write_reading,
    write_refused, write_refused_access, write_refused_groups, write_reply, write_rights,
    write_shut, write_subscription,
};
use rule_desk::{Desk, DeskFault};
use std::alloc::Global;
use std::collections::{BTreeMap, BTreeSet};
use std::io;
use std::io::Write;

// How many messages are taken from an outbox at a time.
const PIECE: usize = 1_024;

/// A gateway, and what a script needs to know beside it.
#[derive(Drop)]
pub struct Player<G> {
    alloc: Global,
    gate: G,
    /// The connections that stand, with the bytes that came from each and are no whole message yet.
    intakes: BTreeMap<Dest, Intake>,
    /// The connections whose messages are kept back, whether they stand or not.
    held: BTreeSet<Dest>,
}

/// A connection whose bytes have a framing fault.
#[derive(Clone, Copy)]
struct Misframed {
    dest: Dest,
    fault: FrameFault,
}

impl<G: GatewayCalls + Drop> Player<G> {
    /// A player of scripts on this gateway.
    pub fn new(alloc: Global, gate: G) -> Player<G>
        ensures { playing G.state result ≡ option_map beginning (G.state gate) }
    {
        Player {
            alloc,
            gate,
            intakes: BTreeMap::new(alloc),
            held: BTreeSet::new(alloc),
        }
    }

    /// Performs an entry, and what follows from it: messages that wait are printed, and connections
    /// that must end are ended.
    pub fn play<W: Write>(&mut self, entry: ScriptEntry, out: &mut W) -> Result<(), PlayFault>
        ensures { OnOk result (Performs (IsLine entry) (playing G.state self.old) (playing G.state self.new) (W.contents out.old) (W.contents out.new)) }
    {
        let misframed = self.take(entry, out)?;
        self.print_waiting(out)?;
        self.shut(misframed, out)?;
        self.end_marked(out)
    }

    fn take<W: Write>(
        &mut self,
        entry: ScriptEntry,
        out: &mut W,
    ) -> Result<Option<Misframed>, PlayFault>
        ensures { IfOk result (λ misframed. Performs (IsDone entry.line entry.files misframed) (playing G.state self.old) (playing G.state self.new) (W.contents out.old) (W.contents out.new)) }
    {
        let ScriptEntry { line, files } = entry;
        self.perform(line, &files, out)
    }

    /// Cuts off a connection whose bytes are no messages, if there is one.
    fn shut<W: Write>(&mut self, misframed: Option<Misframed>, out: &mut W) -> Result<(), PlayFault>
        ensures { OnOk result (Performs (IsShut misframed) (playing G.state self.old) (playing G.state self.new) (W.contents out.old) (W.contents out.new)) }
    {
        let Some(Misframed { dest, fault }) = misframed else {
            return Ok(());
        };
        write_shut(out, dest, fault)?;
        self.lose(dest)?;
        self.print_waiting(out)
    }

    fn perform<W: Write>(
        &mut self,
        line: Line,
        files: &EditFiles,
        out: &mut W,
    ) -> Result<Option<Misframed>, PlayFault>
        ensures edit { IfEdit line (OnOk result (IsEdited files.now (G.state self.old.gate) (G.state self.new.gate) (W.contents out.old) (W.contents out.new))) }
        ensures done { IfOk result (λ misframed. Performs (IsDone line files.now misframed) (playing G.state self.old) (playing G.state self.new) (W.contents out.old) (W.contents out.new)) }
    {
        match line {
            Line::Skipped => {}
            Line::OpenSession(number, host) => {
                self.open(Dest::Session(number), Event::Opened(number, host))?;
            }
            Line::OpenServer(number) => {
                self.open(Dest::Upstream(number), Event::UpOpened(number))?;
            }
            Line::Lost(dest) => self.lose(dest)?,
            Line::Client(number, bytes) => return self.receive(
                Dest::Session(number),
                bytes.as_slice(),
            ),
            Line::Server(number, bytes) => return self.receive(
                Dest::Upstream(number),
                bytes.as_slice(),
            ),
            Line::Found(name, number) => self.gate.step(Event::Found(name, number))?,
            Line::Search(host, datagram) => self.search(&host, datagram.as_slice(), out)?,
            Line::Sweep => self.gate.step(Event::Sweep)?,
            Line::Edit { .. } => self.edit(files, out)?,
            Line::Asks => write_asks(out, &self.gate.asks()?)?,
            Line::Read {
                session,
                sid,
                dtype,
                count,
            } => write_reading(out, &self.gate.read(session, sid, dtype, count)?)?,
            Line::Subscription(name) => {
                write_subscription(out, self.gate.subscription(&name)?)?;
            }
            Line::Properties(name) => {
                write_props(out, self.gate.property_subscription(&name)?)?;
            }
            Line::Rights { session, sid } => {
                write_rights(out, self.gate.rights(session, sid)?)?;
            }
            Line::Hold(dest) => {
                self.held.insert(dest)?;
            }
            Line::Flow(dest) => {
                self.held.remove(&dest);
            }
            Line::Drain(dest, count) => {
                print_messages(&mut self.gate, dest, count, out)?;
            }
            Line::Limit(limit) => change_limit(&mut self.gate, limit)?,
            Line::Age => self.gate.step(Event::Age)?,
            Line::Probe(number) => self.gate.step(Event::Probe(number))?,
            Line::Seek(number, cid, name) => self.gate.step(Event::Seek(number, cid, name))?,
        }
        Ok(None)
    }

    /// Prints the reply to a datagram; the names that it searches for are looked for from then on.
    fn search<W: Write>(
        &mut self,
        host: &Host,
        datagram: &[u8],
        out: &mut W,
    ) -> Result<(), PlayFault>
        ensures same { (self.new.intakes ≡ self.old.intakes) × (self.new.held ≡ self.old.held) }
        ensures searched { OnOk result (Performs (IsSearchedFor host.now datagram.now) (G.state self.old.gate) (G.state self.new.gate) (W.contents out.old) (W.contents out.new)) }
    {
        let answer = self.gate.search(host, datagram)?;
        write_reply(out, answer.reply.as_slice())?;
        look_for(&mut self.gate, host, answer.asked.as_slice())
    }

    /// Edits the policy, or prints why not: the first fault of the files, the rule file's first.
    fn edit<W: Write>(&mut self, files: &EditFiles, out: &mut W) -> Result<(), PlayFault>
        ensures edited { OnOk result (IsEdited files.now (G.state self.old.gate) (G.state self.new.gate) (W.contents out.old) (W.contents out.new)) }
        ensures same { (self.new.intakes ≡ self.old.intakes) × (self.new.held ≡ self.old.held) }
    {
        let mut desk = Desk::new(self.alloc);
        match desk.read(&files.texts()) {
            Ok(policy) => Ok(self.gate.step(Event::Edit(policy))?),
            Err(fault) => print_refusal(out, fault),
        }
    }

    fn open(&mut self, dest: Dest, event: Event) -> Result<(), PlayFault>
        ensures { OnOk result (playing G.state self.new ≡ option_map (opened dest event) (playing G.state self.old)) }
    {
        self.gate.step(event)?;
        if !self.intakes.contains_key(&dest) && self.gate.is_open(dest)? {
            self.intakes.insert(dest, Intake::new(self.alloc))?;
        }
        Ok(())
    }

    /// Hands a connection in as lost. What came from it and is no whole message is forgotten.
    fn lose(&mut self, dest: Dest) -> Result<(), PlayFault>
        ensures gone { OnOk result (get ⟦<Dest as Ord>⟧.cmp self.new.intakes dest ≡ None) }
        ensures lost { OnOk result (playing G.state self.new ≡ option_map (without dest) (playing G.state self.old)) }
        ensures held { self.new.held ≡ self.old.held }
    {
        self.gate.step(lost(dest))?;
        self.intakes.remove(&dest);
        Ok(())
    }

    /// Takes bytes from a connection: the messages that are whole then are a run of events.
    fn receive(&mut self, dest: Dest, bytes: &[u8]) -> Result<Option<Misframed>, PlayFault>
        ensures { IfOk result (λ misframed. (out : Option (List ℕ)) → Performs (IsReceived dest bytes.now misframed) (playing G.state self.old) (playing G.state self.new) out out) }
    {
        let Some(intake) = self.intakes.get_mut(&dest) else {
            return Ok(None);
        };
        feed(intake, bytes)?;
        let mut events = Vec::new(self.alloc);
        let fault = take_messages(dest, intake, &mut events)?;
        self.gate.run(events)?;
        Ok(with_fault(dest, fault))
    }

    /// Prints all that waits for the connections that aren't held.
    fn print_waiting<W: Write>(&mut self, out: &mut W) -> Result<(), PlayFault>
        ensures { OnOk result (Performs IsPrinted (playing G.state self.old) (playing G.state self.new) (W.contents out.old) (W.contents out.new)) }
    {
        print_all(&mut self.gate, &self.intakes, &self.held, out)
    }

    /// Ends the connections that must end, one after another: the loss of one may mark others.
    fn end_marked<W: Write>(&mut self, out: &mut W) -> Result<(), PlayFault>
        ensures { OnOk result (Performs AreEnded (playing G.state self.old) (playing G.state self.new) (W.contents out.old) (W.contents out.new)) }
    {
        for _ in 0..u64::MAX {
            if !self.end_first(out)? {
                return Ok(());
            }
        }
        Err(PlayFault::StreamFailed)
    }

    /// Ends the first connection that must end. Says whether there was one.
    fn end_first<W: Write>(&mut self, out: &mut W) -> Result<bool, PlayFault>
        ensures { IfOk result (λ ended. Performs (IsEndedFirst ended) (playing G.state self.old) (playing G.state self.new) (W.contents out.old) (W.contents out.new)) }
    {
        let Some(dest) = first_marked(&mut self.gate, &self.intakes)? else {
            return Ok(false);
        };
        write_end(out, dest)?;
        self.lose(dest)?;
        self.print_waiting(out)?;
        Ok(true)
    }
}

/// The first of the connections that must end.
fn first_marked<G: GatewayCalls>(
    gate: &mut G,
    intakes: &BTreeMap<Dest, Intake>,
) -> Result<Option<Dest>, PlayFault>
    ensures found { IfOk result (λ first. IfSome (G.state gate.old) (λ w. first ≡ find (must_end w) (keys intakes.now))) }
    ensures same { G.state gate.new ≡ G.state gate.old }
{
    for dest in intakes.keys() {
        if gate.must_end(*dest)? {
            return Ok(Some(*dest));
        }
    }
    Ok(None)
}

/// One of the limits that hold is another one from then on.
fn change_limit<G: GatewayCalls>(gate: &mut G, limit: NewLimit) -> Result<(), PlayFault>
    ensures { OnOk result (G.state gate.new ≡ option_map (λ w. step w (Event.Limit (with_limit limit w.limits))) (G.state gate.old)) }
{
    let limits = gate.limits()?;
    Ok(gate.step(Event::Limit(limit.in_place_of(limits)))?)
}

/// Names are looked for from this host from then on.
fn look_for<G: GatewayCalls>(gate: &mut G, host: &Host, names: &[Name]) -> Result<(), PlayFault>
    ensures { OnOk result (G.state gate.new ≡ option_map (λ w. run w (map (Event.Search host.now) names.now)) (G.state gate.old)) }
{
    for name in names {
        let event = Event::Search(host.copy()?, name.copy()?);
        gate.step(event)?;
    }
    Ok(())
}

/// A connection whose bytes have this fault, if they have one.
fn with_fault(dest: Dest, fault: Option<FrameFault>) -> Option<Misframed>
    ensures { result ≡ option_map (misframed_at dest) fault }
{
    match fault {
        Some(fault) => Some(Misframed { dest, fault }),
        None => None,
    }
}

/// Puts bytes behind those that came before. After a fault nothing is fed, and the fault is what is
/// taken next.
fn feed(intake: &mut Intake, bytes: &[u8]) -> Result<(), PlayFault>
    ensures { OnOk result (intake.new ≡ put_behind (front_at intake.old) intake.old bytes.now) }
{
    match intake.feed(bytes) {
        Ok(()) => Ok(()),
        Err(IntakeFault::Faulted(_)) => Ok(()),
        Err(IntakeFault::OutOfMemory) => Err(PlayFault::OutOfMemory),
    }
}

/// Takes the messages that are whole, as events. Says what is wrong with the bytes after them.
fn take_messages(
    dest: Dest,
    intake: &mut Intake,
    events: &mut Vec<Event>,
) -> Result<Option<FrameFault>, PlayFault>
    ensures taken { OnOk result ((messages : List Message) × AreTaken intake.old messages intake.new
        × (events.new.items ≡ events.old.items ++ map (said dest) messages)) }
    ensures fault { IfOk result (λ fault. fault ≡ fault_in (front_at intake.new)) }
{
    for _ in 0..u64::MAX {
        match intake.take() {
            Ok(Some(message)) => events.push(said_by(dest, message))?,
            Ok(None) => return Ok(None),
            Err(IntakeFault::Faulted(fault)) => return Ok(Some(fault)),
            Err(IntakeFault::OutOfMemory) => return Err(PlayFault::OutOfMemory),
        }
    }
    Err(PlayFault::StreamFailed)
}

/// Prints why an edit is refused.
fn print_refusal<W: Write>(out: &mut W, fault: DeskFault) -> Result<(), PlayFault>
    ensures { OnOk result (IsLinePrinted (refusal fault) (W.contents out.old) (W.contents out.new)) }
{
    match fault {
        DeskFault::Rules(line, cause) => Ok(write_refused(out, line, cause)?),
        DeskFault::Groups(line, cause) => Ok(write_refused_groups(out, line, cause)?),
        DeskFault::Access(line, cause) => Ok(write_refused_access(out, line, cause)?),
        DeskFault::OutOfMemory => Err(PlayFault::OutOfMemory),
    }
}

/// The event that a connection's message is.
fn said_by(dest: Dest, message: Message) -> Event
    ensures { result ≡ said dest message }
{
    match dest {
        Dest::Session(number) => Event::Client(number, message),
        Dest::Upstream(number) => Event::Server(number, message),
    }
}

/// The event that a connection's loss is.
fn lost(dest: Dest) -> Event
    ensures { result ≡ loss dest }
{
    match dest {
        Dest::Session(number) => Event::Lost(number),
        Dest::Upstream(number) => Event::UpLost(number),
    }
}

/// Prints all that waits for the connections that aren't held.
fn print_all<G: GatewayCalls, W: Write>(
    gate: &mut G,
    intakes: &BTreeMap<Dest, Intake>,
    held: &BTreeSet<Dest>,
    out: &mut W,
) -> Result<(), PlayFault>
    ensures { OnOk result (Performs (AreEmptied held.now.keys (keys intakes.now)) (G.state gate.old) (G.state gate.new) (W.contents out.old) (W.contents out.new)) }
{
    for dest in intakes.keys() {
        print_unheld(gate, held, *dest, out)?;
    }
    Ok(())
}

/// Prints all that waits for a connection, or nothing where it is held.
fn print_unheld<G: GatewayCalls, W: Write>(
    gate: &mut G,
    held: &BTreeSet<Dest>,
    dest: Dest,
    out: &mut W,
) -> Result<(), PlayFault>
    ensures kept { IsTrue (contains ⟦<Dest as Ord>⟧.cmp held.now dest) → G.state gate.new ≡ G.state gate.old }
    ensures silent { IsTrue (contains ⟦<Dest as Ord>⟧.cmp held.now dest) → W.contents out.new ≡ W.contents out.old }
    ensures printed { OnOk result (Performs (IsEmptiedUnless (is_held held.now.keys dest) dest) (G.state gate.old) (G.state gate.new) (W.contents out.old) (W.contents out.new)) }
{
    if held.contains(&dest) {
        return Ok(());
    }
    print_outbox(gate, dest, out)
}

/// Prints all that waits for a connection.
fn print_outbox<G: GatewayCalls, W: Write>(
    gate: &mut G,
    dest: Dest,
    out: &mut W,
) -> Result<(), PlayFault>
    ensures { OnOk result (Performs (IsEmptied dest) (G.state gate.old) (G.state gate.new) (W.contents out.old) (W.contents out.new)) }
{
    for _ in 0..u64::MAX {
        if print_messages(gate, dest, PIECE, out)? == 0 {
            return Ok(());
        }
    }
    Err(PlayFault::StreamFailed)
}

/// Takes the oldest messages of a connection, and prints them. Says how many there were.
fn print_messages<G: GatewayCalls, W: Write>(
    gate: &mut G,
    dest: Dest,
    count: usize,
    out: &mut W,
) -> Result<usize, PlayFault>
    ensures taken { OnOk result (G.state gate.new ≡ option_map (λ w. step w (Event.Drain dest count)) (G.state gate.old)) }
    ensures count { IfOk result (λ printed. Some printed ≡ option_map (λ w. length (taken w (Event.Drain dest count) dest)) (G.state gate.old)) }
    ensures printed { OnOk result (IfSome (option_map (λ w. flat_map (out_line dest) (taken w (Event.Drain dest count) dest)) (G.state gate.old))
        (Appends (W.contents out.old) (W.contents out.new))) }
{
    let messages = gate.drain(dest, count)?;
    write_messages(out, dest, &messages)?;
    Ok(messages.len())
}

/// Writes the lines of messages that go to a connection.
fn write_messages<W: Write>(out: &mut W, dest: Dest, messages: &[Out]) -> io::Result<()>
    ensures { OnOk result (Appends (W.contents out.old) (W.contents out.new) (flat_map (out_line dest) messages.now)) }
{
    for message in messages {
        let head = message.head.as_slice();
        write_message(out, dest, head, message.payload.as_slice())?;
    }
    Ok(())
}
