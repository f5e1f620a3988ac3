//! What a line of a script asks for.
ghost use Rattle.std.specs.Prelude.{◌≡◌, true, IsTrue, ◌↔◌};
ghost use Rattle.std.specs.List.{slice_split};
ghost use Rattle.replay_text.specs.Lines.{IsRead, line_of, words_line, command_line, is_skipped, open_line, opening, dest_line, lost_line, hold_line, flow_line, client_line, server_line, found_line, search_line, sweep_line, edit_line, size_in, last_size_in, asks_line, channel_of, read_line as reading_line, sub_line, props_line, rights_line, drain_line, limit_line, age_line, probe_line, seek_line, seeking};
ghost use Rattle.replay_text.specs.Words.{is_blank, after_first};

use crate::command::Command;
use crate::limit::{NewLimit, new_limit};
use crate::piece::Piece;
use crate::values::{LineFault, bytes, count, dest, host, name, server, session};
use crate::words::Words;
use decimal_text::{read_u16, read_u32};
use gateway_state::Dest;
use pv_name::{Host, Name};
use std::alloc::Global;

/// What a line of a script asks for.
#[derive(Debug, Drop)]
pub enum Line {
    /// Nothing: the line is empty or a comment.
    Skipped,
    /// A client connects from the host.
    OpenSession(u32, Host),
    /// A connection is lost.
    Lost(Dest),
    /// Bytes come from a client.
    Client(u32, Piece),
    /// A server is connected.
    OpenServer(u32),
    /// Bytes come from a server.
    Server(u32, Piece),
    /// A server has the variable of this name.
    Found(Name, u32),
    /// A datagram of searches comes from the host.
    Search(Host, Piece),
    /// All remembered searches are forgotten.
    Sweep,
    /// The policy is edited. So many lines that follow are its rule file, so many after those its group
    /// file, and so many after those its access security file; where there are none, there is no such file.
    Edit {
        rules: usize,
        groups: usize,
        access: usize,
    },
    /// Which names are asked for?
    Asks,
    /// What would a read be answered?
    Read {
        session: u32,
        sid: u32,
        dtype: u16,
        count: u32,
    },
    /// What is subscribed to upstream for this variable?
    Subscription(Name),
    /// And for its properties?
    Properties(Name),
    /// What may a client do with its channel?
    Rights {
        session: u32,
        sid: u32,
    },
    /// The connection's messages are kept back from now on.
    Hold(Dest),
    /// They are no longer kept back.
    Flow(Dest),
    /// So many of the connection's messages are taken, whether they are kept back or not.
    Drain(Dest, usize),
    /// From now on this limit is another one; the others hold on.
    Limit(NewLimit),
    /// Time passes.
    Age,
    /// The server of this number is asked whether it is there.
    Probe(u32),
    /// A client's search on its connection, which it calls by this ID, is made again for it.
    Seek(u32, u32, Name),
}

/// Reads a line of a script, without the LF that ends it.
#[tactic(auto, unfolding(crate::specs::Lines::line_of))]
pub fn read_line(alloc: Global, line: &[u8]) -> Result<Line, LineFault>
    ensures { IsRead result (line_of line.now) }
{
    if says_nothing(line) {
        return Ok(Line::Skipped);
    }
    read_words(alloc, Words::new(line))
}

/// Whether a line is empty or a comment.
fn says_nothing(line: &[u8]) -> bool
    ensures { result ≡ is_skipped line.now }
{
    match line {
        [] => true,
        [first, ..] => *first == b'#',
    }
}

fn read_words(alloc: Global, mut words: Words) -> Result<Line, LineFault>
    ensures { IsRead result (words_line words.entry) }
{
    let word = words.take_first().ok_or(LineFault::Bad)?;
    let command = Command::named(word).ok_or(LineFault::Bad)?;
    read_command(alloc, command, words)
}

/// Reads the words after a command.
fn read_command(alloc: Global, command: Command, words: Words) -> Result<Line, LineFault>
    ensures { IsRead result (command_line command words.entry) }
{
    match command {
        Command::Open => open(alloc, words),
        Command::Lost => lost(words).ok_or(LineFault::Bad),
        Command::Client => client(alloc, words),
        Command::Server => server_bytes(alloc, words),
        Command::Found => found(alloc, words),
        Command::Search => search(alloc, words),
        Command::Sweep => sweep(words).ok_or(LineFault::Bad),
        Command::Edit => edit(words).ok_or(LineFault::Bad),
        Command::Asks => asks(words).ok_or(LineFault::Bad),
        Command::Read => read(words).ok_or(LineFault::Bad),
        Command::Sub => subscription(alloc, words),
        Command::Props => properties(alloc, words),
        Command::Rights => rights(words).ok_or(LineFault::Bad),
        Command::Hold => hold(words).ok_or(LineFault::Bad),
        Command::Flow => flow(words).ok_or(LineFault::Bad),
        Command::Drain => drain(words).ok_or(LineFault::Bad),
        Command::Limit => limit(words).ok_or(LineFault::Bad),
        Command::Age => age(words).ok_or(LineFault::Bad),
        Command::Probe => probe(words).ok_or(LineFault::Bad),
        Command::Seek => seek(alloc, words),
    }
}

fn open(alloc: Global, mut words: Words) -> Result<Line, LineFault>
    ensures { IsRead result (open_line words.entry) }
{
    let word = words.take_first().ok_or(LineFault::Bad)?;
    match dest(word).ok_or(LineFault::Bad)? {
        Dest::Session(number) => open_session(alloc, number, words),
        Dest::Upstream(number) => open_server(number, words).ok_or(LineFault::Bad),
    }
}

fn open_session(alloc: Global, number: u32, words: Words) -> Result<Line, LineFault>
    ensures { IsRead result (opening (Dest.Session number) words.entry) }
{
    let word = words.one().ok_or(LineFault::Bad)?;
    Ok(Line::OpenSession(number, host(alloc, word)?))
}

fn open_server(number: u32, words: Words) -> Option<Line>
    ensures { result ≡ opening (Dest.Upstream number) words.entry }
{
    words.none()?;
    Some(Line::OpenServer(number))
}

/// The connection that is all that is left of a line.
fn one_dest(words: Words) -> Option<Dest>
    ensures { result ≡ dest_line words.entry }
{
    dest(words.one()?)
}

fn lost(words: Words) -> Option<Line>
    ensures { result ≡ lost_line words.entry }
{
    Some(Line::Lost(one_dest(words)?))
}

fn hold(words: Words) -> Option<Line>
    ensures { result ≡ hold_line words.entry }
{
    Some(Line::Hold(one_dest(words)?))
}

fn flow(words: Words) -> Option<Line>
    ensures { result ≡ flow_line words.entry }
{
    Some(Line::Flow(one_dest(words)?))
}

fn client(alloc: Global, words: Words) -> Result<Line, LineFault>
    ensures { IsRead result (client_line words.entry) }
{
    let (from, digits) = words.two().ok_or(LineFault::Bad)?;
    let number = session(from).ok_or(LineFault::Bad)?;
    Ok(Line::Client(number, bytes(alloc, digits)?))
}

fn server_bytes(alloc: Global, words: Words) -> Result<Line, LineFault>
    ensures { IsRead result (server_line words.entry) }
{
    let (from, digits) = words.two().ok_or(LineFault::Bad)?;
    let number = server(from).ok_or(LineFault::Bad)?;
    Ok(Line::Server(number, bytes(alloc, digits)?))
}

fn found(alloc: Global, words: Words) -> Result<Line, LineFault>
    ensures { IsRead result (found_line words.entry) }
{
    let (variable, at) = words.two().ok_or(LineFault::Bad)?;
    let number = server(at).ok_or(LineFault::Bad)?;
    Ok(Line::Found(name(alloc, variable)?, number))
}

fn search(alloc: Global, words: Words) -> Result<Line, LineFault>
    ensures { IsRead result (search_line words.entry) }
{
    let (from, digits) = words.two().ok_or(LineFault::Bad)?;
    let host = host(alloc, from)?;
    Ok(Line::Search(host, bytes(alloc, digits)?))
}

fn sweep(words: Words) -> Option<Line>
    ensures { result ≡ sweep_line words.entry }
{
    words.none()?;
    Some(Line::Sweep)
}

fn edit(mut words: Words) -> Option<Line>
    ensures { result ≡ edit_line words.entry }
{
    let rules = size(&mut words)?;
    let groups = size(&mut words)?;
    Some(Line::Edit {
        rules,
        groups,
        access: last_size(words)?,
    })
}

/// How many lines a file has, by the next word.
fn size(words: &mut Words) -> Option<usize>
    ensures size { result ≡ size_in words.old }
    ensures rest { words.new ≡ after_first words.old }
{
    count(words.take_first()?)
}

/// The same by the last word, which may be left out where there are none.
fn last_size(mut words: Words) -> Option<usize>
    ensures { result ≡ last_size_in words.entry }
{
    let word = words.take_first();
    words.none()?;
    match word {
        Some(word) => count(word),
        None => Some(0),
    }
}

fn asks(words: Words) -> Option<Line>
    ensures { result ≡ asks_line words.entry }
{
    words.none()?;
    Some(Line::Asks)
}

fn read(words: Words) -> Option<Line>
    ensures { result ≡ reading_line words.entry }
{
    let (of, form) = words.four()?;
    let (session, sid) = channel(of)?;
    let (dtype, count) = (read_u16(form.0)?, read_u32(form.1)?);
    Some(Line::Read {
        session,
        sid,
        dtype,
        count,
    })
}

fn subscription(alloc: Global, words: Words) -> Result<Line, LineFault>
    ensures { IsRead result (sub_line words.entry) }
{
    let word = words.one().ok_or(LineFault::Bad)?;
    Ok(Line::Subscription(name(alloc, word)?))
}

fn properties(alloc: Global, words: Words) -> Result<Line, LineFault>
    ensures { IsRead result (props_line words.entry) }
{
    let word = words.one().ok_or(LineFault::Bad)?;
    Ok(Line::Properties(name(alloc, word)?))
}

fn rights(words: Words) -> Option<Line>
    ensures { result ≡ rights_line words.entry }
{
    let (session, sid) = channel(words.two()?)?;
    Some(Line::Rights { session, sid })
}

/// A session and a channel of it.
fn channel(words: (&[u8], &[u8])) -> Option<(u32, u32)>
    ensures { result ≡ channel_of (words.entry.0.now, words.entry.1.now) }
{
    Some((session(words.0)?, read_u32(words.1)?))
}

fn drain(words: Words) -> Option<Line>
    ensures { result ≡ drain_line words.entry }
{
    let (from, number) = words.two()?;
    Some(Line::Drain(dest(from)?, count(number)?))
}

fn limit(words: Words) -> Option<Line>
    ensures { result ≡ limit_line words.entry }
{
    let (name, value) = words.two()?;
    Some(Line::Limit(new_limit(name, value)?))
}

fn age(words: Words) -> Option<Line>
    ensures { result ≡ age_line words.entry }
{
    words.none()?;
    Some(Line::Age)
}

fn probe(words: Words) -> Option<Line>
    ensures { result ≡ probe_line words.entry }
{
    Some(Line::Probe(read_u32(words.one()?)?))
}

fn seek(alloc: Global, mut words: Words) -> Result<Line, LineFault>
    ensures { IsRead result (seek_line words.entry) }
{
    let word = words.take_first().ok_or(LineFault::Bad)?;
    let number = session(word).ok_or(LineFault::Bad)?;
    seek_of(alloc, number, words)
}

/// The same of a session.
fn seek_of(alloc: Global, number: u32, words: Words) -> Result<Line, LineFault>
    ensures { IsRead result (seeking number words.entry) }
{
    let (digits, variable) = words.two().ok_or(LineFault::Bad)?;
    let cid = read_u32(digits).ok_or(LineFault::Bad)?;
    Ok(Line::Seek(number, cid, name(alloc, variable)?))
}
