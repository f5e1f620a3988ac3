//! What a replay prints.
ghost use Rattle.std.specs.Prelude.{◌++◌, OnOk, flat_map};
ghost use Rattle.std.specs.Io.KnownBytes.{Appends};
ghost use Rattle.std.specs.Option.{option_map};
ghost use Rattle.hex.specs.Hex.{encode_lower};
ghost use Rattle.replay_text.specs.Output.{dest_text, message_line, shut_line, end_line, asks_line, after_blank, reading_line, value_line, bytes_text, subscription_line, subscription_text, props_line, rights_line, reply_line, access_cause_line, cause_line, refused_line, refused_access_line, refused_groups_line};

use access_file::{AccessCause, AccessFault};
use ca_header::FrameFault;
use gateway_state::{Dest, Reading, Sub};
use pv_name::Name;
use pvlist::RuleCause;
use std::io;
use std::io::Write;

// How many bytes are put into digits at a time.
const PIECE: usize = 512;

/// Writes the line of a message that goes to a connection: the connection as scripts write it, a
/// blank, and the bytes of the message's header and payload as hexadecimal digits in lower case.
pub fn write_message<W: Write>(
    out: &mut W,
    dest: Dest,
    head: &[u8],
    payload: &[u8],
) -> io::Result<()>
    ensures ok { OnOk result (Appends (W.contents out.old) (W.contents out.new) (message_line dest (head.now ++ payload.now))) }
{
    write_dest(out, dest)?;
    out.write_all(b" ")?;
    write_hex(out, head)?;
    write_hex(out, payload)?;
    out.write_all(b"\n")
}

/// Writes the line that says that a connection is cut off, since its bytes are no messages.
pub fn write_shut<W: Write>(out: &mut W, dest: Dest, fault: FrameFault) -> io::Result<()>
    ensures ok { OnOk result (Appends (W.contents out.old) (W.contents out.new) (shut_line dest fault)) }
{
    out.write_all(b"shut ")?;
    write_dest(out, dest)?;
    match fault {
        FrameFault::Misaligned => out.write_all(b" misaligned\n"),
        FrameFault::TooLarge => out.write_all(b" toolarge\n"),
    }
}

/// Writes the line that says that a connection is cut off since it must end.
pub fn write_end<W: Write>(out: &mut W, dest: Dest) -> io::Result<()>
    ensures ok { OnOk result (Appends (W.contents out.old) (W.contents out.new) (end_line dest)) }
{
    out.write_all(b"end ")?;
    write_dest(out, dest)?;
    out.write_all(b"\n")
}

/// Writes the line of an edit that is refused for a line of its rule file: that line's number,
/// counted from 1 in the file, and what is wrong with it.
pub fn write_refused<W: Write>(out: &mut W, line: usize, cause: RuleCause) -> io::Result<()>
    ensures ok { OnOk result (Appends (W.contents out.old) (W.contents out.new) (refused_line line cause)) }
{
    out.write_all(b"refused ")?;
    write_cause(out, line, cause)
}

/// Writes the same for a line of its group file.
pub fn write_refused_groups<W: Write>(out: &mut W, line: usize, cause: RuleCause) -> io::Result<()>
    ensures ok { OnOk result (Appends (W.contents out.old) (W.contents out.new) (refused_groups_line line cause)) }
{
    out.write_all(b"refused groups ")?;
    write_cause(out, line, cause)
}

/// Writes the same for a line of its access security file.
pub fn write_refused_access<W: Write>(
    out: &mut W,
    line: usize,
    cause: AccessCause,
) -> io::Result<()>
    ensures ok { OnOk result (Appends (W.contents out.old) (W.contents out.new) (refused_access_line line cause)) }
{
    out.write_all(b"refused access ")?;
    write_access_cause(out, line, cause)
}

/// Writes the line of the names that are asked for, each after a blank.
pub fn write_asks<W: Write>(out: &mut W, names: &[Name]) -> io::Result<()>
    ensures ok { OnOk result (Appends (W.contents out.old) (W.contents out.new) (asks_line names.now)) }
{
    out.write_all(b"asks")?;
    write_names(out, names)?;
    out.write_all(b"\n")
}

/// Writes the line of what a read would be answered.
pub fn write_reading<W: Write>(out: &mut W, reading: &Reading) -> io::Result<()>
    ensures ok { OnOk result (Appends (W.contents out.old) (W.contents out.new) (reading_line reading.now)) }
{
    match reading {
        Reading::Value(count, payload) => write_value(out, *count, payload.as_slice()),
        Reading::Refused(code) => writeln!(out, "refused {code}"),
        Reading::Waits => out.write_all(b"waits\n"),
        Reading::NoChannel => out.write_all(b"no channel\n"),
    }
}

/// Writes the line of what is subscribed to upstream: the subscription's ID, mask and count, or `-`
/// where there is none.
pub fn write_subscription<W: Write>(out: &mut W, subscription: Option<Sub>) -> io::Result<()>
    ensures ok { OnOk result (Appends (W.contents out.old) (W.contents out.new) (subscription_line (option_map (λ sub. subscription_text sub.id sub.mask sub.count) subscription))) }
{
    match subscription {
        Some(sub) => writeln!(out, "sub {} {} {}", sub.id, sub.mask, sub.count),
        None => out.write_all(b"sub -\n"),
    }
}

/// Writes the line of the subscription to a variable's properties: its ID, or `-` where there is none.
pub fn write_props<W: Write>(out: &mut W, id: Option<u32>) -> io::Result<()>
    ensures ok { OnOk result (Appends (W.contents out.old) (W.contents out.new) (props_line id)) }
{
    match id {
        Some(id) => writeln!(out, "props {id}"),
        None => out.write_all(b"props -\n"),
    }
}

/// Writes the line of what a client may do with a channel (1: read, 2: write), or `-` where it has no
/// such channel.
pub fn write_rights<W: Write>(out: &mut W, rights: Option<u32>) -> io::Result<()>
    ensures ok { OnOk result (Appends (W.contents out.old) (W.contents out.new) (rights_line rights)) }
{
    match rights {
        Some(rights) => writeln!(out, "rights {rights}"),
        None => out.write_all(b"rights -\n"),
    }
}

/// Writes the line of the datagram that answers searches, or `-` where none is sent.
pub fn write_reply<W: Write>(out: &mut W, datagram: &[u8]) -> io::Result<()>
    ensures ok { OnOk result (Appends (W.contents out.old) (W.contents out.new) (reply_line datagram.now)) }
{
    out.write_all(b"reply ")?;
    write_bytes(out, datagram)?;
    out.write_all(b"\n")
}

fn write_cause<W: Write>(out: &mut W, line: usize, cause: RuleCause) -> io::Result<()>
    ensures ok { OnOk result (Appends (W.contents out.old) (W.contents out.new) (cause_line line cause)) }
{
    writeln!(out, "line {line}: {cause}")
}

fn write_access_cause<W: Write>(out: &mut W, line: usize, cause: AccessCause) -> io::Result<()>
    ensures ok { OnOk result (Appends (W.contents out.old) (W.contents out.new) (access_cause_line line cause)) }
{
    writeln!(out, "{}", AccessFault::At(line, cause))
}

fn write_names<W: Write>(out: &mut W, names: &[Name]) -> io::Result<()>
    ensures ok { OnOk result (Appends (W.contents out.old) (W.contents out.new) (flat_map after_blank names.now)) }
{
    for name in names {
        out.write_all(b" ")?;
        out.write_all(name.text().as_bytes())?;
    }
    Ok(())
}

fn write_value<W: Write>(out: &mut W, count: u32, payload: &[u8]) -> io::Result<()>
    ensures ok { OnOk result (Appends (W.contents out.old) (W.contents out.new) (value_line count payload.now)) }
{
    write!(out, "value {count} ")?;
    write_bytes(out, payload)?;
    out.write_all(b"\n")
}

/// Writes bytes as scripts do, `-` for none.
fn write_bytes<W: Write>(out: &mut W, bytes: &[u8]) -> io::Result<()>
    ensures ok { OnOk result (Appends (W.contents out.old) (W.contents out.new) (bytes_text bytes.now)) }
{
    if bytes.is_empty() {
        out.write_all(b"-")
    } else {
        write_hex(out, bytes)
    }
}

fn write_dest<W: Write>(out: &mut W, dest: Dest) -> io::Result<()>
    ensures ok { OnOk result (Appends (W.contents out.old) (W.contents out.new) (dest_text dest)) }
{
    match dest {
        Dest::Session(number) => write!(out, "s{number}"),
        Dest::Upstream(number) => write!(out, "u{number}"),
    }
}

fn write_hex<W: Write>(out: &mut W, bytes: &[u8]) -> io::Result<()>
    ensures ok { OnOk result (Appends (W.contents out.old) (W.contents out.new) (encode_lower bytes.now)) }
{
    let mut digits = [0u8; 2 * PIECE];
    let mut rest = bytes;
    while !rest.is_empty() {
        let (piece, more) = rest.split_at(rest.len().min(PIECE));
        let text = &mut digits[..2 * piece.len()];
        hex::encode_to_slice(piece, text).unwrap();
        out.write_all(text)?;
        rest = more;
    }
    Ok(())
}
