//! Why connections are cut off.
use std::fmt;

/// Why the gateway cuts a connection off.
#[derive(Clone, Copy, Debug, PartialEq, Eq)]
pub enum Cut {
    /// What came is no message: its length is no multiple of 8.
    Misaligned,
    /// The same: it is longer than a message can be.
    TooLarge,
    /// The client's protocol is too old.
    TooOld,
    /// As many messages wait for it as may, which are so many.
    TooSlow(u32),
    /// More bytes wait for it than so many MiB.
    TooMuch(u32),
    /// So many bytes wait for it, and for all clients together more than so many MiB: it is one of those for whom most do.
    TooMuchInAll(u64, u32),
    /// It is a server that said nothing for so many seconds, and nothing when it was asked.
    Unanswering(u32),
    /// It is a client from which nothing came, and to which nothing could be written, for so many seconds.
    Silent(u32),
    /// It is a server that was asked and said nothing, and was to be connected to again.
    Replaced,
    /// It is a server that was found by search and has had no variable of the gateway's for so many seconds.
    Idle(u32),
    /// It is a name server that sent what none sends.
    NoAnswers,
    OutOfMemory,
}

impl fmt::Display for Cut {
    ghost use Rattle.std.specs.Prelude.{Some};
    ghost use Rattle.serve_state.specs.NoticeText.{cut_text};

    ghost output = { λ why. Some (cut_text why) };

    fn fmt<W: fmt::Write>(&self, f: &mut fmt::Formatter<W>) -> fmt::Result {
        match self {
            Cut::Misaligned => f.write_str(
                "it sent bytes that are no message (a length that is no multiple of 8)",
            ),
            Cut::TooLarge => f.write_str(
                "it sent bytes that are no message (a length over 16777216)",
            ),
            Cut::TooOld => f.write_str("its protocol version is below 9"),
            Cut::TooSlow(messages) => write!(f, "{messages} messages waited for it"),
            Cut::TooMuch(mib) => write!(f, "more than {mib} MiB waited for it"),
            Cut::TooMuchInAll(bytes, mib) => write!(
                f,
                "{bytes} bytes waited for it, and more than {mib} MiB for all clients"
            ),
            Cut::Unanswering(seconds) => write!(
                f,
                "it said nothing for {seconds} s, and nothing when it was asked"
            ),
            Cut::Silent(seconds) => write!(f, "nothing came from it or went to it for {seconds} s"),
            Cut::Replaced => f.write_str(
                "it said nothing when it was asked, and is connected to again",
            ),
            Cut::Idle(seconds) => write!(f, "nobody wanted a variable of it for {seconds} s"),
            Cut::NoAnswers => f.write_str("it sent what no name server sends"),
            Cut::OutOfMemory => f.write_str("out of memory"),
        }
    }
}
