//! The text of replays: the lines of scripts, and the lines that a replay prints.
//!
//! A script has one command a line. [`read_line`] says what a line asks for, as a [`Line`], and
//! refuses every other line as bad. What a replay answers is written by one function for each kind
//! of line, as [`write_message`] for a message that goes to a connection.
//!
//! A caller reads each line without its LF, does what it says, and writes what comes of it:
//!
//! ```rust
//! fn lost(alloc: Global, line: &[u8], out: &mut Vec<u8>) -> Result<(), Fail> {
//!     if let Line::Lost(dest) = read_line(alloc, line)? {
//!         write_end(out, dest)?;
//!     }
//!     Ok(())
//! }
//! ```
//!
//! With the line `lost s1` this writes `end s1`. The text of a line is a definition of `specs/`:
//! `Lines` for scripts, `Output` for what is printed.
#![tactic(auto)]

mod command;
mod limit;
mod line;
mod output;
mod piece;
mod values;
mod words;

pub use limit::NewLimit;
pub use line::{Line, read_line};
pub use output::{
    write_asks, write_end, write_message, write_props, write_reading, write_refused,
    write_refused_access, write_refused_groups, write_reply, write_rights, write_shut,
    write_subscription,
};
pub use piece::Piece;
pub use values::LineFault;
