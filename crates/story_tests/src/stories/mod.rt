//! Worked runs of scripts, as stories that are told to `replay`.
//!
//! A story is a text. Its lines are those of a script, and behind `> ` what a line prints. All that
//! is printed has to be this, and the status at the end has to be 0. Beside these there are
//!
//! - `@served`: the lines of a beginning that stories share (`beginnings`);
//! - `[256 from 1:TEXT]`: `TEXT` 256 times, with a number in it that rises from 1: `{d}` is its
//!   decimal digits, `{d4}` four of them, `{x6}` and `{x8}` so many hexadecimal ones, and `{t4}` the
//!   bytes of `{d4}` as hexadecimal digits;
//! - `! status 2`: another status at the end;
//! - `! uncut`: without it the script is performed on the plain gateway too, and again with the
//!   bytes of each line cut after 1 to 47 of them.

mod access;
mod ages;
mod beginnings;
mod channels;
mod clients;
mod edits;
mod gone;
mod layouts;
mod limits;
mod links;
mod properties;
mod property_events;
mod property_messages;
mod reads;
mod searches;
mod servers;
mod subscriptions;
mod tell;
mod text;
mod told_limits;
mod types;
mod writes;
