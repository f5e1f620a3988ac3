//! The rows of the plain gateway (`plain_gate`): all that it knows, as plain lists, with its questions and its small
//! changes.
//!
//! [`PlainRows`](state::PlainRows) has each kind of rows as a list in the order of adding. Its fields are public, since
//! what an event does is made up of changes of single lists. A row is found from the front by a key, each time anew
//! (`lists`): no index, no count beside the rows. The keys, and the changes of one list, stand with its rows
//! (`clients`, `upstream`, `connections`, `searches`, `numbers`); what is asked of several lists are methods of
//! `PlainRows`: where names lead and which are wanted (`names`), what reads are answered (`values`), and what readers
//! want together (`interest`). What remembered searches lead to is kept beside them, so that whether a name is missing
//! takes no memory.
//!
//! A call that is refused memory may leave its work half done.
#![tactic(auto)]

pub mod clients;
pub mod connections;
mod interest;
pub mod lists;
mod names;
pub mod numbers;
mod searches;
pub mod state;
mod taken;
pub mod upstream;
mod values;
