//! The rows of connections, last messages and remembered searches, as the engine keeps them: each found
//! by an index, under clauses that speak of whole lists of rows.
//!
//! - [`Connections`] are the connections that stand, each found by its number.
//! - [`Cache`] keeps what each link was told last, its value and its properties, in one row, found by its
//!   CID and changed where it stands. `remove_by` takes the rows of a server's links and walks no others.
//! - [`Searches`] are the policy that holds and the searches that are remembered under it, each found by its
//!   name, its host and the real name that it leads to, and what asked names were found to lead to. For one
//!   that is remembered, made again or ended no search for another name is walked.
//!
//! What a row is, and what is asked of lists of rows, is said in `gateway_state`. A call that fails leaves
//! the rows as they were.
#![tactic(auto)]

mod cache;
mod connections;
mod kept;
mod latest;
pub mod laws;
mod leads;
mod search_lists;
mod search_table;
mod searches;

pub use cache::Cache;
pub use connections::Connections;
pub use leads::{AskedName, LEADS_LIMIT};
pub use searches::Searches;
