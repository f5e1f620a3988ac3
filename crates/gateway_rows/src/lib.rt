//! The rows of the gateway together: what is asked of them, and the small changes that several
//! layers make.
//!
//! `Known` is everything that the gateway knows, and a contract sees it as the gateway state of
//! `gateway_state`, beside the brand of its table of clients. `CountedRows` has that and the count of looks at rows
//! of clients, which is made with it. Questions (`link_of`, `connected`, `told_channel`, `is_wanted`, `wanted`,
//! `reading`, `asks` ..) leave the state as it is, and each answers the definition of its name over it; those
//! that ask the rules take memory, and may be refused it. Changes (`tell`, `ask`, `mark`, `remember`,
//! `remove_channel`, `remove_link`, `owe_all` ..) make the state that the definition which their contract
//! names makes of the old one. Nothing is promised of the state after an error: a `RowsRefusal` says only whether
//! memory or numbers ran out.
//!
//! What looks at a row of a client is a call on `CountedRows`, and says in one word how many looks it counted
//! (`specs/Looked.antt`). What lends such a row takes `Known` and the count apart.
#![tactic(auto)]

mod age;
mod answer;
mod asks;
mod changes;
mod connections;
mod counted_rows;
mod fault;
mod interest;
mod limits;
mod numbers;
mod own;
mod policy;
mod rights;
mod searches;
mod state;
mod telling;
mod variables;

pub use counted_rows::CountedRows;
pub use fault::RowsRefusal;
pub use state::Known;
