//! Lists of rows: what it means to change or to remove one row, and the lemmas on finding it.
//!
//! The tables of the gateway keep rows in lists. Their contracts say what a call does by
//! `change_first` and `remove_first`, and their bodies find the row's place and write there.
#![tactic(auto)]
