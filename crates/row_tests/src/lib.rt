//! Tests of the rows of clients, of servers and links, and of what readers want together. They stand
//! apart so that each crate they test is proved once, and not a second time with its tests.
#![tactic(auto)]

#[cfg(test)]
mod client_rows;
#[cfg(test)]
mod clients;
#[cfg(test)]
mod crowds;
#[cfg(test)]
mod each;
#[cfg(test)]
mod leaving;
#[cfg(test)]
mod limits;
#[cfg(test)]
mod link_rows;
#[cfg(test)]
mod links;
#[cfg(test)]
mod links_leaving;
#[cfg(test)]
mod listed;
#[cfg(test)]
mod named;
#[cfg(test)]
mod numbers;
#[cfg(test)]
mod readers;
#[cfg(test)]
mod seen;
#[cfg(test)]
mod shown;
#[cfg(test)]
mod visited;
#[cfg(test)]
mod wants;
#[cfg(test)]
mod within;
#[cfg(test)]
mod words;
