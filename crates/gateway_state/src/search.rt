//! Searches that are remembered.
use pv_name::{Host, Name};

/// A name that somebody at a host looks for.
#[derive(Drop)]
pub struct RememberedSearch {
    pub host: Host,
    pub name: Name,
    /// Whether it was made since the last `Event::Age`.
    pub fresh: bool,
}
