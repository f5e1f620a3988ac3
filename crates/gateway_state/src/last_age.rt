//! What stood already when time was last told to pass.

/// The next numbers of links and of their subscriptions at the last `Event::Age`, or, before the first,
/// the first number that is given out. What has a lower number stood then.
#[derive(Clone, Copy, Debug, PartialEq, Eq)]
pub struct LastAge {
    /// The next CID.
    pub cid: u32,
    /// The next subscription ID.
    pub subscription: u32,
}
