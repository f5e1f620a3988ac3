//! What a read would be answered.
use bytes::Bytes;

/// The plain type of a variable, and how many elements it has.
#[derive(Clone, Copy, Debug, PartialEq, Eq)]
pub struct Native {
    pub dtype: u16,
    pub count: u32,
}

/// A value as it is given: how many elements, and its payload.
#[derive(Drop)]
pub struct Given {
    pub count: u32,
    pub payload: Bytes,
}

/// What a READ_NOTIFY would be answered now.
#[derive(Drop)]
pub enum Reading {
    /// So many elements, and their payload.
    Value(u32, Bytes),
    /// It would be refused with this code.
    Refused(u32),
    /// It would wait for an update.
    Waits,
    /// The session has no such channel.
    NoChannel,
}
