//! What is wanted of a variable, and what a reader asks for.

/// The events that a subscription's mask may ask for: VALUE, LOG and ALARM.
pub const KNOWN_EVENTS: u16 = 7;

/// The event LOG, which is asked for where a reader asks for it.
pub const LOG_EVENT: u16 = 2;

/// The events that are always asked for, VALUE and ALARM.
pub const ALWAYS_ASKED: u16 = 5;

/// The event PROPERTY, which is asked for by itself: it tells of properties, and not of values.
pub const PROPERTY_EVENT: u16 = 8;

/// The events and the greatest count of elements that are wanted: by one reader, or by all of a
/// variable together.
#[derive(Clone, Copy, Debug, PartialEq, Eq)]
pub struct Want {
    /// The events, a bit for each.
    pub mask: u16,
    /// The count of elements.
    pub count: u32,
}

/// What one reader asks for.
#[derive(Clone, Copy, Debug, PartialEq, Eq)]
pub struct Ask {
    /// The events and the count of elements that it wants of the values.
    pub want: Want,
    /// Whether it asks for the properties, whatever the variable's elements are.
    pub props: bool,
    /// Whether it asks for texts, which takes the properties where the elements are states.
    pub texts: bool,
}
