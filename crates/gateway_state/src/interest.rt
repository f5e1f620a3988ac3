//! What readers want of a variable.

/// The events that each new value is: VALUE and LOG.
pub const VALUE_EVENTS: u16 = 3;

/// The event that a new alarm is.
pub const ALARM_EVENTS: u16 = 4;

/// The events that a subscription may ask for: VALUE, LOG, ALARM and PROPERTY.
pub const SERVED_EVENTS: u16 = 15;

/// How many plain types there are; their numbers are below this.
pub const PLAIN_TYPES: u16 = 7;

/// What is added to a plain type's number for its TIME form.
pub const TIME_FORM: u16 = 14;

/// What is added to a plain type's number for its CTRL form.
pub const CTRL_FORM: u16 = 28;

/// A variable's subscription upstream.
#[derive(Clone, Copy, Debug, PartialEq, Eq)]
pub struct Sub {
    /// The gateway's ID of it.
    pub id: u32,
    /// The events.
    pub mask: u16,
    /// The count of elements that updates may have.
    pub count: u32,
}
