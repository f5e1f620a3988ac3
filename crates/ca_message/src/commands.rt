//! The numbers of commands, and those of their fields that have one meaning everywhere (Channel
//! Access Protocol Specification, "Commands").

pub const CA_PROTO_VERSION: u16 = 0;

pub const CA_PROTO_EVENT_ADD: u16 = 1;

pub const CA_PROTO_EVENT_CANCEL: u16 = 2;

pub const CA_PROTO_WRITE: u16 = 4;

pub const CA_PROTO_SEARCH: u16 = 6;

pub const CA_PROTO_EVENTS_OFF: u16 = 8;

pub const CA_PROTO_EVENTS_ON: u16 = 9;

pub const CA_PROTO_ERROR: u16 = 11;

pub const CA_PROTO_CLEAR_CHANNEL: u16 = 12;

pub const CA_PROTO_READ_NOTIFY: u16 = 15;

pub const CA_PROTO_CREATE_CHAN: u16 = 18;

pub const CA_PROTO_WRITE_NOTIFY: u16 = 19;

pub const CA_PROTO_CLIENT_NAME: u16 = 20;

pub const CA_PROTO_HOST_NAME: u16 = 21;

pub const CA_PROTO_ACCESS_RIGHTS: u16 = 22;

pub const CA_PROTO_ECHO: u16 = 23;

pub const CA_PROTO_CREATE_CH_FAIL: u16 = 26;

pub const CA_PROTO_SERVER_DISCONN: u16 = 27;

/// The minor version of the protocol that this side speaks: 4.13. It stands in the count field of
/// VERSION.
pub const MINOR_VERSION: u32 = 13;

/// What stands in place of a server's address in a SEARCH reply where the server is who sent it.
pub const SENDER_ADDRESS: u32 = 0xFFFF_FFFF;

/// What stands in place of a CID in an ERROR that concerns no channel.
pub const NO_CHANNEL: u32 = 0xFFFF_FFFF;

/// The bit of the access rights that lets a client read.
pub const CA_PROTO_ACCESS_RIGHT_READ: u32 = 1;

/// The bit of the access rights that lets a client write.
pub const CA_PROTO_ACCESS_RIGHT_WRITE: u32 = 2;

/// The access rights of a channel that a client may read and write.
pub const READ_AND_WRITE: u32 = CA_PROTO_ACCESS_RIGHT_READ | CA_PROTO_ACCESS_RIGHT_WRITE;
