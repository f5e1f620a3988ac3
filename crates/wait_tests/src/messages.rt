//! What is said in the stories, as it stands in the stream.
use crate::links::Piece;

pub(crate) const ECHO: &[u8] = b"\x00\x17\0\0\0\0\0\0\0\0\0\x01\0\0\0\0";

/// A VERSION by which a client must end: it is too old.
pub(crate) const TOO_OLD: &[u8] = b"\0\0\0\0\0\0\0\x08\0\0\0\0\0\0\0\0";

/// A client's channel on T1, and a write to it.
pub(crate) const CREATE: &[u8] = b"\x00\x12\0\x08\0\0\0\0\0\0\0\x07\0\0\0\x0DT1\0\0\0\0\0\0";

pub(crate) const WRITE: &[u8] = b"\x00\x04\0\x08\0\x05\0\x01\0\0\0\x01\0\0\0\0\0\0\0\x07\0\0\0\0";

/// A search for T1.
pub(crate) const SEARCH: &[u8] = b"\x00\x06\0\x08\0\x05\0\x0D\0\0\0\x11\0\0\0\x11T1\0\0\0\0\0\0";

const VERSION: &[u8] = b"\0\0\0\0\0\0\0\x0D\0\0\0\0\0\0\0\0";

const RIGHTS: &[u8] = b"\x00\x16\0\0\0\0\0\0\0\0\0\x01\0\0\0\x03";

const CREATED: &[u8] = b"\x00\x12\0\0\0\x05\0\x01\0\0\0\x01\0\0\0\x65";

const RIGHTS_AT_THE_END: &[u8] = b"\x00\x16\0\0\0\0\0\0\xFF\xFF\xFF\xFE\0\0\0\x03";

const CREATED_AT_THE_END: &[u8] = b"\x00\x12\0\0\0\x05\0\x01\xFF\xFF\xFF\xFE\0\0\0\x65";

/// What a server says that has T1, where the gateway's first number is 1.
pub(crate) const SERVES: &[Piece] = &[
    Piece(1, 1, VERSION),
    Piece(1, 1, RIGHTS),
    Piece(1, 1, CREATED),
];

/// The same where the first number is the last but one.
pub(crate) const SERVES_AT_THE_END: &[Piece] = &[
    Piece(1, 1, VERSION),
    Piece(1, 1, RIGHTS_AT_THE_END),
    Piece(1, 1, CREATED_AT_THE_END),
];
