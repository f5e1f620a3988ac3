//! What the program's exit statuses say.

/// All went well.
pub const GOOD: u8 = 0;

/// The arguments or the script are bad.
pub const BAD_INPUT: u8 = 2;

/// A standard stream can't be read or written.
pub const STREAM_FAILED: u8 = 3;

/// Memory was refused, or the gateway failed.
pub const FAILED: u8 = 4;
