//! What the program's exit statuses say.

/// The files are good.
pub const GOOD: u8 = 0;

/// A line of a file is faulty.
pub const REFUSED: u8 = 1;

/// What is told can't be written.
pub const STREAM_FAILED: u8 = 3;

/// Memory was refused.
pub const FAILED: u8 = 4;
