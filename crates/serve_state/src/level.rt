//! Words for the levels of the log.
ghost use Rattle.std.specs.Prelude.{◌≡◌};
ghost use Rattle.serve_state.specs.Levels.{level_named};

use log::Level;

/// The level that a word names: `error`, `warn`, `info` or `debug`.
pub fn read_level(word: &[u8]) -> Option<Level>
    ensures { result ≡ level_named word.now }
{
    if word == b"error".as_slice() {
        return Some(Level::Error);
    }
    if word == b"warn".as_slice() {
        return Some(Level::Warn);
    }
    if word == b"info".as_slice() {
        return Some(Level::Info);
    }
    if word == b"debug".as_slice() {
        return Some(Level::Debug);
    }
    None
}
