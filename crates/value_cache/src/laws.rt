//! Laws of the definitions that the contracts cite.
ghost use Rattle.value_cache.specs.Laws.{GivesBack};

/// A message that is held gives itself back under its own type and a count of 0: all of its
/// elements, with the same alarm and stamp. So it is wherever that answer can be laid out at all.
pub fn messages_are_given_back()
    ensures { GivesBack }
{}
