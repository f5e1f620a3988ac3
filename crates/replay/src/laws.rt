//! Laws of playing scripts. Each is a call that does nothing, and its contract is the law.
ghost use Rattle.std.specs.Prelude.{◌≡◌, ◌-◌, ◌^◌};
ghost use Rattle.replay.specs.declared.script.TheConstants.{MOST_READS};

/// How many times a script is read from at most: so a replay ends whatever its reader does.
pub fn numbers_are_as_documented()
    ensures most_reads { MOST_READS ≡ 2 ^ 40 - 1 }
{}
