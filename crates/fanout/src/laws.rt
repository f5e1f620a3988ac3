//! Laws of outboxes. Each is a call that does nothing, and its contract is the law.
ghost use Rattle.std.specs.Prelude.{◌≡◌};
ghost use Rattle.fanout.specs.declared.outbox.TheConstants.{OUTBOX_LIMIT};

/// The limit of the messages that wait.
pub fn numbers_are_these()
    ensures messages { OUTBOX_LIMIT ≡ 16_384 }
{}
