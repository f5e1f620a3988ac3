//! Laws of the table of clients. Each is a call that does nothing, and its contract is the law.
ghost use Rattle.std.specs.Prelude.{◌≡◌};
ghost use Rattle.named_rows.specs.declared.asks.TheConstants.{READ_RIGHT};
ghost use Rattle.channel_table.specs.declared.table.TheConstants.{SESSION_LIMIT, CHANNEL_LIMIT, SUB_LIMIT, READ_LIMIT};

/// The limits: of all sessions, and of the channels, subscriptions and waiting reads of one; and the
/// bit of the right to read.
pub fn numbers_are_these()
    ensures sessions { SESSION_LIMIT ≡ 1_024 }
    ensures channels { CHANNEL_LIMIT ≡ 4_096 }
    ensures subs { SUB_LIMIT ≡ 8_192 }
    ensures reads { READ_LIMIT ≡ 256 }
    ensures read_right { READ_RIGHT ≡ 1 }
{}
