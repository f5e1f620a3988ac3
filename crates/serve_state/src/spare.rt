//! Descriptors that are kept for servers.
ghost use Rattle.std.specs.Prelude.{◌≡◌};
ghost use Rattle.serve_state.specs.Spare.{is_kept_back};

/// Besides one for each server so many are kept back: those of rule files, of who is told of the gateway, and of a
/// client that is accepted and refused.
pub const OTHERS: u64 = 8;

/// Whether the descriptor that a client's connection got is one of those that are kept back, where a process has at
/// most `most`. The system gives the least one that is free, so all below it are taken.
pub fn is_kept_back(descriptor: u64, most: u64, servers: u32) -> bool
    ensures { result ≡ is_kept_back descriptor most servers }
{
    descriptor >= most.saturating_sub(u64::from(servers) + OTHERS)
}
