//! Whose datagram it is.
ghost use Rattle.std.specs.Prelude.{◌≡◌, ◌+◌, ◌<◌, ◌^◌, Some, None, IfSome, IfNone, length, ℕ};
ghost use Rattle.std.specs.List.{position};

/// The number of the server that is at this address, counted from 1, the first where several are; `None`
/// where a client's datagram came from there.
pub fn server_of<A: PartialEq>(servers: &[A], from: &A) -> Option<u32>
    ensures some { IfSome result (λ n. (i : ℕ) × ((position (λ server. A.eq server from.now) servers.now ≡ Some i) × (n ≡ i + 1))) }
    ensures none { IfNone result (length servers.now < 2 ^ 32 → position (λ server. A.eq server from.now) servers.now ≡ None) }
{
    let place = place_of(servers, from)?;
    u32::try_from(place + 1).ok()
}

fn place_of<A: PartialEq>(servers: &[A], from: &A) -> Option<usize>
    ensures place { result ≡ position (λ server. A.eq server from.now) servers.now }
    ensures within { IfSome result (λ i. i < length servers.now) }
{
    servers.iter().position(|server| server == from)
}
