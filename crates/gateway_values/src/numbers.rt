//! Numbers that were given out.
ghost use Rattle.std.specs.Prelude.{◌≡◌};
ghost use Rattle.gateway_state.specs.Aged.{is_older};

/// Whether a number that a row has was given out before its counter stood at `before`, where it stands at `next`.
/// The counter may have gone on at the first number since.
pub fn is_older(before: u32, next: u32, number: u32) -> bool
    ensures { result ≡ is_older before next number }
{
    if before <= next {
        number < before || next <= number
    } else {
        next <= number && number < before
    }
}
