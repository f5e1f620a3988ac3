//! The number that digits write.
ghost use Rattle.std.specs.Prelude.{◌≡◌};
ghost use Rattle.decimal_text.specs.Numbers.{number_of};

use std::str;

/// The number of 16 bits that decimal digits write; `None` where they are none, or it doesn't fit.
pub fn read_u16(digits: &[u8]) -> Option<u16>
    ensures { result ≡ number_of 16 digits.now }
{
    u16::try_from(read_u64(digits)?).ok()
}

/// The number of 32 bits that decimal digits write; `None` where they are none, or it doesn't fit.
pub fn read_u32(digits: &[u8]) -> Option<u32>
    ensures { result ≡ number_of 32 digits.now }
{
    u32::try_from(read_u64(digits)?).ok()
}

/// The number of 64 bits that decimal digits write; `None` where they are none, or it doesn't fit.
pub fn read_u64(digits: &[u8]) -> Option<u64>
    ensures { result ≡ number_of 64 digits.now }
{
    // `parse` would take a plus
    if digits.starts_with(b"+") {
        return None;
    }
    match str::from_utf8(digits) {
        Ok(text) => text.parse().ok(),
        Err(_) => None,
    }
}
