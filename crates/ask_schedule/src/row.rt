//! The rows of a schedule, and the numbers that limit them.

use pv_name::Name;

/// The tries after which a gap grows no more: it has then 8,192 looks, 4.4 minutes where a look is 32 ms.
pub const MOST_TRIES: u32 = 9;

/// What comes after the last look that can be counted is due at that look.
pub const LAST_LOOK: u64 = 0xFFFF_FFFF_FFFF_FFFF;

/// What comes after the last lap that can be counted is no lap.
pub const LAST_LAP: u64 = 0xFFFF_FFFF_FFFF_FFFF;

/// A name that is asked for.
#[derive(Drop)]
pub struct ScheduleRow {
    pub(crate) name: Name,
    /// How often it was asked for; 9 where it was more often.
    pub(crate) tries: u32,
    /// The look from which on it is to be asked for.
    pub(crate) due: u64,
}

/// A name that was never asked for, and the host that looks for it.
#[derive(Drop)]
pub struct Newcomer {
    pub(crate) host: u128,
    pub(crate) name: Name,
    /// When its turn comes: of a host there is one name in a lap.
    pub(crate) lap: u64,
}
