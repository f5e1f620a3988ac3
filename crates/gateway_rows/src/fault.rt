//! Why a change of the rows is refused.
ghost use Rattle.std.specs.Prelude.{◌≡◌};
ghost use Rattle.gateway_rows.specs.declared.fault.RowsRefusal.TheVariants.{OutOfMemory};

use std::alloc::AllocError;

/// Why a call on the rows was refused. What it leaves is half done.
#[derive(Clone, Copy, Debug, PartialEq, Eq)]
pub enum RowsRefusal {
    /// Memory was refused.
    OutOfMemory,
    /// It would give out a number past the last one.
    NumbersUsedUp,
}

impl From<AllocError> for RowsRefusal {
    ghost from_gives = { λ _ refusal. refusal ≡ OutOfMemory };

    fn from(_refused: AllocError) -> RowsRefusal {
        RowsRefusal::OutOfMemory
    }
}
