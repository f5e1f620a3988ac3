//! Why a replay ends before its script does.
ghost use Rattle.std.specs.Prelude.{◌≡◌};
ghost use Rattle.replay.specs.Replay.{IsStatus, status_of};

use crate::status;
use gateway_calls::{AskFault, Failed, StepFault};
use std::alloc::{AllocError, AllocFailed};
use std::io;
use thiserror::Error;

/// Why a replay ends before its script does.
#[derive(Clone, Copy, Debug, PartialEq, Eq, Error)]
pub enum ReplayFault {
    /// The line of this number, counted from 1, is no line of a script.
    #[error("line {0} is no line of a script")]
    BadLine(u64),
    /// A good line, or what reads the script, can't be performed.
    #[error("{0}")]
    Halted(PlayFault),
}

/// Why a replay can't go on, whatever its script says.
#[derive(Clone, Copy, Debug, PartialEq, Eq, Error)]
pub enum PlayFault {
    /// The script can't be read, or what is printed can't be written.
    #[error("a stream failed")]
    StreamFailed,
    /// Memory was refused outside the gateway's steps.
    #[error("out of memory")]
    OutOfMemory,
    /// The gateway refused a step, and is failed for good.
    #[error("the engine failed")]
    EngineFailed,
}

impl ReplayFault {
    /// The status that the program ends with.
    pub fn status(self) -> u8
        ensures exact { result ≡ status_of self }
        ensures among { IsStatus result }
    {
        match self {
            ReplayFault::BadLine(_) => status::BAD_INPUT,
            ReplayFault::Halted(PlayFault::StreamFailed) => status::STREAM_FAILED,
            ReplayFault::Halted(PlayFault::OutOfMemory | PlayFault::EngineFailed) => status::FAILED,
        }
    }
}

impl From<PlayFault> for ReplayFault {
    ghost use Rattle.std.specs.Prelude.{◌≡◌};
    ghost use Rattle.replay.specs.declared.fault.ReplayFault.TheVariants.{Halted};

    ghost from_gives = { λ fault e. e ≡ Halted fault };

    fn from(fault: PlayFault) -> ReplayFault {
        ReplayFault::Halted(fault)
    }
}

impl From<io::Error> for PlayFault {
    ghost use Rattle.std.specs.Prelude.{◌≡◌};
    ghost use Rattle.std.specs.IoError.{error_kind};
    ghost use Rattle.replay.specs.Replay.{fault_of_stream};

    ghost from_gives = { λ fault e. e ≡ fault_of_stream (error_kind fault) };

    fn from(fault: io::Error) -> PlayFault {
        match fault.kind() {
            io::ErrorKind::OutOfMemory => PlayFault::OutOfMemory,
            _ => PlayFault::StreamFailed,
        }
    }
}

impl From<StepFault> for PlayFault {
    ghost use Rattle.std.specs.Prelude.{◌≡◌};
    ghost use Rattle.replay.specs.declared.fault.PlayFault.TheVariants.{EngineFailed};

    ghost from_gives = { λ _ e. e ≡ EngineFailed };

    fn from(_fault: StepFault) -> PlayFault {
        PlayFault::EngineFailed
    }
}

impl From<Failed> for PlayFault {
    ghost use Rattle.std.specs.Prelude.{◌≡◌};
    ghost use Rattle.replay.specs.declared.fault.PlayFault.TheVariants.{EngineFailed};

    ghost from_gives = { λ _ e. e ≡ EngineFailed };

    fn from(_fault: Failed) -> PlayFault {
        PlayFault::EngineFailed
    }
}

impl From<AskFault> for PlayFault {
    ghost use Rattle.std.specs.Prelude.{◌≡◌};
    ghost use Rattle.replay.specs.Replay.{fault_of_asking};

    ghost from_gives = { λ fault e. e ≡ fault_of_asking fault };

    fn from(fault: AskFault) -> PlayFault {
        match fault {
            AskFault::OutOfMemory => PlayFault::OutOfMemory,
            AskFault::Failed => PlayFault::EngineFailed,
        }
    }
}

impl From<AllocError> for PlayFault {
    ghost use Rattle.std.specs.Prelude.{◌≡◌};
    ghost use Rattle.replay.specs.declared.fault.PlayFault.TheVariants.{OutOfMemory};

    ghost from_gives = { λ _ e. e ≡ OutOfMemory };

    fn from(_fault: AllocError) -> PlayFault {
        PlayFault::OutOfMemory
    }
}

impl<T: Drop> From<AllocFailed<T>> for PlayFault {
    ghost use Rattle.std.specs.Prelude.{◌≡◌};
    ghost use Rattle.replay.specs.declared.fault.PlayFault.TheVariants.{OutOfMemory};

    ghost from_gives = { λ _ e. e ≡ OutOfMemory };

    fn from(_fault: AllocFailed<T>) -> PlayFault {
        PlayFault::OutOfMemory
    }
}
