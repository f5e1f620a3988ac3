//! Why the gateway doesn't begin to serve.
use rule_desk::DeskFault;
use std::alloc::AllocError;
use std::io;

/// Why the gateway doesn't begin to serve.
#[derive(Drop)]
pub enum ServeFault {
    /// The rule files are refused: the line that says so was printed.
    Refused(DeskFault),
    /// The file at this path can't be read.
    File(String, io::Error),
    /// The address can't be opened.
    Listen(io::Error),
    /// The address on which it would tell of itself can't be opened.
    Reports(io::Error),
    /// Standard output can't be written.
    Output,
    OutOfMemory,
}

impl From<AllocError> for ServeFault {
    ghost use Rattle.std.specs.Prelude.{◌≡◌};
    ghost use Rattle.serve.specs.declared.fault.ServeFault.TheVariants.{OutOfMemory};

    ghost from_gives = { λ _ fault. fault ≡ OutOfMemory };

    fn from(_e: AllocError) -> ServeFault {
        ServeFault::OutOfMemory
    }
}
