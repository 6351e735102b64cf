//! Why one line of a script isn't taken.
ghost use Rattle.std.specs.Prelude.{◌≡◌};

use crate::Why;
use nm_types::Memory;

/// Why a line isn't taken.
#[derive(Clone, Copy)]
pub(crate) enum LineFault {
    /// It is bad.
    Bad(Why),
    /// An allocation failed.
    Memory,
}

impl From<Why> for LineFault {
    ghost use Rattle.nm_script.specs.declared.fault.LineFault.TheVariants.{Bad};

    ghost from_gives = { λ why fault. fault ≡ Bad why };

    fn from(why: Why) -> Self {
        LineFault::Bad(why)
    }
}

impl From<Memory> for LineFault {
    ghost use Rattle.nm_script.specs.declared.fault.LineFault.TheVariants.{Memory as OutOfMemory};

    ghost from_gives = { λ _ fault. fault ≡ OutOfMemory };

    fn from(_: Memory) -> Self {
        LineFault::Memory
    }
}
