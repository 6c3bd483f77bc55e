ghost use Rattle.std.specs.Prelude.{◌≡◌};
ghost use Rattle.ix_errors.specs.declared.breach.Breach.TheVariants.{Memory};

use ix_model::Text;
use std::alloc::{AllocError, AllocFailed};

/// Why a grammar does not conform: its least code, and the first item in the grammar's order that the code names.
#[derive(Debug, Drop)]
pub enum Breach {
    /// G02: the version is not `1.0`.
    Version(Text),
    /// G03: no character has the number with these hexadecimal digits, which stand as they are written.
    CodePoint(Text),
    /// G04: the first character of a range has a greater number than the second.
    Range { low: u32, high: u32 },
    /// G05: no class has this code.
    Class(Text),
    /// G06: a name is called that no rule has.
    Undefined(Text),
    /// G07: a rule has the name of an earlier rule.
    Duplicate(Text),
    /// There was no memory.
    Memory,
}

impl From<AllocError> for Breach {
    ghost from_gives = { λ _ breach. breach ≡ Memory };

    fn from(_error: AllocError) -> Breach {
        Breach::Memory
    }
}

impl<T: Drop> From<AllocFailed<T>> for Breach {
    ghost from_gives = { λ _ breach. breach ≡ Memory };

    fn from(_error: AllocFailed<T>) -> Breach {
        Breach::Memory
    }
}
