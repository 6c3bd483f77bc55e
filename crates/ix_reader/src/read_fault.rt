//! Why characters could not be read as a grammar.

ghost use Rattle.std.specs.Prelude.{◌≡◌};
ghost use Rattle.ix_reader.specs.declared.read_fault.ReadFault.TheVariants.{Memory};

use std::alloc::{AllocError, AllocFailed};
use thiserror::Error;

/// Why there is no grammar.
#[derive(Clone, Copy, Debug, PartialEq, Eq, Error)]
pub enum ReadFault {
    /// The characters spell no grammar.
    #[error("not a grammar")]
    NotIxml,
    /// They spell a grammar in which more than 100 parentheses are open at once.
    #[error("more than 100 parentheses are open at once")]
    TooDeep,
    /// Memory ran out.
    #[error("out of memory")]
    Memory,
}

impl From<AllocError> for ReadFault {
    ghost from_gives = { λ _ e. e ≡ Memory };

    fn from(_e: AllocError) -> ReadFault {
        ReadFault::Memory
    }
}

impl<T: Drop> From<AllocFailed<T>> for ReadFault {
    ghost from_gives = { λ _ e. e ≡ Memory };

    fn from(_e: AllocFailed<T>) -> ReadFault {
        ReadFault::Memory
    }
}
