use std::alloc::AllocError;
use thiserror::Error;

/// What the words ask for.
#[derive(Debug, Drop)]
pub enum Command {
    /// The document of the text under the grammar, made by so many workers, 1 to 64. Grammar and text are names of
    /// files, as they are written.
    Parse {
        grammar: String,
        text: String,
        workers: u32,
    },
    /// Whether what the named file holds is a grammar.
    Check {
        grammar: String,
    },
    /// The figures of a text of `n` lines, 1 to 10,000, made by so many workers, 1 to 64.
    Sample {
        n: u32,
        workers: u32,
    },
}

/// Why words give no command.
#[derive(Clone, Copy, Debug, PartialEq, Eq, Error)]
pub enum WordsFault {
    /// The words have no form.
    #[error("no form")]
    NoForm,
    /// There was no memory to read them.
    #[error("out of memory")]
    Memory,
}

impl From<AllocError> for WordsFault {
    ghost use Rattle.std.specs.Prelude.{◌≡◌};
    ghost use Rattle.ix_words.specs.declared.command.WordsFault.TheVariants.{Memory};

    ghost from_gives = { λ _ fault. fault ≡ Memory };

    fn from(_: AllocError) -> WordsFault {
        WordsFault::Memory
    }
}
