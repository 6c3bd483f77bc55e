ghost use Rattle.std.specs.Prelude.{◌≡◌};
ghost use Rattle.ix_cli.specs.Lines.{fault_status as status_of_fault, refusal_status as status_of_refusal, status_of};

use ix_engine::{ParseFault, Refusal};
use ix_words::WordsFault;
use std::alloc::AllocError;

/// What is answered in place of a document.
#[derive(Debug, Drop)]
pub enum Answer {
    /// The words have no form.
    Words,
    /// The bytes are no grammar that conforms.
    Grammar(Refusal),
    /// The text can't be looked at, or what its first derivation gives is no document.
    Text(ParseFault),
    /// The file of this name could not be read.
    Read(String),
    /// The output could not be written.
    Write,
    /// Memory ran out.
    Memory,
}

impl Answer {
    /// The exit status.
    pub fn status(&self) -> u8
        ensures { result ≡ status_of self.now }
    {
        match self {
            Answer::Words => 2,
            Answer::Grammar(refusal) => refusal_status(refusal),
            Answer::Text(fault) => fault_status(fault),
            Answer::Read(_) => 7,
            Answer::Write => 8,
            Answer::Memory => 9,
        }
    }
}

impl From<AllocError> for Answer {
    ghost use Rattle.std.specs.Prelude.{◌≡◌};
    ghost use Rattle.ix_cli.specs.declared.answer.Answer.TheVariants.{Memory};

    ghost from_gives = { λ _ answer. answer ≡ Memory };

    fn from(_: AllocError) -> Answer {
        Answer::Memory
    }
}

impl From<WordsFault> for Answer {
    ghost use Rattle.std.specs.Prelude.{◌≡◌};
    ghost use Rattle.ix_cli.specs.Means.{of_words};

    ghost from_gives = { λ fault answer. answer ≡ of_words fault };

    fn from(fault: WordsFault) -> Answer {
        match fault {
            WordsFault::NoForm => Answer::Words,
            WordsFault::Memory => Answer::Memory,
        }
    }
}

impl From<Refusal> for Answer {
    ghost use Rattle.std.specs.Prelude.{◌≡◌};
    ghost use Rattle.ix_cli.specs.Means.{of_refusal};

    ghost from_gives = { λ refusal answer. answer ≡ of_refusal refusal };

    fn from(refusal: Refusal) -> Answer {
        match refusal {
            Refusal::Memory => Answer::Memory,
            other => Answer::Grammar(other),
        }
    }
}

impl From<ParseFault> for Answer {
    ghost use Rattle.std.specs.Prelude.{◌≡◌};
    ghost use Rattle.ix_cli.specs.Means.{of_fault};

    ghost from_gives = { λ fault answer. answer ≡ of_fault fault };

    fn from(fault: ParseFault) -> Answer {
        match fault {
            ParseFault::Memory => Answer::Memory,
            other => Answer::Text(other),
        }
    }
}

fn refusal_status(refusal: &Refusal) -> u8
    ensures { result ≡ status_of_refusal refusal.now }
{
    match refusal {
        Refusal::NotUtf8 { valid: _ } => 5,
        Refusal::Memory => 9,
        _ => 3,
    }
}

fn fault_status(fault: &ParseFault) -> u8
    ensures { result ≡ status_of_fault fault.now }
{
    match fault {
        ParseFault::TooLong => 6,
        ParseFault::NotUtf8 { valid: _ } => 5,
        ParseFault::Dynamic(_) => 4,
        ParseFault::Memory => 9,
    }
}
