use ix_edge::TextFault;
use ix_marks::Marked;
use ix_model::{Counts, Plan, State, Text};
use std::alloc::AllocError;

/// What comes of a text under a grammar.
#[derive(Drop)]
pub enum Outcome {
    /// The text has a derivation, and what the first one gives is a document.
    Tree {
        plan: Plan,
        marked: Marked,
        state: State,
        counts: Counts,
    },
    /// The text has no derivation. It could be read to this offset, in characters from 0; line and column count from 1.
    Failed {
        offset: u32,
        line: u32,
        column: u32,
        counts: Counts,
    },
}

/// Why nothing comes of a text.
#[derive(Debug, Drop)]
pub enum ParseFault {
    /// There are more than 16,777,216 bytes.
    TooLong,
    /// The bytes are not UTF-8 after so many.
    NotUtf8 { valid: u64 },
    /// The text has a derivation, and what the first one gives is no document.
    Dynamic(DynFault),
    /// There was no memory.
    Memory,
}

/// Why what a derivation gives is no document.
#[derive(Debug, Drop)]
pub enum DynFault {
    /// E01: this attribute stands in no element.
    AttributeAtTop { name: Text },
    /// E02: so many elements and characters stand at the top, where one element alone may stand.
    NotOneElement { elements: u64, chars: u64 },
    /// E03: this name of an element or attribute is no name of XML.
    BadName { name: Text },
    /// E04: an attribute is called `xmlns`.
    Xmlns,
    /// E05: an element has two attributes of this name.
    SameAttribute { name: Text },
    /// E06: the character with this number is no character of XML.
    BadChar { code: u32 },
}

impl From<AllocError> for ParseFault {
    ghost use Rattle.std.specs.Prelude.{◌≡◌};
    ghost use Rattle.ix_engine.specs.declared.outcome.ParseFault.TheVariants.{Memory};

    ghost from_gives = { λ _ fault. fault ≡ Memory };

    fn from(_: AllocError) -> ParseFault {
        ParseFault::Memory
    }
}

impl From<TextFault> for ParseFault {
    ghost use Rattle.std.specs.Prelude.{◌≡◌};
    ghost use Rattle.ix_engine.specs.Faults.{of_text};

    ghost from_gives = { λ fault e. e ≡ of_text fault };

    fn from(fault: TextFault) -> ParseFault {
        match fault {
            TextFault::NotUtf8 { valid } => ParseFault::NotUtf8 { valid },
            TextFault::Memory => ParseFault::Memory,
        }
    }
}
