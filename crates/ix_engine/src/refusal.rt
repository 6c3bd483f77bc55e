use ix_edge::TextFault;
use ix_errors::Breach;
use ix_model::Text;
use ix_reader::ReadFault;

/// Why bytes are no grammar.
#[derive(Debug, Drop)]
pub enum Refusal {
    /// G08: there are more than 1,048,576 bytes.
    FileTooLong,
    /// The bytes are not UTF-8 after so many.
    NotUtf8 { valid: u64 },
    /// G01: the characters are no grammar of Invisible XML 1.0.
    NotIxml,
    /// G09: more than 100 parentheses are open at once.
    TooDeep,
    /// G02: the grammar is of this version, which is not `1.0`.
    Version(Text),
    /// G03: no character has the number with these digits, as they are written.
    CodePoint(Text),
    /// G04: the first character of a range has a greater number than the second.
    Range { low: u32, high: u32 },
    /// G05: there is no class of this name.
    Class(Text),
    /// G06: this name is called, and no rule has it.
    Undefined(Text),
    /// G07: a rule has this name, and an earlier rule has it too.
    Duplicate(Text),
    /// There was no memory.
    Memory,
}

impl From<TextFault> for Refusal {
    ghost use Rattle.std.specs.Prelude.{◌≡◌};
    ghost use Rattle.ix_engine.specs.Refusals.{of_text};

    ghost from_gives = { λ fault refusal. refusal ≡ of_text fault };

    fn from(fault: TextFault) -> Refusal {
        match fault {
            TextFault::NotUtf8 { valid } => Refusal::NotUtf8 { valid },
            TextFault::Memory => Refusal::Memory,
        }
    }
}

impl From<ReadFault> for Refusal {
    ghost use Rattle.std.specs.Prelude.{◌≡◌};
    ghost use Rattle.ix_engine.specs.Refusals.{of_reader};

    ghost from_gives = { λ fault refusal. refusal ≡ of_reader fault };

    fn from(fault: ReadFault) -> Refusal {
        match fault {
            ReadFault::NotIxml => Refusal::NotIxml,
            ReadFault::TooDeep => Refusal::TooDeep,
            ReadFault::Memory => Refusal::Memory,
        }
    }
}

impl From<Breach> for Refusal {
    ghost use Rattle.std.specs.Prelude.{◌≡◌};
    ghost use Rattle.ix_engine.specs.Refusals.{of_breach};

    ghost from_gives = { λ breach refusal. refusal ≡ of_breach breach };

    fn from(breach: Breach) -> Refusal {
        match breach {
            Breach::Version(text) => Refusal::Version(text),
            Breach::CodePoint(digits) => Refusal::CodePoint(digits),
            Breach::Range { low, high } => Refusal::Range { low, high },
            Breach::Class(name) => Refusal::Class(name),
            Breach::Undefined(name) => Refusal::Undefined(name),
            Breach::Duplicate(name) => Refusal::Duplicate(name),
            Breach::Memory => Refusal::Memory,
        }
    }
}
