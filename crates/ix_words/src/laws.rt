//! Worked examples. Each function's contract is the example; the bodies are empty.
ghost use Rattle.std.specs.Prelude.{◌≡◌, [], ◌∷◌, true, false, Some, String, codes, string_bytes};
ghost use Rattle.std.specs.declared.alloc.Global.{Global};
ghost use Rattle.clap.specs.Words.{fault_of};
ghost use Rattle.clap.specs.Walk.{Row};
ghost use Rattle.clap.specs.declared.error.kind.ErrorKind.TheVariants.{InvalidValue, UnknownArgument};
ghost use Rattle.clap.specs.declared.parser.matches.ArgMatches.{ArgMatches};
ghost use Rattle.ix_model.specs.Answers.CommandLine.{parse, check, sample};
ghost use Rattle.ix_words.specs.Asked.{asked};
ghost use Rattle.ix_words.specs.CommandNames.{names_command};
ghost use Rattle.ix_words.specs.Examples.{HasOperandsAndWorkers, read_by_clap};
ghost use Rattle.ix_words.specs.Given.{given};
ghost use Rattle.ix_words.specs.NameAndParts.{IsRead};
ghost use Rattle.ix_words.specs.ReaderApp.{reader_app};
ghost use Rattle.ix_words.specs.declared.command.Command.TheVariants.{Parse, Check, Sample};

/// A command of the code is the same on the command line.
pub fn commands_are_the_same()
    ensures parse { (g t : String Global) → asked (Parse g t 8) ≡ parse (string_bytes g) (string_bytes t) 8 }
    ensures check { (g : String Global) → asked (Check g) ≡ check (string_bytes g) }
    ensures sample { asked (Sample 1000 8) ≡ sample 1000 8 }
    ensures no_other { ¬ (asked (Sample 1000 8) ≡ sample 8 1000) }
{}

/// The first word names a command, as it is written.
pub fn names_of_commands()
    ensures parse { names_command (codes "parse" ∷ []) ≡ true }
    ensures check { names_command (codes "check" ∷ codes "--help" ∷ []) ≡ true }
    ensures sample { names_command (codes "sample" ∷ []) ≡ true }
    ensures none { names_command [] ≡ false }
    ensures empty { names_command ([] ∷ codes "parse" ∷ []) ≡ false }
    ensures longer { names_command (codes "parses" ∷ []) ≡ false }
    ensures shorter { names_command (codes "chec" ∷ []) ≡ false }
    ensures capital { names_command (codes "Sample" ∷ []) ≡ false }
    ensures help { names_command (codes "--help" ∷ []) ≡ false }
    ensures help_command { names_command (codes "help" ∷ codes "parse" ∷ []) ≡ false }
{}

/// Words are read as the first of them and what stands behind it.
pub fn words_with_their_parts()
    ensures read { IsRead (codes "parse" ∷ codes "g" ∷ codes "--workers=8" ∷ codes "t" ∷ []) (codes "parse") (codes "g" ∷ codes "t" ∷ []) (codes "8" ∷ []) }
    ensures another_order { ¬ (IsRead (codes "parse" ∷ codes "g" ∷ codes "t" ∷ []) (codes "parse") (codes "t" ∷ codes "g" ∷ []) []) }
    ensures another_name { ¬ (IsRead (codes "parse" ∷ codes "g" ∷ codes "t" ∷ []) (codes "check") (codes "g" ∷ codes "t" ∷ []) []) }
    ensures none { ¬ (IsRead [] (codes "parse") [] []) }
{}

/// The texts that a parse gives for an id are those of the row of that id, and none where there is no such row.
pub fn texts_of_an_id()
    ensures first { (m : ArgMatches) (o w : Row) → HasOperandsAndWorkers m o w → given (codes "operand") m ≡ o.values }
    ensures second { (m : ArgMatches) (o w : Row) → HasOperandsAndWorkers m o w → given (codes "workers") m ≡ w.values }
    ensures other { (m : ArgMatches) (o w : Row) → HasOperandsAndWorkers m o w → given (codes "worker") m ≡ [] }
{}

/// What `clap` is asked to read has the three commands, each with its operands and its values of `--workers` in order.
pub fn words_as_clap_reads_them()
    ensures parse { read_by_clap (codes "parse" ∷ codes "g" ∷ codes "--workers=8" ∷ codes "t" ∷ [])
        ≡ Some (codes "parse", (codes "operand", codes "g" ∷ codes "t" ∷ []) ∷ (codes "workers", codes "8" ∷ []) ∷ []) }
    ensures check { read_by_clap (codes "check" ∷ codes "--" ∷ codes "--workers" ∷ []) ≡ Some (codes "check", (codes "operand", codes "--workers" ∷ []) ∷ []) }
    ensures sample { read_by_clap (codes "sample" ∷ codes "--workers" ∷ codes "3" ∷ codes "--workers=2" ∷ [])
        ≡ Some (codes "sample", (codes "workers", codes "3" ∷ codes "2" ∷ []) ∷ []) }
    ensures hyphen { read_by_clap (codes "check" ∷ codes "-" ∷ []) ≡ Some (codes "check", (codes "operand", codes "-" ∷ []) ∷ []) }
{}

/// It has no help, no other option and no option without a value.
pub fn words_that_clap_refuses()
    ensures none { fault_of reader_app (codes "parse" ∷ codes "--workers" ∷ codes "8" ∷ codes "g" ∷ []) ≡ [] }
    ensures help { fault_of reader_app (codes "check" ∷ codes "--help" ∷ []) ≡ UnknownArgument ∷ [] }
    ensures short_help { fault_of reader_app (codes "check" ∷ codes "-h" ∷ []) ≡ UnknownArgument ∷ [] }
    ensures help_first { fault_of reader_app (codes "--help" ∷ []) ≡ UnknownArgument ∷ [] }
    ensures longer { fault_of reader_app (codes "check" ∷ codes "--workers2" ∷ []) ≡ UnknownArgument ∷ [] }
    ensures no_value { fault_of reader_app (codes "check" ∷ codes "--workers" ∷ []) ≡ InvalidValue ∷ [] }
{}
