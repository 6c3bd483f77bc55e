ghost use Rattle.std.specs.Prelude.{◌≡◌, ℕ, List, [], ◌∷◌, codes};
ghost use Rattle.ix_model.specs.Answers.CommandLine.{parse, check, sample, Reads, IsCommand, HasNoForm};

/// The three commands; two workers where none are named.
pub fn plain_commands()
    ensures parse { IsCommand (codes "parse" ∷ codes "g" ∷ codes "t" ∷ []) (parse (codes "g") (codes "t") 2) }
    ensures no_other { ¬ (IsCommand (codes "parse" ∷ codes "g" ∷ codes "t" ∷ []) (parse (codes "t") (codes "g") 2)) }
    ensures check { IsCommand (codes "check" ∷ codes "g" ∷ []) (check (codes "g")) }
    ensures sample { IsCommand (codes "sample" ∷ codes "01000" ∷ []) (sample 1000 2) }
    ensures standard_input { IsCommand (codes "parse" ∷ codes "-" ∷ [] ∷ []) (parse (codes "-") [] 2) }
{}

/// Workers are named anywhere before `--`, in one word or two.
pub fn named_workers()
    ensures joined { IsCommand (codes "parse" ∷ codes "g" ∷ codes "t" ∷ codes "--workers=8" ∷ []) (parse (codes "g") (codes "t") 8) }
    ensures apart { IsCommand (codes "parse" ∷ codes "--workers" ∷ codes "008" ∷ codes "g" ∷ codes "t" ∷ []) (parse (codes "g") (codes "t") 8) }
    ensures most { IsCommand (codes "sample" ∷ codes "--workers" ∷ codes "64" ∷ codes "1" ∷ []) (sample 1 64) }
    ensures none { HasNoForm (codes "parse" ∷ codes "g" ∷ codes "t" ∷ codes "--workers" ∷ codes "0" ∷ []) }
    ensures too_many { HasNoForm (codes "parse" ∷ codes "g" ∷ codes "t" ∷ codes "--workers" ∷ codes "65" ∷ []) }
    ensures sign { HasNoForm (codes "parse" ∷ codes "g" ∷ codes "t" ∷ codes "--workers" ∷ codes "+5" ∷ []) }
    ensures four_digits { HasNoForm (codes "parse" ∷ codes "g" ∷ codes "t" ∷ codes "--workers=0008" ∷ []) }
    ensures empty { HasNoForm (codes "parse" ∷ codes "g" ∷ codes "t" ∷ codes "--workers=" ∷ []) }
    ensures no_value { HasNoForm (codes "parse" ∷ codes "g" ∷ codes "t" ∷ codes "--workers" ∷ []) }
    ensures twice { HasNoForm (codes "parse" ∷ codes "--workers=8" ∷ codes "--workers=8" ∷ codes "g" ∷ codes "t" ∷ []) }
    ensures for_check { HasNoForm (codes "check" ∷ codes "g" ∷ codes "--workers" ∷ codes "2" ∷ []) }
{}

/// All words behind the first `--` that is no value are operands.
pub fn end_of_options()
    ensures before_last { IsCommand (codes "parse" ∷ codes "g" ∷ codes "--" ∷ codes "t" ∷ []) (parse (codes "g") (codes "t") 2) }
    ensures options_as_names { IsCommand (codes "parse" ∷ codes "--" ∷ codes "--workers" ∷ codes "--" ∷ []) (parse (codes "--workers") (codes "--") 2) }
    ensures as_value { Reads (codes "--workers" ∷ codes "--" ∷ codes "g" ∷ []) (codes "g" ∷ []) (codes "--" ∷ []) }
    ensures no_number { HasNoForm (codes "check" ∷ codes "--workers" ∷ codes "--" ∷ codes "g" ∷ []) }
{}

/// Words without a form.
pub fn other_words()
    ensures none { HasNoForm [] }
    ensures one_operand { HasNoForm (codes "parse" ∷ codes "g" ∷ []) }
    ensures three_operands { HasNoForm (codes "parse" ∷ codes "g" ∷ codes "t" ∷ codes "u" ∷ []) }
    ensures two_grammars { HasNoForm (codes "check" ∷ codes "g" ∷ codes "h" ∷ []) }
    ensures sample_of_none { HasNoForm (codes "sample" ∷ codes "0" ∷ []) }
    ensures sample_too_large { HasNoForm (codes "sample" ∷ codes "10001" ∷ []) }
    ensures help { HasNoForm (codes "--help" ∷ []) }
    ensures unknown_option { HasNoForm (codes "check" ∷ codes "-g" ∷ []) }
    ensures longer_option { HasNoForm (codes "check" ∷ codes "--workers2" ∷ codes "g" ∷ []) }
    ensures unknown_command { HasNoForm (codes "print" ∷ codes "g" ∷ []) }
{}

/// The number of lines of a sample has one to five digits, leading zeros among them, and is from 1 to 10,000.
pub fn numbers_of_lines()
    ensures least { IsCommand (codes "sample" ∷ codes "1" ∷ []) (sample 1 2) }
    ensures zeros { IsCommand (codes "sample" ∷ codes "00001" ∷ []) (sample 1 2) }
    ensures most { IsCommand (codes "sample" ∷ codes "10000" ∷ []) (sample 10000 2) }
    ensures below_most { IsCommand (codes "sample" ∷ codes "09999" ∷ []) (sample 9999 2) }
    ensures none { HasNoForm (codes "sample" ∷ codes "0" ∷ []) }
    ensures zeros_alone { HasNoForm (codes "sample" ∷ codes "00000" ∷ []) }
    ensures too_many { HasNoForm (codes "sample" ∷ codes "10001" ∷ []) }
    ensures six_digits { HasNoForm (codes "sample" ∷ codes "000001" ∷ []) }
    ensures six_for_most { HasNoForm (codes "sample" ∷ codes "010000" ∷ []) }
    ensures empty { HasNoForm (codes "sample" ∷ [] ∷ []) }
    ensures sign { HasNoForm (codes "sample" ∷ codes "+1" ∷ []) }
    ensures hexadecimal { HasNoForm (codes "sample" ∷ codes "a" ∷ []) }
    ensures slash { HasNoForm (codes "sample" ∷ codes "1/" ∷ []) }
    ensures colon { HasNoForm (codes "sample" ∷ codes "1:" ∷ []) }
    ensures space { HasNoForm (codes "sample" ∷ codes " 1" ∷ []) }
    ensures two { HasNoForm (codes "sample" ∷ codes "1" ∷ codes "2" ∷ []) }
    ensures without { HasNoForm (codes "sample" ∷ []) }
{}

/// The number of workers has one to three digits, leading zeros among them, and is from 1 to 64.
pub fn numbers_of_workers()
    ensures least { IsCommand (codes "parse" ∷ codes "g" ∷ codes "t" ∷ codes "--workers=1" ∷ []) (parse (codes "g") (codes "t") 1) }
    ensures most { IsCommand (codes "parse" ∷ codes "g" ∷ codes "t" ∷ codes "--workers=64" ∷ []) (parse (codes "g") (codes "t") 64) }
    ensures three_digits { IsCommand (codes "parse" ∷ codes "g" ∷ codes "t" ∷ codes "--workers" ∷ codes "064" ∷ []) (parse (codes "g") (codes "t") 64) }
    ensures zeros { IsCommand (codes "parse" ∷ codes "g" ∷ codes "t" ∷ codes "--workers" ∷ codes "001" ∷ []) (parse (codes "g") (codes "t") 1) }
    ensures for_sample { IsCommand (codes "sample" ∷ codes "7" ∷ codes "--workers=3" ∷ []) (sample 7 3) }
    ensures before_operand { IsCommand (codes "sample" ∷ codes "--workers" ∷ codes "3" ∷ codes "7" ∷ []) (sample 7 3) }
    ensures none { HasNoForm (codes "parse" ∷ codes "g" ∷ codes "t" ∷ codes "--workers=0" ∷ []) }
    ensures zeros_alone { HasNoForm (codes "parse" ∷ codes "g" ∷ codes "t" ∷ codes "--workers=000" ∷ []) }
    ensures too_many { HasNoForm (codes "parse" ∷ codes "g" ∷ codes "t" ∷ codes "--workers=65" ∷ []) }
    ensures four_digits { HasNoForm (codes "parse" ∷ codes "g" ∷ codes "t" ∷ codes "--workers=0064" ∷ []) }
    ensures four_zeros { HasNoForm (codes "parse" ∷ codes "g" ∷ codes "t" ∷ codes "--workers" ∷ codes "0001" ∷ []) }
    ensures slash { HasNoForm (codes "parse" ∷ codes "g" ∷ codes "t" ∷ codes "--workers" ∷ codes "/" ∷ []) }
    ensures colon { HasNoForm (codes "parse" ∷ codes "g" ∷ codes "t" ∷ codes "--workers" ∷ codes "1:" ∷ []) }
    ensures none_for_sample { HasNoForm (codes "sample" ∷ codes "7" ∷ codes "--workers=0" ∷ []) }
    ensures too_many_for_sample { HasNoForm (codes "sample" ∷ codes "7" ∷ codes "--workers" ∷ codes "65" ∷ []) }
    ensures four_for_sample { HasNoForm (codes "sample" ∷ codes "7" ∷ codes "--workers" ∷ codes "0003" ∷ []) }
{}

/// Two values of workers have no form, whatever they are and however they are written.
pub fn repeated_workers()
    ensures apart { HasNoForm (codes "parse" ∷ codes "--workers" ∷ codes "2" ∷ codes "g" ∷ codes "t" ∷ codes "--workers" ∷ codes "2" ∷ []) }
    ensures mixed { HasNoForm (codes "parse" ∷ codes "--workers=2" ∷ codes "g" ∷ codes "t" ∷ codes "--workers" ∷ codes "3" ∷ []) }
    ensures other_way { HasNoForm (codes "parse" ∷ codes "--workers" ∷ codes "2" ∷ codes "--workers=3" ∷ codes "g" ∷ codes "t" ∷ []) }
    ensures for_sample { HasNoForm (codes "sample" ∷ codes "7" ∷ codes "--workers=2" ∷ codes "--workers=2" ∷ []) }
    ensures second_is_value { IsCommand (codes "parse" ∷ codes "--" ∷ codes "--workers=2" ∷ codes "--workers=2" ∷ []) (parse (codes "--workers=2") (codes "--workers=2") 2) }
{}

/// Before the end of options a hyphen alone is an operand, and no other word that begins with one.
pub fn hyphens()
    ensures two_stops { IsCommand (codes "check" ∷ codes "--" ∷ codes "--" ∷ []) (check (codes "--")) }
    ensures joined_behind { IsCommand (codes "check" ∷ codes "--" ∷ codes "--workers=2" ∷ []) (check (codes "--workers=2")) }
    ensures hyphen_behind { IsCommand (codes "check" ∷ codes "--" ∷ codes "-g" ∷ []) (check (codes "-g")) }
    ensures hyphen { IsCommand (codes "check" ∷ codes "-" ∷ []) (check (codes "-")) }
    ensures empty { IsCommand (codes "check" ∷ [] ∷ []) (check []) }
    ensures hyphen_within { IsCommand (codes "check" ∷ codes "g-" ∷ []) (check (codes "g-")) }
    ensures one_hyphen { HasNoForm (codes "check" ∷ codes "-w" ∷ []) }
    ensures three_hyphens { HasNoForm (codes "check" ∷ codes "---" ∷ []) }
    ensures shorter { HasNoForm (codes "check" ∷ codes "--worker" ∷ codes "2" ∷ codes "g" ∷ []) }
    ensures no_equals { HasNoForm (codes "parse" ∷ codes "g" ∷ codes "t" ∷ codes "--workers2" ∷ []) }
    ensures joined_for_check { HasNoForm (codes "check" ∷ codes "g" ∷ codes "--workers=2" ∷ []) }
    ensures operand_behind { HasNoForm (codes "check" ∷ codes "g" ∷ codes "--" ∷ codes "h" ∷ []) }
    ensures third_behind { HasNoForm (codes "parse" ∷ codes "g" ∷ codes "t" ∷ codes "--" ∷ codes "u" ∷ []) }
{}

/// The first word is the command, as it is written.
pub fn first_words()
    ensures capital { HasNoForm (codes "Parse" ∷ codes "g" ∷ codes "t" ∷ []) }
    ensures longer { HasNoForm (codes "checks" ∷ codes "g" ∷ []) }
    ensures shorter { HasNoForm (codes "chec" ∷ codes "g" ∷ []) }
    ensures empty { HasNoForm ([] ∷ codes "g" ∷ []) }
    ensures options_first { HasNoForm (codes "--workers=2" ∷ codes "parse" ∷ codes "g" ∷ codes "t" ∷ []) }
    ensures stop_first { HasNoForm (codes "--" ∷ codes "check" ∷ codes "g" ∷ []) }
    ensures no_operand { HasNoForm (codes "parse" ∷ []) }
    ensures no_grammar { HasNoForm (codes "check" ∷ []) }
    ensures help_behind { HasNoForm (codes "check" ∷ codes "--help" ∷ []) }
{}
