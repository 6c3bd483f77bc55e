//! Laws of the definitions that the command's contract speaks of. Each function's contract is the law; the bodies are
//! empty.
ghost use Rattle.std.specs.Prelude.{◌≡◌, ℕ, List, [], ◌∷◌, Some, None, Ok, Err, String, Vec, IsUtf8, codes, length, string_bytes};
ghost use Rattle.std.specs.declared.alloc.Global.{Global};
ghost use Rattle.ix_model.specs.declared.counts.Counts.{Counts};
ghost use Rattle.ix_model.specs.declared.grammar.Grammar.{Grammar};
ghost use Rattle.ix_model.specs.declared.state.State.{State};
ghost use Rattle.ix_model.specs.declared.state.State.TheVariants.{Single, Ambiguous};
ghost use Rattle.ix_model.specs.Answers.CommandLine.{parse, check, sample};
ghost use Rattle.ix_model.specs.Answers.Outcome.{Outcome, no_form, no_grammar, conforms, text_too_long, text_not_utf8, failed, refused, document, summarised, message_of};
ghost use Rattle.ix_model.specs.Documents.Dyn.{attribute_xmlns};
ghost use Rattle.ix_model.specs.Documents.Gives.{Givens};
ghost use Rattle.ix_edge.specs.Told.{Told};
ghost use Rattle.ix_engine.specs.declared.outcome.ParseFault.TheVariants as fault;
ghost use Rattle.ix_engine.specs.declared.refusal.Refusal.{Refusal};
ghost use Rattle.ix_engine.specs.declared.refusal.Refusal.TheVariants as refusal;
ghost use Rattle.ix_examples.specs.SmallAnswers.{check_g, parse_g_t, one_way, both_ways};
ghost use Rattle.ix_examples.specs.SmallGivens.{text_of, document as element_with};
ghost use Rattle.ix_examples.specs.SmallGrammars.{only_a};
ghost use Rattle.ix_sample_laws.specs.SampleRules.{sample_rules};
ghost use Rattle.ix_words.specs.declared.command.WordsFault.TheVariants as words;
ghost use Rattle.ix_cli.specs.declared.answer.Answer.TheVariants as answer;
ghost use Rattle.ix_cli.specs.declared.output.Content.TheVariants as content;
ghost use Rattle.ix_cli.specs.declared.output.Output.{Output};
ghost use Rattle.ix_cli.specs.declared.task.Prepared.TheVariants as prepared;
ghost use Rattle.ix_cli.specs.declared.task.Task.{Task};
ghost use Rattle.ix_cli.specs.declared.task.Wanted.TheVariants as wanted;
ghost use Rattle.ix_cli.specs.Answered.{IsAnswered, IsCutOff, IsMessage};
ghost use Rattle.ix_cli.specs.Causes.{Parses, IsChecked, IsCaused};
ghost use Rattle.ix_cli.specs.Contents.{HasBytes, IsWritable};
ghost use Rattle.ix_cli.specs.Delivered.{IsDelivered};
ghost use Rattle.ix_cli.specs.Examples.{sample_1, holding, without_text, raised, no_count, outside, none_told, a_content, unnamed_content, bare_content};
ghost use Rattle.ix_cli.specs.Laws.{ReplyIsOne, ReplyIsCaused};
ghost use Rattle.ix_cli.specs.Lines.{read_line, memory_line, write_line};
ghost use Rattle.ix_cli.specs.Loaded.{Holds, IsLoadFault, IsGrammarFault};
ghost use Rattle.ix_cli.specs.Means.{of_words, of_refusal, of_fault};
ghost use Rattle.ix_cli.specs.Named.{HasCommand, ReadsGrammar, ReadsText, Names};
ghost use Rattle.ix_cli.specs.Prepared.{IsPreparedFor, IsReady, IsReadied};
ghost use Rattle.ix_cli.specs.Refused.{IsRefusedFor, IsRefused};
ghost use Rattle.ix_cli.specs.Replied.{IsReplied};
ghost use Rattle.ix_cli.specs.Runs.{IsRun};
ghost use Rattle.ix_cli.specs.Sampled.{IsSampled};
ghost use Rattle.ix_cli.specs.Says.{Says};
ghost use Rattle.ix_cli.specs.Shown.{Shows, ShowsFigures, ShowsWanted, ShowsCommand, ShowsReply};
ghost use Rattle.ix_cli.specs.Table.{IsReply};
ghost use Rattle.ix_cli.specs.Unread.{IsNext, IsUnread};
ghost use Rattle.ix_cli.specs.Written.{IsWritten};

/// The table has at most one answer for the words and the files.
pub fn reply_is_one()
    ensures { ReplyIsOne }
{}

/// The status of what the table has for the words and the files is one from 0 to 6 exactly where its cause holds.
pub fn reply_is_caused()
    ensures { ReplyIsCaused }
{}

/// Words have a command or none.
pub fn words_with_a_command()
    ensures parse { HasCommand parse_g_t }
    ensures check { HasCommand check_g }
    ensures sample { HasCommand sample_1 }
    ensures no_words { ¬ (HasCommand []) }
    ensures one_name { ¬ (HasCommand (codes "parse" ∷ codes "g" ∷ [])) }
{}

/// `parse` reads a grammar and a text, `check` a grammar alone, and `sample` nothing.
pub fn files_that_commands_read()
    ensures grammar { ReadsGrammar (parse (codes "g") (codes "t") 2) (codes "g") }
    ensures not_text { ¬ (ReadsGrammar (parse (codes "g") (codes "t") 2) (codes "t")) }
    ensures checked { ReadsGrammar (check (codes "g")) (codes "g") }
    ensures not_checked { ¬ (ReadsGrammar (check (codes "g")) (codes "t")) }
    ensures no_grammar { (name : List ℕ) → ¬ (ReadsGrammar (sample 1 2) name) }
    ensures text { ReadsText (parse (codes "g") (codes "t") 2) (codes "t") }
    ensures not_grammar { ¬ (ReadsText (parse (codes "g") (codes "t") 2) (codes "g")) }
    ensures no_checked_text { (name : List ℕ) → ¬ (ReadsText (check (codes "g")) name) }
    ensures no_text { (name : List ℕ) → ¬ (ReadsText (sample 1 2) name) }
{}

/// Words name the files that their command reads, and no others.
pub fn files_that_words_name()
    ensures grammar { Names parse_g_t (codes "g") }
    ensures text { Names parse_g_t (codes "t") }
    ensures other { ¬ (Names parse_g_t (codes "x")) }
    ensures first_word { ¬ (Names parse_g_t (codes "parse")) }
    ensures checked { Names check_g (codes "g") }
    ensures not_checked { ¬ (Names check_g (codes "t")) }
    ensures sample { (name : List ℕ) → ¬ (Names sample_1 name) }
    ensures no_words { (name : List ℕ) → ¬ (Names [] name) }
{}

/// `parse` parses the text that the files hold under the grammar that they hold, `sample` its own text under its own
/// grammar, and `check` nothing.
pub fn texts_that_are_parsed()
    ensures parsed { Parses (holding one_way (codes "a")) (parse (codes "g") (codes "t") 2) only_a (codes "a") }
    ensures other_text { ¬ (Parses (holding one_way (codes "a")) (parse (codes "g") (codes "t") 2) only_a (codes "ab")) }
    ensures other_grammar { ¬ (Parses (holding one_way (codes "a")) (parse (codes "g") (codes "t") 2) sample_rules (codes "a")) }
    ensures no_text { (s : List ℕ) → ¬ (Parses (without_text one_way) (parse (codes "g") (codes "t") 2) only_a s) }
    ensures checked { (g : Grammar) (s : List ℕ) → ¬ (Parses (holding one_way (codes "a")) (check (codes "g")) g s) }
    ensures sample { Parses (without_text []) (sample 1 2) sample_rules (codes "1:ab\n") }
    ensures other_number { ¬ (Parses (without_text []) (sample 2 2) sample_rules (codes "1:ab\n")) }
    ensures not_held { (s : List ℕ) → ¬ (Parses (holding one_way (codes "a")) (sample 1 2) only_a s) }
{}

/// `S: "a".` has the document `<S>a</S>` for `a`, a failed document for `ab` and none for bytes that are not UTF-8.
/// `S: "a"; "a".` has a document for `a` that says that it is ambiguous.
pub fn texts_under_a_grammar()
    ensures single { IsReply parse_g_t (holding one_way (codes "a")) (document (element_with (text_of (codes "a"))) Single) }
    ensures not_ambiguous { ¬ (IsReply parse_g_t (holding one_way (codes "a")) (document (element_with (text_of (codes "a"))) Ambiguous)) }
    ensures ambiguous { IsReply parse_g_t (holding both_ways (codes "a")) (document (element_with (text_of (codes "a"))) Ambiguous) }
    ensures failed { IsReply parse_g_t (holding one_way (codes "ab")) (failed 1 1 2) }
    ensures not_earlier { ¬ (IsReply parse_g_t (holding one_way (codes "ab")) (failed 0 1 1)) }
    ensures not_utf8 { IsReply parse_g_t (holding one_way (97 ∷ 195 ∷ [])) (text_not_utf8 1) }
{}

/// An empty file is no grammar, whether there is a text or not. Where the files lack the text of a grammar, the table has
/// no answer. Words without a form have one answer, whatever the files hold.
pub fn words_and_grammars()
    ensures no_grammar { IsReply parse_g_t (holding [] (codes "a")) no_grammar }
    ensures before_text { IsReply parse_g_t (without_text []) no_grammar }
    ensures no_text { (o : Outcome) → ¬ (IsReply parse_g_t (without_text one_way) o) }
    ensures no_words { IsReply [] (holding one_way (codes "ab")) no_form }
    ensures not_answered { ¬ (IsReply [] (holding one_way (codes "ab")) (failed 1 1 2)) }
    ensures has_words { ¬ (IsReply parse_g_t (holding one_way (codes "ab")) no_form) }
{}

/// A check answers of the grammar alone: whether it is one, whatever the text is.
pub fn grammars_that_are_checked()
    ensures conforms { IsReply check_g (holding one_way (97 ∷ 195 ∷ [])) conforms }
    ensures without_text { IsReply check_g (without_text one_way) conforms }
    ensures no_grammar { IsReply check_g (without_text []) no_grammar }
    ensures not_conforming { ¬ (IsReply check_g (holding [] []) conforms) }
    ensures not_parsed { ¬ (IsReply check_g (holding one_way (codes "ab")) (failed 1 1 2)) }
    ensures parse { ¬ (IsReply parse_g_t (holding one_way (codes "a")) conforms) }
    ensures checked { IsChecked check_g (holding one_way []) }
    ensures not_checked { ¬ (IsChecked check_g (holding [] [])) }
    ensures by_parse { ¬ (IsChecked parse_g_t (holding one_way (codes "a"))) }
{}

/// A sample looks at no file, and answers by its figures: its text is the one of its number.
pub fn samples_that_are_measured()
    ensures no_document { (files : Told) (gs : Givens) (state : State) → ¬ (IsReply sample_1 files (document gs state)) }
    ensures other_text { (files : Told) (counts : Counts) (output : ℕ) → ¬ (IsReply sample_1 files (summarised 6 counts output)) }
    ensures conforms { (files : Told) → ¬ (IsReply sample_1 files conforms) }
    ensures no_grammar { ¬ (IsReply sample_1 (holding [] []) no_grammar) }
{}

/// A sample ends with its figures, or memory runs out.
pub fn results_of_a_sample()
    ensures figures { (v : Vec ℕ Global) → IsSampled (Ok (record { status = 0; content = content.Bytes v })) }
    ensures not_failed { (v : Vec ℕ Global) → ¬ (IsSampled (Ok (record { status = 1; content = content.Bytes v }))) }
    ensures memory { IsSampled (Err answer.Memory) }
    ensures no_words { ¬ (IsSampled (Err answer.Words)) }
    ensures not_refused { (r : Refusal) → ¬ (IsSampled (Err (answer.Grammar r))) }
{}

/// Each status has its cause, and the cause no other status.
pub fn statuses_with_causes()
    ensures document { IsCaused parse_g_t (holding one_way (codes "a")) 0 }
    ensures no_derivation { IsCaused parse_g_t (holding one_way (codes "ab")) 1 }
    ensures not_document { ¬ (IsCaused parse_g_t (holding one_way (codes "ab")) 0) }
    ensures no_form { IsCaused [] (holding one_way (codes "a")) 2 }
    ensures no_grammar { IsCaused parse_g_t (holding [] (codes "a")) 3 }
    ensures not_utf8 { IsCaused parse_g_t (holding one_way (97 ∷ 195 ∷ [])) 5 }
    ensures not_derived { ¬ (IsCaused parse_g_t (holding one_way (97 ∷ 195 ∷ [])) 1) }
{}

/// A check has the status of its grammar, and never one that only a text has.
pub fn statuses_of_a_check()
    ensures done { IsCaused check_g (holding one_way (97 ∷ 195 ∷ [])) 0 }
    ensures no_grammar { IsCaused check_g (holding [] (codes "a")) 3 }
    ensures not_utf8 { IsCaused check_g (holding (195 ∷ []) (codes "a")) 5 }
    ensures not_done { ¬ (IsCaused check_g (holding [] (codes "a")) 0) }
    ensures not_of_text { ¬ (IsCaused check_g (holding one_way (97 ∷ 195 ∷ [])) 5) }
    ensures never_failed { (files : Told) → ¬ (IsCaused check_g files 1) }
    ensures never_without_form { (files : Told) → ¬ (IsCaused check_g files 2) }
    ensures never_no_document { (files : Told) → ¬ (IsCaused check_g files 4) }
    ensures never_too_long { (files : Told) → ¬ (IsCaused check_g files 6) }
{}

/// A sample has no status that the files could give.
pub fn statuses_of_a_sample()
    ensures never_without_form { (files : Told) → ¬ (IsCaused sample_1 files 2) }
    ensures never_no_grammar { (files : Told) → ¬ (IsCaused sample_1 files 3) }
    ensures never_not_utf8 { (files : Told) → ¬ (IsCaused sample_1 files 5) }
    ensures never_too_long { (files : Told) → ¬ (IsCaused sample_1 files 6) }
{}

/// A grammar may have 1,048,576 bytes and a text 16,777,216. One more is too long, whatever else is wrong with it.
pub fn lengths_with_causes()
    ensures long_grammar { (bytes : List ℕ) → length bytes ≡ 1048577 → IsCaused parse_g_t (holding bytes []) 3 }
    ensures other_grammar { (bytes : List ℕ) → length bytes ≡ 1048576 → ¬ (IsUtf8 bytes) → IsCaused parse_g_t (holding bytes []) 5 }
    ensures long_text { (bytes : List ℕ) → length bytes ≡ 16777217 → IsCaused parse_g_t (holding one_way bytes) 6 }
    ensures not_long { (bytes : List ℕ) → length bytes ≡ 16777216 → ¬ (IsCaused parse_g_t (holding one_way bytes) 6) }
    ensures other_text { (bytes : List ℕ) → length bytes ≡ 16777216 → ¬ (IsUtf8 bytes) → IsCaused parse_g_t (holding one_way bytes) 5 }
{}

/// A name holds the bytes of its file, and no others. Files that tell nothing may hold any.
pub fn files_that_hold()
    ensures held { Holds (Some (holding one_way [])) (codes "g") (λ bytes. bytes ≡ one_way) }
    ensures not_other { ¬ (Holds (Some (holding one_way [])) (codes "t") (λ bytes. bytes ≡ one_way)) }
    ensures not_there { ¬ (Holds (Some (holding one_way [])) (codes "x") (λ bytes. bytes ≡ bytes)) }
    ensures untold { Holds None (codes "x") (λ bytes. bytes ≡ one_way) }
{}

/// Memory may run out at any load. A file that could not be read is named, and its count rose.
pub fn loads_that_fail()
    ensures memory { IsLoadFault no_count no_count (codes "g") answer.Memory }
    ensures file { (name : String Global) → string_bytes name ≡ codes "g" → IsLoadFault no_count (raised (codes "g")) (codes "g") (answer.Read name) }
    ensures not_raised { (name : String Global) → ¬ (IsLoadFault no_count no_count (codes "g") (answer.Read name)) }
    ensures not_named { (name : String Global) → string_bytes name ≡ codes "t" → ¬ (IsLoadFault no_count (raised (codes "g")) (codes "g") (answer.Read name)) }
    ensures no_words { ¬ (IsLoadFault no_count (raised (codes "g")) (codes "g") answer.Words) }
    ensures grammar { IsGrammarFault (Some (holding [] [])) no_count no_count (codes "g") (answer.Grammar refusal.NotIxml) }
    ensures not_grammar { ¬ (IsGrammarFault (Some (holding one_way [])) no_count no_count (codes "g") (answer.Grammar refusal.NotIxml)) }
    ensures not_memory { ¬ (IsGrammarFault None no_count no_count (codes "g") (answer.Grammar refusal.Memory)) }
    ensures unread { (name : String Global) → string_bytes name ≡ codes "g" → IsGrammarFault None no_count (raised (codes "g")) (codes "g") (answer.Read name) }
{}

/// The grammar is the first to be read, and the text is only behind a grammar. A check reads no text, and a sample nothing.
pub fn files_that_are_next()
    ensures grammar { IsNext (Some (holding [] [])) (parse (codes "g") (codes "t") 2) (codes "g") }
    ensures text { IsNext (Some (holding one_way [])) (parse (codes "g") (codes "t") 2) (codes "t") }
    ensures text_before_grammar { ¬ (IsNext (Some (holding [] [])) (parse (codes "g") (codes "t") 2) (codes "t")) }
    ensures untold { IsNext None (parse (codes "g") (codes "t") 2) (codes "t") }
    ensures other { ¬ (IsNext None (parse (codes "g") (codes "t") 2) (codes "x")) }
    ensures checked { IsNext (Some (holding [] [])) (check (codes "g")) (codes "g") }
    ensures not_checked { ¬ (IsNext (Some (holding one_way [])) (check (codes "g")) (codes "t")) }
    ensures sample { (name : List ℕ) → ¬ (IsNext None (sample 1 2) name) }
{}

/// A grammar whose count rose is unread, a file that the words do not name never is. The text is unread only behind a
/// grammar.
pub fn files_that_are_unread()
    ensures grammar { IsUnread parse_g_t (Some (holding [] [])) no_count (raised (codes "g")) (codes "g") }
    ensures not_raised { ¬ (IsUnread parse_g_t (Some (holding [] [])) no_count no_count (codes "g")) }
    ensures text { IsUnread parse_g_t (Some (holding one_way [])) no_count (raised (codes "t")) (codes "t") }
    ensures text_before_grammar { ¬ (IsUnread parse_g_t (Some (holding [] [])) no_count (raised (codes "t")) (codes "t")) }
    ensures not_named { ¬ (IsUnread parse_g_t (Some (holding [] [])) no_count (raised (codes "x")) (codes "x")) }
    ensures not_checked { ¬ (IsUnread check_g (Some (holding one_way [])) no_count (raised (codes "t")) (codes "t")) }
{}

/// A command is refused for what its files hold, and only for files that it reads.
pub fn commands_that_are_refused()
    ensures grammar { IsRefusedFor (check (codes "g")) (Some (holding [] [])) no_count no_count (answer.Grammar refusal.NotIxml) }
    ensures not_grammar { ¬ (IsRefusedFor (check (codes "g")) (Some (holding one_way [])) no_count no_count (answer.Grammar refusal.NotIxml)) }
    ensures text { IsRefusedFor (parse (codes "g") (codes "t") 2) (Some (holding one_way (97 ∷ 195 ∷ []))) no_count no_count (answer.Text (fault.NotUtf8 1)) }
    ensures shorter { ¬ (IsRefusedFor (parse (codes "g") (codes "t") 2) (Some (holding one_way (97 ∷ 195 ∷ []))) no_count no_count (answer.Text (fault.NotUtf8 0))) }
    ensures not_checked { ¬ (IsRefusedFor (check (codes "g")) (Some (holding one_way (97 ∷ 195 ∷ []))) no_count no_count (answer.Text (fault.NotUtf8 1))) }
    ensures sample { (r : Refusal) → ¬ (IsRefusedFor (sample 1 2) (Some (holding [] [])) no_count no_count (answer.Grammar r)) }
    ensures untold { IsRefusedFor (check (codes "g")) None no_count no_count (answer.Grammar refusal.NotIxml) }
    ensures no_words { ¬ (IsRefusedFor (check (codes "g")) None no_count no_count answer.Words) }
    ensures write { ¬ (IsRefusedFor (check (codes "g")) None no_count no_count answer.Write) }
{}

/// Memory may run out at any command, and is no refusal of a grammar or a text. A file that could not be read was the next.
pub fn commands_that_are_not_finished()
    ensures memory { IsRefusedFor (sample 1 2) None no_count no_count answer.Memory }
    ensures not_grammar { ¬ (IsRefusedFor (check (codes "g")) None no_count no_count (answer.Grammar refusal.Memory)) }
    ensures not_text { ¬ (IsRefusedFor (parse (codes "g") (codes "t") 2) None no_count no_count (answer.Text fault.Memory)) }
    ensures file { (name : String Global) → string_bytes name ≡ codes "g" → IsRefusedFor (check (codes "g")) None no_count (raised (codes "g")) (answer.Read name) }
    ensures not_raised { (name : String Global) → ¬ (IsRefusedFor (check (codes "g")) None no_count no_count (answer.Read name)) }
    ensures not_next { (name : String Global) → string_bytes name ≡ codes "t" → ¬ (IsRefusedFor (check (codes "g")) None no_count (raised (codes "t")) (answer.Read name)) }
    ensures no_file { (name : String Global) → ¬ (IsRefusedFor (sample 1 2) None no_count (raised (string_bytes name)) (answer.Read name)) }
{}

/// Words are refused only where they have no form. A write is never refused before it was tried.
pub fn answers_that_are_refused()
    ensures words { IsRefused [] (Some (holding one_way [])) no_count no_count answer.Words }
    ensures not_words { ¬ (IsRefused parse_g_t (Some (holding one_way [])) no_count no_count answer.Words) }
    ensures grammar { IsRefused parse_g_t (Some (holding [] [])) no_count no_count (answer.Grammar refusal.NotIxml) }
    ensures not_grammar { ¬ (IsRefused parse_g_t (Some (holding one_way (codes "ab"))) no_count no_count (answer.Grammar refusal.NotIxml)) }
    ensures text { IsRefused parse_g_t (Some (holding one_way (97 ∷ 195 ∷ []))) no_count no_count (answer.Text (fault.NotUtf8 1)) }
    ensures not_text { ¬ (IsRefused parse_g_t (Some (holding one_way (codes "ab"))) no_count no_count (answer.Text (fault.NotUtf8 1))) }
    ensures memory { IsRefused parse_g_t (Some (holding one_way [])) no_count no_count answer.Memory }
    ensures write { ¬ (IsRefused parse_g_t (Some (holding one_way [])) no_count no_count answer.Write) }
{}

/// Want of memory is one answer, wherever it comes from; all else keeps what it says.
pub fn what_refusals_mean()
    ensures words { of_words words.NoForm ≡ answer.Words }
    ensures memory_for_words { of_words words.Memory ≡ answer.Memory }
    ensures memory { of_refusal refusal.Memory ≡ answer.Memory }
    ensures grammar { of_refusal refusal.TooDeep ≡ answer.Grammar refusal.TooDeep }
    ensures memory_for_a_text { of_fault fault.Memory ≡ answer.Memory }
    ensures text { of_fault fault.TooLong ≡ answer.Text fault.TooLong }
{}

/// Bytes that are there are those and no others. A document has those of what its marked tree stands for, whatever stands in
/// its buffer.
pub fn bytes_of_contents()
    ensures bytes { (v : Vec ℕ Global) → v.items ≡ codes "ok\n" → HasBytes (content.Bytes v) (codes "ok\n") }
    ensures other_bytes { (v : Vec ℕ Global) → v.items ≡ codes "ok" → ¬ (HasBytes (content.Bytes v) (codes "ok\n")) }
    ensures document { (v : Vec ℕ Global) → HasBytes (a_content v) (codes "<S>a</S>\n") }
    ensures not_the_buffer { (v : Vec ℕ Global) → v.items ≡ codes "<S/>\n" → ¬ (HasBytes (a_content v) (codes "<S/>\n")) }
    ensures shorter { (v : Vec ℕ Global) → ¬ (HasBytes (a_content v) (codes "<S>a</S>")) }
{}

/// A document is written of a marked tree that names what is there and stands for one element, through 16 bytes or more. Bytes
/// need nothing.
pub fn contents_that_can_be_written()
    ensures bytes { (v : Vec ℕ Global) → IsWritable (content.Bytes v) }
    ensures document { (v : Vec ℕ Global) → length v.items ≡ 16 → IsWritable (a_content v) }
    ensures small_buffer { (v : Vec ℕ Global) → length v.items ≡ 15 → ¬ (IsWritable (a_content v)) }
    ensures no_name { (v : Vec ℕ Global) → ¬ (IsWritable (unnamed_content v)) }
    ensures no_element { (v : Vec ℕ Global) → ¬ (IsWritable (bare_content v)) }
{}

/// What goes to the output has the status and all the bytes of its outcome.
pub fn outputs_of_an_outcome()
    ensures document { (v : Vec ℕ Global) → v.items ≡ codes "<S>a</S>\n" → Shows (document (element_with (text_of (codes "a"))) Single) (record { status = 0; content = content.Bytes v }) }
    ensures not_failed { (v : Vec ℕ Global) → ¬ (Shows (document (element_with (text_of (codes "a"))) Single) (record { status = 1; content = content.Bytes v })) }
    ensures not_shorter { (v : Vec ℕ Global) → v.items ≡ codes "<S>a</S>" → ¬ (Shows (document (element_with (text_of (codes "a"))) Single) (record { status = 0; content = content.Bytes v })) }
    ensures failed { (v : Vec ℕ Global) → v.items ≡ codes "<fail xmlns:ixml=\"http://invisiblexml.org/NS\" ixml:state=\"failed\" offset=\"1\" line=\"1\" column=\"2\"/>\n" → Shows (failed 1 1 2) (record { status = 1; content = content.Bytes v }) }
    ensures tree { (v : Vec ℕ Global) → Shows (document (element_with (text_of (codes "a"))) Single) (record { status = 0; content = a_content v }) }
    ensures not_ambiguous { (v : Vec ℕ Global) → ¬ (Shows (document (element_with (text_of (codes "a"))) Ambiguous) (record { status = 0; content = a_content v })) }
    ensures no_output { (v : Vec ℕ Global) → ¬ (Shows no_grammar (record { status = 3; content = content.Bytes v })) }
    ensures conforms { (v : Vec ℕ Global) → v.items ≡ codes "ok\n" → Shows conforms (record { status = 0; content = content.Bytes v }) }
    ensures no_line_feed { (v : Vec ℕ Global) → v.items ≡ codes "ok" → ¬ (Shows conforms (record { status = 0; content = content.Bytes v })) }
    ensures figures { (v : Vec ℕ Global) → v.items ≡ codes "text 5\ndescriptors 35\nsubtrees 13\noutput 40\n" → Shows (summarised 5 (record { descriptors = 35; subtrees = 13 }) 40) (record { status = 0; content = content.Bytes v }) }
{}

/// A text shows its document or its failed document; where its figures are asked for, these in place of the document.
pub fn outputs_of_a_text()
    ensures document { (v : Vec ℕ Global) → v.items ≡ codes "<S>a</S>\n" → ShowsWanted wanted.Document only_a (codes "a") (record { status = 0; content = content.Bytes v }) }
    ensures no_figures { (v : Vec ℕ Global) → v.items ≡ codes "text 1\ndescriptors 2\nsubtrees 1\noutput 9\n" → ¬ (ShowsWanted wanted.Document only_a (codes "a") (record { status = 0; content = content.Bytes v })) }
    ensures figures { (v : Vec ℕ Global) → v.items ≡ codes "text 1\ndescriptors 2\nsubtrees 1\noutput 9\n" → ShowsWanted wanted.Figures only_a (codes "a") (record { status = 0; content = content.Bytes v }) }
    ensures other_figures { (v : Vec ℕ Global) → v.items ≡ codes "text 1\ndescriptors 1\nsubtrees 2\noutput 9\n" → ¬ (ShowsFigures only_a (codes "a") (record { status = 0; content = content.Bytes v })) }
    ensures no_document { (v : Vec ℕ Global) → v.items ≡ codes "<S>a</S>\n" → ¬ (ShowsWanted wanted.Figures only_a (codes "a") (record { status = 0; content = content.Bytes v })) }
    ensures failed { (v : Vec ℕ Global) → v.items ≡ codes "<fail xmlns:ixml=\"http://invisiblexml.org/NS\" ixml:state=\"failed\" offset=\"1\" line=\"1\" column=\"2\"/>\n" → ShowsFigures only_a (codes "ab") (record { status = 1; content = content.Bytes v }) }
    ensures not_failed { (v : Vec ℕ Global) → ¬ (ShowsFigures only_a (codes "a") (record { status = 1; content = content.Bytes v })) }
{}

/// A command shows what the table has for it. What is refused shows nothing.
pub fn outputs_of_a_command()
    ensures checked { (v : Vec ℕ Global) → v.items ≡ codes "ok\n" → ShowsCommand (check (codes "g")) (without_text one_way) (record { status = 0; content = content.Bytes v }) }
    ensures not_checked { (output : Output) → ¬ (ShowsCommand (check (codes "g")) (holding [] []) output) }
    ensures not_parsed { (v : Vec ℕ Global) → v.items ≡ codes "ok\n" → ¬ (ShowsCommand (parse (codes "g") (codes "t") 2) (holding one_way (codes "a")) (record { status = 0; content = content.Bytes v })) }
    ensures reply { (v : Vec ℕ Global) → v.items ≡ codes "ok\n" → ShowsReply check_g (without_text one_way) (record { status = 0; content = content.Bytes v }) }
    ensures no_words { (output : Output) → ¬ (ShowsReply [] (holding one_way (codes "a")) output) }
{}

/// An output is written whole and without a line; or its front is, where the output's count rose; or nothing, with the line
/// of want of memory.
pub fn outputs_that_are_written()
    ensures whole { (v : Vec ℕ Global) → v.items ≡ codes "<S/>" → IsWritten (Some []) (Some (codes "<S/>")) 0 0 (Some []) (Some []) 0 0 (record { status = 0; content = content.Bytes v }) 0 }
    ensures no_line { (v : Vec ℕ Global) → ¬ (IsWritten (Some []) (Some (codes "<S/>")) 0 0 (Some []) (Some write_line) 0 0 (record { status = 0; content = content.Bytes v }) 0) }
    ensures not_twice { (v : Vec ℕ Global) → v.items ≡ codes "<S/>" → ¬ (IsWritten (Some []) (Some (codes "<S/><S/>")) 0 0 (Some []) (Some []) 0 0 (record { status = 0; content = content.Bytes v }) 0) }
    ensures front { (v : Vec ℕ Global) → v.items ≡ codes "<S/>" → IsWritten (Some []) (Some (codes "<S")) 0 1 (Some []) (Some write_line) 0 0 (record { status = 0; content = content.Bytes v }) 8 }
    ensures tree { (v : Vec ℕ Global) → IsWritten (Some []) (Some (codes "<S>a</S>\n")) 0 0 (Some []) (Some []) 0 0 (record { status = 0; content = a_content v }) 0 }
    ensures no_tree { (v : Vec ℕ Global) → ¬ (IsWritten (Some []) (Some []) 0 0 (Some []) (Some []) 0 0 (record { status = 0; content = a_content v }) 0) }
    ensures front_of_tree { (v : Vec ℕ Global) → IsWritten (Some []) (Some (codes "<S>")) 0 1 (Some []) (Some write_line) 0 0 (record { status = 0; content = a_content v }) 8 }
    ensures another_front { (v : Vec ℕ Global) → ¬ (IsWritten (Some []) (Some (codes "S")) 0 1 (Some []) (Some write_line) 0 0 (record { status = 0; content = a_content v }) 8) }
    ensures not_risen { (v : Vec ℕ Global) → ¬ (IsWritten (Some []) (Some (codes "<S")) 0 0 (Some []) (Some write_line) 0 0 (record { status = 0; content = content.Bytes v }) 8) }
    ensures nothing { (v : Vec ℕ Global) → IsWritten (Some []) (Some []) 0 0 (Some []) (Some memory_line) 0 0 (record { status = 0; content = content.Bytes v }) 9 }
    ensures not_something { (v : Vec ℕ Global) → ¬ (IsWritten (Some []) (Some (codes "<")) 0 0 (Some []) (Some memory_line) 0 0 (record { status = 0; content = content.Bytes v }) 9) }
{}

/// Status and output are those of the table, and what a fault of the output leaves is the front of its document.
pub fn outputs_of_the_table()
    ensures answered { IsAnswered parse_g_t (Some (holding one_way (codes "a"))) (Some []) (Some (codes "<S>a</S>\n")) 0 (Says (Some []) (Some []) 0 0) }
    ensures not_shorter { ¬ (IsAnswered parse_g_t (Some (holding one_way (codes "a"))) (Some []) (Some (codes "<S>a</S>")) 0 (Says (Some []) (Some []) 0 0)) }
    ensures not_refused { ¬ (IsAnswered parse_g_t (Some (holding one_way (codes "a"))) (Some []) (Some []) 3 (Says (Some []) (Some []) 0 0)) }
    ensures checked { IsAnswered check_g (Some (holding one_way [])) (Some []) (Some (codes "ok\n")) 0 (Says (Some []) (Some []) 0 0) }
    ensures front { IsCutOff parse_g_t (Some (holding one_way (codes "a"))) (Some []) (Some (codes "<S>a")) }
    ensures not_front { ¬ (IsCutOff parse_g_t (Some (holding one_way (codes "a"))) (Some []) (Some (codes "S"))) }
    ensures no_output { ¬ (IsCutOff parse_g_t (Some (holding [] [])) (Some []) (Some [])) }
{}

/// A line is said where it was appended; where the count of faults rose, nothing is claimed.
pub fn lines_that_are_said()
    ensures said { Says (Some []) (Some memory_line) 0 0 memory_line }
    ensures not_silent { ¬ (Says (Some []) (Some []) 0 0 memory_line) }
    ensures failed { Says (Some []) (Some []) 0 1 memory_line }
{}

/// Nothing is said at status 0 and at 1. At each other status its own line is, and no other.
pub fn messages_of_a_status()
    ensures silent { IsMessage 0 (λ line. line ≡ []) }
    ensures silent_at_failure { IsMessage 1 (λ line. line ≡ []) }
    ensures not_at_success { ¬ (IsMessage 0 (λ line. line ≡ write_line)) }
    ensures not_at_failure { ¬ (IsMessage 1 (λ line. line ≡ write_line)) }
    ensures no_document { IsMessage 4 (λ line. line ≡ message_of (refused attribute_xmlns)) }
    ensures too_long { IsMessage 6 (λ line. line ≡ message_of text_too_long) }
    ensures another { ¬ (IsMessage 6 (λ line. line ≡ write_line)) }
    ensures not_silent { ¬ (IsMessage 6 (λ line. line ≡ [])) }
{}

/// `parse` has what its two files hold, and its workers; `check` has its line where its file holds a grammar; `sample` has
/// the text of its number, for figures.
pub fn commands_that_are_prepared()
    ensures parse { (v : Vec ℕ Global) → v.items ≡ codes "a" → IsPreparedFor (Some (holding one_way (codes "a"))) (parse (codes "g") (codes "t") 2) (prepared.Parse (record { grammar = only_a; text = v; workers = 2; wanted = wanted.Document })) }
    ensures other_text { (v : Vec ℕ Global) → v.items ≡ codes "ab" → ¬ (IsPreparedFor (Some (holding one_way (codes "a"))) (parse (codes "g") (codes "t") 2) (prepared.Parse (record { grammar = only_a; text = v; workers = 2; wanted = wanted.Document }))) }
    ensures no_grammar { (task : Task) → ¬ (IsPreparedFor (Some (holding [] (codes "a"))) (parse (codes "g") (codes "t") 2) (prepared.Parse task)) }
    ensures other_workers { (v : Vec ℕ Global) → ¬ (IsPreparedFor (Some (holding one_way (codes "a"))) (parse (codes "g") (codes "t") 2) (prepared.Parse (record { grammar = only_a; text = v; workers = 3; wanted = wanted.Document }))) }
    ensures no_figures { (v : Vec ℕ Global) → ¬ (IsPreparedFor (Some (holding one_way (codes "a"))) (parse (codes "g") (codes "t") 2) (prepared.Parse (record { grammar = only_a; text = v; workers = 2; wanted = wanted.Figures }))) }
    ensures check { (v : Vec ℕ Global) → v.items ≡ codes "ok\n" → IsPreparedFor (Some (without_text one_way)) (check (codes "g")) (prepared.Output (record { status = 0; content = content.Bytes v })) }
    ensures not_checked { (output : Output) → ¬ (IsPreparedFor (Some (holding [] [])) (check (codes "g")) (prepared.Output output)) }
    ensures not_parsed { (task : Task) → ¬ (IsPreparedFor (Some (without_text one_way)) (check (codes "g")) (prepared.Parse task)) }
    ensures sample { (v : Vec ℕ Global) → v.items ≡ codes "1:ab\n" → IsPreparedFor None (sample 1 2) (prepared.Parse (record { grammar = sample_rules; text = v; workers = 2; wanted = wanted.Figures })) }
    ensures other_number { (v : Vec ℕ Global) → v.items ≡ codes "1:ab\n" → ¬ (IsPreparedFor None (sample 2 2) (prepared.Parse (record { grammar = sample_rules; text = v; workers = 2; wanted = wanted.Figures }))) }
{}

/// A text can be parsed by 1 to 64 workers.
pub fn tasks_that_are_ready()
    ensures one { (v : Vec ℕ Global) → IsReady (record { grammar = only_a; text = v; workers = 1; wanted = wanted.Document }) }
    ensures all { (v : Vec ℕ Global) → IsReadied (prepared.Parse (record { grammar = only_a; text = v; workers = 64; wanted = wanted.Figures })) }
    ensures none { (v : Vec ℕ Global) → ¬ (IsReady (record { grammar = only_a; text = v; workers = 0; wanted = wanted.Document })) }
    ensures too_many { (v : Vec ℕ Global) → ¬ (IsReadied (prepared.Parse (record { grammar = only_a; text = v; workers = 65; wanted = wanted.Document }))) }
    ensures no_text { (v : Vec ℕ Global) → IsReadied (prepared.Output (record { status = 0; content = content.Bytes v })) }
{}

/// Words have the table's output, or a refusal with its cause.
pub fn replies_to_words()
    ensures words { IsReplied [] (Some (holding one_way [])) no_count no_count (Err answer.Words) }
    ensures not_words { ¬ (IsReplied parse_g_t (Some (holding one_way [])) no_count no_count (Err answer.Words)) }
    ensures no_words { (output : Output) → ¬ (IsReplied [] None no_count no_count (Ok output)) }
    ensures no_status { (v : Vec ℕ Global) → ¬ (IsReplied parse_g_t None no_count no_count (Ok (record { status = 4; content = content.Bytes v }))) }
    ensures shorter { (v : Vec ℕ Global) → v.items ≡ codes "<S>a</S>" → ¬ (IsReplied parse_g_t (Some (holding one_way (codes "a"))) no_count no_count (Ok (record { status = 0; content = content.Bytes v }))) }
    ensures sample { ¬ (IsReplied sample_1 None no_count no_count (Err (answer.Grammar refusal.NotIxml))) }
{}

/// A refusal says its line and writes nothing.
pub fn answers_that_are_delivered()
    ensures whole { (v : Vec ℕ Global) → v.items ≡ codes "<S/>" → IsDelivered (Some []) (Some (codes "<S/>")) 0 0 (Some []) (Some []) 0 0 (Ok (record { status = 0; content = content.Bytes v })) 0 }
    ensures line { IsDelivered (Some []) (Some []) 0 0 (Some []) (Some memory_line) 0 0 (Err answer.Memory) 9 }
    ensures other_line { ¬ (IsDelivered (Some []) (Some []) 0 0 (Some []) (Some write_line) 0 0 (Err answer.Memory) 9) }
    ensures other_status { ¬ (IsDelivered (Some []) (Some []) 0 0 (Some []) (Some memory_line) 0 0 (Err answer.Memory) 0) }
    ensures not_written { ¬ (IsDelivered (Some []) (Some (codes "<S/>")) 0 0 (Some []) (Some memory_line) 0 0 (Err answer.Memory) 9) }
    ensures no_file { ¬ (IsDelivered (Some []) (Some []) 0 0 (Some []) (Some []) 0 1 (Err answer.Memory) 7) }
{}

/// `S: "a".` on `a` has a document, which is written with status 0 and without a line.
pub fn runs_with_a_document()
    ensures document { IsRun parse_g_t (outside (holding one_way (codes "a")) no_count [] 0 []) (outside (holding one_way (codes "a")) no_count (codes "<S>a</S>\n") 0 []) 0 }
    ensures shorter { ¬ (IsRun parse_g_t (outside (holding one_way (codes "a")) no_count [] 0 []) (outside (holding one_way (codes "a")) no_count (codes "<S>a</S>") 0 []) 0) }
    ensures refused { ¬ (IsRun parse_g_t (outside (holding one_way (codes "a")) no_count [] 0 []) (outside (holding one_way (codes "a")) no_count [] 0 []) 3) }
    ensures another_front { ¬ (IsRun parse_g_t (outside (holding one_way (codes "a")) no_count [] 0 []) (outside (holding one_way (codes "a")) no_count (codes "S") 1 write_line) 8) }
    ensures failed { ¬ (IsRun parse_g_t (outside (holding one_way (codes "ab")) no_count [] 0 []) (outside (holding one_way (codes "ab")) no_count (codes "<S/>\n") 0 []) 0) }
{}

/// Words without a form have status 2, and no others have. A sample is never refused.
pub fn runs_by_their_words()
    ensures no_form { IsRun [] none_told none_told 2 }
    ensures no_grammar { ¬ (IsRun [] none_told none_told 3) }
    ensures form { ¬ (IsRun parse_g_t none_told none_told 2) }
    ensures sample { ¬ (IsRun sample_1 none_told none_told 3) }
{}

/// What could not be read or written has a count that rose; else no answer blames it.
pub fn runs_that_fail()
    ensures not_read { ¬ (IsRun parse_g_t (outside (holding one_way []) no_count [] 0 []) (outside (holding one_way []) no_count [] 0 (read_line (codes "g"))) 7) }
    ensures not_told { ¬ (IsRun parse_g_t (outside (holding one_way []) no_count [] 0 []) (outside (holding one_way []) (raised (codes "g")) [] 0 []) 7) }
    ensures not_complete { ¬ (IsRun parse_g_t (outside (holding one_way (codes "a")) no_count [] 0 []) (outside (holding one_way (codes "a")) no_count [] 0 write_line) 8) }
    ensures not_risen { ¬ (IsRun parse_g_t none_told none_told 8) }
{}

/// A refusal writes nothing and says its own line; files keep what they tell, and counts never fall.
pub fn runs_that_change_more()
    ensures written { ¬ (IsRun parse_g_t (outside (holding [] []) no_count [] 0 []) (outside (holding [] []) no_count (codes "<S/>") 0 memory_line) 9) }
    ensures said { ¬ (IsRun parse_g_t (outside (holding one_way []) no_count [] 0 []) (outside (holding one_way []) no_count [] 0 write_line) 0) }
    ensures other_files { ¬ (IsRun parse_g_t (outside (holding [] []) no_count [] 0 []) (outside (without_text []) no_count [] 0 memory_line) 9) }
    ensures lower_count { ¬ (IsRun parse_g_t (outside (holding [] []) (raised (codes "g")) [] 0 []) (outside (holding [] []) no_count [] 0 memory_line) 9) }
{}
