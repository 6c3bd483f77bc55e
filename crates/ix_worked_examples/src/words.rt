ghost use Rattle.std.specs.Prelude.{◌≡◌, [], ◌∷◌, codes};
ghost use Rattle.ix_model.specs.Spelling.Words.{NameAt};

/// Each character that may stand behind a name keeps the full stop before it in the name.
pub fn stops_kept()
    ensures comma { NameAt (codes "b. ,") (codes " ,") (codes "b.") }
    ensures semicolon { NameAt (codes "b. ;") (codes " ;") (codes "b.") }
    ensures bar { NameAt (codes "b. |") (codes " |") (codes "b.") }
    ensures stop { NameAt (codes "b. .") (codes " .") (codes "b.") }
    ensures parenthesis { NameAt (codes "b. )") (codes " )") (codes "b.") }
    ensures star { NameAt (codes "b. *") (codes " *") (codes "b.") }
    ensures plus { NameAt (codes "b. +") (codes " +") (codes "b.") }
    ensures question { NameAt (codes "b. ?") (codes " ?") (codes "b.") }
    ensures colon { NameAt (codes "b. :") (codes " :") (codes "b.") }
    ensures equals { NameAt (codes "b. =") (codes " =") (codes "b.") }
    ensures without_space { NameAt (codes "b.,") (codes ",") (codes "b.") }
    ensures behind_comment { NameAt (codes "b.{c},") (codes "{c},") (codes "b.") }
    ensures all_of_three { NameAt (codes "b...:") (codes ":") (codes "b...") }
{}

/// Each other character gives the full stop before it back.
pub fn stops_given_back()
    ensures opening_parenthesis { NameAt (codes "b. (") (codes ". (") (codes "b") }
    ensures bracket { NameAt (codes "b. [") (codes ". [") (codes "b") }
    ensures closing_bracket { NameAt (codes "b. ]") (codes ". ]") (codes "b") }
    ensures tilde { NameAt (codes "b. ~") (codes ". ~") (codes "b") }
    ensures at_sign { NameAt (codes "b. @") (codes ". @") (codes "b") }
    ensures caret { NameAt (codes "b. ^") (codes ". ^") (codes "b") }
    ensures hyphen { NameAt (codes "b. -") (codes ". -") (codes "b") }
    ensures number_sign { NameAt (codes "b. #") (codes ". #") (codes "b") }
    ensures quote { NameAt (codes "b. \"") (codes ". \"") (codes "b") }
    ensures apostrophe { NameAt (codes "b. '") (codes ". '") (codes "b") }
    ensures letter { NameAt (codes "b. c") (codes ". c") (codes "b") }
    ensures digit { NameAt (codes "b. 1") (codes ". 1") (codes "b") }
    ensures low_line { NameAt (codes "b. _") (codes ". _") (codes "b") }
    ensures less { NameAt (codes "b. <") (codes ". <") (codes "b") }
    ensures greater { NameAt (codes "b. >") (codes ". >") (codes "b") }
    ensures exclamation { NameAt (codes "b. !") (codes ". !") (codes "b") }
    ensures slash { NameAt (codes "b. /") (codes ". /") (codes "b") }
    ensures ampersand { NameAt (codes "b. &") (codes ". &") (codes "b") }
    ensures closing_brace { NameAt (codes "b. }") (codes ". }") (codes "b") }
    ensures accent { NameAt (codes "b. é") (codes ". é") (codes "b") }
    ensures end { NameAt (codes "b. ") (codes ". ") (codes "b") }
    ensures open_comment { NameAt (codes "b.{c") (codes ".{c") (codes "b") }
    ensures not_kept { ¬ (NameAt (codes "b.{c") (codes "{c") (codes "b.")) }
    ensures one_of_three { NameAt (codes "b...") (codes ".") (codes "b..") }
    ensures not_two_of_three { ¬ (NameAt (codes "b...") (codes "..") (codes "b.")) }
    ensures not_all_of_three { ¬ (NameAt (codes "b...") [] (codes "b...")) }
{}

/// A run that ends in another character than a full stop is a name as it is.
pub fn whole_runs()
    ensures letter { NameAt (codes "b") [] (codes "b") }
    ensures before_parenthesis { NameAt (codes "b(") (codes "(") (codes "b") }
    ensures hyphen { NameAt (codes "b.- ") (codes " ") (codes "b.-") }
    ensures low_line { NameAt (codes "_.1.b c") (codes " c") (codes "_.1.b") }
    ensures not_shorter { ¬ (NameAt (codes "b.- ") (codes ".- ") (codes "b")) }
    ensures no_digit { ¬ (NameAt (codes "1b") [] (codes "1b")) }
    ensures nothing { ¬ (NameAt (codes "b") (codes "b") []) }
{}
