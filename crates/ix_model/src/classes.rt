//! Classes of characters: the general categories, and which of them a class has.
ghost use Rattle.std.specs.Prelude.{◌≡◌, ◌↔◌, IsTrue};
ghost use Rattle.std.specs.List.{list_any};
ghost use Rattle.ix_model.specs.declared.classes.TheConstants.{CATEGORIES};
ghost use Rattle.ix_model.specs.Grammars.Breach.{IsKnownClass};
ghost use Rattle.ix_model.specs.Matching.Classes.{code_of, is_code_in_class};

use unicode::properties::GeneralCategory;

/// Every general category, each once.
pub const CATEGORIES: [GeneralCategory; 30] = [
    GeneralCategory::UppercaseLetter,
    GeneralCategory::LowercaseLetter,
    GeneralCategory::TitlecaseLetter,
    GeneralCategory::ModifierLetter,
    GeneralCategory::OtherLetter,
    GeneralCategory::NonspacingMark,
    GeneralCategory::SpacingMark,
    GeneralCategory::EnclosingMark,
    GeneralCategory::DecimalNumber,
    GeneralCategory::LetterNumber,
    GeneralCategory::OtherNumber,
    GeneralCategory::ConnectorPunctuation,
    GeneralCategory::DashPunctuation,
    GeneralCategory::OpenPunctuation,
    GeneralCategory::ClosePunctuation,
    GeneralCategory::InitialPunctuation,
    GeneralCategory::FinalPunctuation,
    GeneralCategory::OtherPunctuation,
    GeneralCategory::MathSymbol,
    GeneralCategory::CurrencySymbol,
    GeneralCategory::ModifierSymbol,
    GeneralCategory::OtherSymbol,
    GeneralCategory::SpaceSeparator,
    GeneralCategory::LineSeparator,
    GeneralCategory::ParagraphSeparator,
    GeneralCategory::Control,
    GeneralCategory::Format,
    GeneralCategory::Surrogate,
    GeneralCategory::PrivateUse,
    GeneralCategory::Unassigned,
];

/// The two letters that name a category.
fn code_of(category: GeneralCategory) -> [char; 2]
    ensures { result ≡ code_of category }
{
    match category {
        GeneralCategory::UppercaseLetter => ['L', 'u'],
        GeneralCategory::LowercaseLetter => ['L', 'l'],
        GeneralCategory::TitlecaseLetter => ['L', 't'],
        GeneralCategory::ModifierLetter => ['L', 'm'],
        GeneralCategory::OtherLetter => ['L', 'o'],
        GeneralCategory::NonspacingMark => ['M', 'n'],
        GeneralCategory::SpacingMark => ['M', 'c'],
        GeneralCategory::EnclosingMark => ['M', 'e'],
        GeneralCategory::DecimalNumber => ['N', 'd'],
        GeneralCategory::LetterNumber => ['N', 'l'],
        GeneralCategory::OtherNumber => ['N', 'o'],
        GeneralCategory::ConnectorPunctuation => ['P', 'c'],
        GeneralCategory::DashPunctuation => ['P', 'd'],
        GeneralCategory::OpenPunctuation => ['P', 's'],
        GeneralCategory::ClosePunctuation => ['P', 'e'],
        GeneralCategory::InitialPunctuation => ['P', 'i'],
        GeneralCategory::FinalPunctuation => ['P', 'f'],
        GeneralCategory::OtherPunctuation => ['P', 'o'],
        GeneralCategory::MathSymbol => ['S', 'm'],
        GeneralCategory::CurrencySymbol => ['S', 'c'],
        GeneralCategory::ModifierSymbol => ['S', 'k'],
        GeneralCategory::OtherSymbol => ['S', 'o'],
        GeneralCategory::SpaceSeparator => ['Z', 's'],
        GeneralCategory::LineSeparator => ['Z', 'l'],
        GeneralCategory::ParagraphSeparator => ['Z', 'p'],
        GeneralCategory::Control => ['C', 'c'],
        GeneralCategory::Format => ['C', 'f'],
        GeneralCategory::Surrogate => ['C', 's'],
        GeneralCategory::PrivateUse => ['C', 'o'],
        GeneralCategory::Unassigned => ['C', 'n'],
    }
}

/// Whether the class has the characters of the category: it is both letters of its code, or the first.
pub fn class_has(class: &[char], category: GeneralCategory) -> bool
    ensures { result ≡ is_code_in_class class.now (code_of category) }
{
    !class.is_empty() && code_of(category).starts_with(class)
}

// Whether a category of the list has it.
fn is_of_some(class: &[char]) -> bool
    ensures { result ≡ list_any (λ category. is_code_in_class class.now (code_of category)) CATEGORIES }
{
    CATEGORIES
        .iter()
        .any(|category| class_has(class, *category))
}

/// Whether the class is known: some category has it.
#[tactic(auto, using(crate::proofs::Categories::known_by_list, crate::proofs::Categories::listed_if_known))]
pub fn is_known_class(class: &[char]) -> bool
    ensures { IsTrue result ↔ IsKnownClass class.now }
{
    is_of_some(class)
}
