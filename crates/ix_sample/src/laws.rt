//! Laws of the sample's text. Each function's contract is the law; the bodies are empty.
ghost use Rattle.ix_sample.specs.TextLaws.{TextIsWithinLimit, TextIsUtf8, TextIsDecoded};

/// A text of at most 10000 lines is within the limit of texts.
pub fn text_is_within_limit()
    ensures { TextIsWithinLimit }
{}

/// A text of at most 10000 lines is UTF-8.
pub fn text_is_utf8()
    ensures { TextIsUtf8 }
{}

/// Its characters are its bytes.
pub fn text_is_decoded()
    ensures { TextIsDecoded }
{}
