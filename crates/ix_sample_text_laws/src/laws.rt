//! Laws of the sample's text under the sample's grammar. Each function's contract is the law; the bodies are empty.
ghost use Rattle.ix_sample_text_laws.specs.TextLaws.{SampleGivesDocument, SampleIsDerived, SampleIsSummarised};

/// The text has a derivation.
pub fn sample_is_derived()
    ensures { SampleIsDerived }
{}

/// Each derivation of it gives a document.
pub fn sample_gives_document()
    ensures { SampleGivesDocument }
{}

/// So its figures are what comes of it: it is neither too long, nor without a derivation, nor refused.
pub fn sample_is_summarised()
    ensures { SampleIsSummarised }
{}
