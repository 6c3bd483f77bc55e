ghost use Rattle.std.specs.Prelude.{◌≡◌, IfOk};
ghost use Rattle.ix_model.specs.Documents.FailedXml.{failed_xml};

use std::alloc::{AllocError, Global};

/// The document of a text that no derivation has, in UTF-8: an empty element `fail` that says the state (Invisible XML 1.0,
/// "Parsing") and the one place that the text was read to, with one line feed behind it. The offset is counted in characters
/// from 0, line and column from 1; all three are written in decimal. The name `fail` and the place are this project's own.
///
/// `AllocError` is want of memory.
#[tactic(auto, unfolding(ix_model::specs::Documents::FailedXml::failed_xml))]
pub fn failed_bytes(
    alloc: Global,
    offset: u32,
    line: u32,
    column: u32,
) -> Result<Vec<u8>, AllocError>
    ensures { IfOk result (λ document. document.items ≡ failed_xml offset line column) }
{
    Ok(format!(in alloc;
        "<fail xmlns:ixml=\"http://invisiblexml.org/NS\" ixml:state=\"failed\" offset=\"{offset}\" line=\"{line}\" column=\"{column}\"/>\n"
    )?.into_bytes())
}
