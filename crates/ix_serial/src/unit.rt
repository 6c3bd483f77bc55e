//! What a document is made of.
ghost use Rattle.std.specs.Prelude.{◌≡◌, length};
ghost use Rattle.ix_model.specs.Documents.Xml.{content_bytes, value_bytes};
ghost use Rattle.ix_serial.specs.Units.{unit_bytes};

/// A part of a document that is never divided: a character that stands for itself, or markup.
#[derive(Clone, Copy)]
pub(crate) enum Unit {
    Char(char),
    Markup(&'static str),
}

impl Unit {
    /// How many bytes it has.
    pub(crate) fn len(self) -> usize
        ensures { result ≡ length (unit_bytes self) }
    {
        match self {
            Unit::Char(c) => c.len_utf8(),
            Unit::Markup(markup) => markup.len(),
        }
    }
}

/// A character of the content.
pub(crate) fn content_unit(c: char) -> Unit
    ensures { unit_bytes result ≡ content_bytes c }
{
    match c {
        '&' => Unit::Markup("&amp;"),
        '<' => Unit::Markup("&lt;"),
        '>' => Unit::Markup("&gt;"),
        '\r' => Unit::Markup("&#xD;"),
        _ => Unit::Char(c),
    }
}

/// A character of a value.
pub(crate) fn value_unit(c: char) -> Unit
    ensures { unit_bytes result ≡ value_bytes c }
{
    match c {
        '&' => Unit::Markup("&amp;"),
        '<' => Unit::Markup("&lt;"),
        '"' => Unit::Markup("&quot;"),
        '\t' => Unit::Markup("&#x9;"),
        '\n' => Unit::Markup("&#xA;"),
        '\r' => Unit::Markup("&#xD;"),
        _ => Unit::Char(c),
    }
}
