/// What keeps a derivation from being a document. Its code is the least that holds, and its item is the first in document order: an
/// element's name, its attributes in their order, each with its name and its value, and then its content. `name` is the number of a
/// name among the names of the rules, counted from 0.
#[derive(Clone, Copy, Debug, PartialEq, Eq)]
pub enum DynRefusal {
    /// E01: an attribute stands in no element. It is the first such attribute.
    AttributeAtTop { name: u32 },
    /// E02: not exactly one element stands in no other, or a character stands in none. `elements` are those that stand in no other,
    /// and `chars` are the characters that stand in none; runs are not counted, but their characters.
    NotOneElement { elements: u64, chars: u64 },
    /// E03: the name of an element or attribute is no name of XML. It is the first such name.
    BadName { name: u32 },
    /// E04: an attribute has the name `xmlns`.
    Xmlns,
    /// E05: an element has two attributes of one name. It is the first such element, and its first attribute whose name an earlier
    /// one has.
    SameAttribute { name: u32 },
    /// E06: a character of the content or of a value is no character of XML. `code` is the number of the first such character.
    BadChar { code: u32 },
}
