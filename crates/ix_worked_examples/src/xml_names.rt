ghost use Rattle.std.specs.Prelude.{◌≡◌, ℕ, [], ◌∷◌, true, false, codes};
ghost use Rattle.ix_model.specs.Documents.XmlNames.{is_xml_name_start, is_xml_name_char, is_xml_char, is_xml_name};
ghost use Rattle.ix_worked_examples.specs.Ends.{HasEnds};

/// Where each range of characters that begin a name of XML begins and ends.
pub fn beginnings_of_names()
    ensures colon { HasEnds is_xml_name_start 0x39 0x3A 0x3A 0x3B }
    ensures capitals { HasEnds is_xml_name_start 0x40 0x41 0x5A 0x5B }
    ensures low_line { HasEnds is_xml_name_start 0x5E 0x5F 0x5F 0x60 }
    ensures small_letters { HasEnds is_xml_name_start 0x60 0x61 0x7A 0x7B }
    ensures accents { HasEnds is_xml_name_start 0xBF 0xC0 0xD6 0xD7 }
    ensures behind_times { HasEnds is_xml_name_start 0xD7 0xD8 0xF6 0xF7 }
    ensures behind_division { HasEnds is_xml_name_start 0xF7 0xF8 0x2FF 0x300 }
    ensures greek { HasEnds is_xml_name_start 0x36F 0x370 0x37D 0x37E }
    ensures behind_question { HasEnds is_xml_name_start 0x37E 0x37F 0x1FFF 0x2000 }
    ensures joiners { HasEnds is_xml_name_start 0x200B 0x200C 0x200D 0x200E }
    ensures superscripts { HasEnds is_xml_name_start 0x206F 0x2070 0x218F 0x2190 }
    ensures glagolitic { HasEnds is_xml_name_start 0x2BFF 0x2C00 0x2FEF 0x2FF0 }
    ensures kana { HasEnds is_xml_name_start 0x3000 0x3001 0xD7FF 0xD800 }
    ensures compatibility { HasEnds is_xml_name_start 0xF8FF 0xF900 0xFDCF 0xFDD0 }
    ensures presentation { HasEnds is_xml_name_start 0xFDEF 0xFDF0 0xFFFD 0xFFFE }
    ensures planes { HasEnds is_xml_name_start 0xFFFF 0x10000 0xEFFFF 0xF0000 }
    ensures none { is_xml_name_start 0 ≡ false }
{}

/// Where each range of the further characters in a name of XML begins and ends, but where a character beside it begins a name.
pub fn insides_of_names()
    ensures hyphen_and_stop { HasEnds is_xml_name_char 0x2C 0x2D 0x2E 0x2F }
    ensures middle_dot { HasEnds is_xml_name_char 0xB6 0xB7 0xB7 0xB8 }
    ensures ties { HasEnds is_xml_name_char 0x203E 0x203F 0x2040 0x2041 }
    ensures digits { HasEnds is_xml_name_char 0x2F 0x30 0x39 0x3B }
    ensures first_mark { is_xml_name_char 0x300 ≡ true }
    ensures last_mark { is_xml_name_char 0x36F ≡ true }
    ensures no_digit { is_xml_name_start 0x30 ≡ false }
    ensures no_ninth_digit { is_xml_name_start 0x39 ≡ false }
    ensures no_first_mark { is_xml_name_start 0x300 ≡ false }
    ensures no_last_mark { is_xml_name_start 0x36F ≡ false }
    ensures no_hyphen { is_xml_name_start 0x2D ≡ false }
    ensures no_stop { is_xml_name_start 0x2E ≡ false }
    ensures no_tie { is_xml_name_start 0x203F ≡ false }
    ensures no_other_tie { is_xml_name_start 0x2040 ≡ false }
    ensures letter { is_xml_name_char 0xC0 ≡ true }
    ensures question { is_xml_name_char 0x37E ≡ false }
    ensures plane { is_xml_name_char 0xEFFFF ≡ true }
{}

/// Where each range of the characters of XML begins and ends.
pub fn characters()
    ensures tab_and_line_feed { HasEnds is_xml_char 0x8 0x9 0xA 0xB }
    ensures carriage_return { HasEnds is_xml_char 0xC 0xD 0xD 0xE }
    ensures first_plane { HasEnds is_xml_char 0x1F 0x20 0xD7FF 0xD800 }
    ensures behind_surrogates { HasEnds is_xml_char 0xDFFF 0xE000 0xFFFD 0xFFFE }
    ensures planes { HasEnds is_xml_char 0xFFFF 0x10000 0x10FFFF 0x110000 }
    ensures zero { is_xml_char 0 ≡ false }
{}

/// A name has its first character by one test, and all others by another.
pub fn whole_names()
    ensures further { is_xml_name (codes "a-.0") ≡ true }
    ensures last { is_xml_name (codes "ab ") ≡ false }
    ensures middle { is_xml_name (codes "a b") ≡ false }
    ensures first { is_xml_name (codes "-a") ≡ false }
    ensures start_alone { is_xml_name (codes "a") ≡ true }
    ensures further_alone { is_xml_name (codes ".") ≡ false }
    ensures nothing { is_xml_name [] ≡ false }
{}
