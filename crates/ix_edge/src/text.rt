ghost use Rattle.std.specs.Prelude.{◌≡◌, ◌≤◌, ℕ, length, IfOk, IsUtf8, Err};
ghost use Rattle.std.specs.Char.{IsScalar};
ghost use Rattle.std.specs.List.{AllByRecursion};
ghost use Rattle.std.specs.Str.{chars};
ghost use Rattle.std.specs.Str.Lossy.{utf8_valid_len};
ghost use Rattle.ix_model.specs.Answers.Decoding.{decoded};

use crate::TextFault;
use std::alloc::{AllocError, Global};

/// The characters of bytes in UTF-8. One leading U+FEFF is dropped.
///
/// `NotUtf8` comes exactly where the bytes are not UTF-8; it has the length of their longest front that is, in bytes.
pub fn decode(alloc: Global, bytes: &[u8]) -> Result<Vec<char>, TextFault>
    ensures text { IfOk result (λ _. IsUtf8 bytes.now) }
    ensures ok { IfOk result (λ v. v.items ≡ decoded bytes.now) }
    ensures scalars { IfOk result (λ v. AllByRecursion IsScalar v.items) }
    ensures few { IfOk result (λ v. length v.items ≤ length bytes.now) }
    ensures not_utf8 { (valid : ℕ) → result ≡ Err (TextFault.NotUtf8 valid) → ¬ (IsUtf8 bytes.now) × (valid ≡ utf8_valid_len bytes.now) }
{
    match str::from_utf8(bytes) {
        Ok(text) => Ok(without_mark(alloc, text)?),
        Err(error) => Err(TextFault::NotUtf8 {
            valid: error.valid_up_to() as u64,
        }),
    }
}

fn without_mark(alloc: Global, text: &str) -> Result<Vec<char>, AllocError>
    ensures { IfOk result (λ v. v.items ≡ decoded text.now) }
{
    let mut chars = characters_of(alloc, text)?;
    if chars.first() == Some(&'\u{FEFF}') {
        chars.remove(0);
    }
    Ok(chars)
}

fn characters_of(alloc: Global, text: &str) -> Result<Vec<char>, AllocError>
    ensures { IfOk result (λ v. v.items ≡ chars text.now) }
{
    text.chars().collect(alloc)
}
