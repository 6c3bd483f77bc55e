//! Versions other than `1.0`.

ghost use Rattle.std.specs.Prelude.{◌≡◌, ◌↔◌, ℕ, List, IfErr, IsTrue, OnOk, Some, codes};
ghost use Rattle.ix_errors.specs.Breaches.{IsOfCode};

use crate::breach::Breach;
use ix_model::{Grammar, Text};
use std::alloc::Global;

/// Whether a version is `1.0`.
fn is_one(version: &Text) -> bool
    ensures { IsTrue result ↔ (version.now ≡ codes "1.0") }
{
    version.as_slice() == ['1', '.', '0'].as_slice()
}

/// G02: that the version is `1.0`, where there is one.
pub fn check_version(alloc: Global, grammar: &Grammar) -> Result<(), Breach>
    ensures ok { OnOk result ((text : List ℕ) → grammar.now.version ≡ Some text → text ≡ codes "1.0") }
    ensures err { IfErr result (IsOfCode 2 grammar.now) }
{
    match &grammar.version {
        None => Ok(()),
        Some(version) => {
            if is_one(version) {
                Ok(())
            } else {
                Err(Breach::Version(Text::from_slice(alloc, version.as_slice())?))
            }
        }
    }
}
