ghost use Rattle.std.specs.Prelude.{◌≡◌, IfOk, IsTrue, ◌↔◌};

use std::alloc::{AllocError, Global};
use std::marker::Model;

/// A list of characters.
#[derive(Clone, Debug, Drop)]
pub struct Text {
    pub chars: Vec<char>,
}

impl Model for Text {
    ghost use Rattle.std.specs.Prelude.{List, ℕ};

    ghost Value = { List ℕ };

    ghost view = { λ t. t.chars.items };
}

impl Text {
    /// A copy of the characters.
    pub fn from_slice(alloc: Global, chars: &[char]) -> Result<Text, AllocError>
        ensures { IfOk result (λ t. t ≡ chars.now) }
    {
        Ok(Text {
            chars: Vec::from_slice(alloc, chars)?,
        })
    }

    /// The characters.
    pub fn as_slice(&self) -> &[char]
        ensures { result.now ≡ self.now }
    {
        &self.chars
    }

    /// Whether the two are the same characters.
    pub fn is_same(&self, other: &Text) -> bool
        ensures { IsTrue result ↔ (self.now ≡ other.now) }
    {
        self.chars == other.chars
    }
}

#[cfg(test)]
mod tests {
    use super::*;
    use std::test::Fail;

    #[test]
    fn text_keeps_characters(rt: HostRuntime) -> Result<(), Fail> {
        let text = Text::from_slice(rt.alloc(), &['n', 'é', '𝔸'])?;
        let shorter = Text::from_slice(rt.alloc(), &['n', 'é'])?;
        assert_eq!(rt; text.as_slice(), ['n', 'é', '𝔸'].as_slice());
        assert!(rt; text.is_same(&text.clone()?), "the same characters");
        assert!(rt; !text.is_same(&shorter), "one character less");
        assert!(rt; !shorter.is_same(&text), "one character more");
        Ok(())
    }
}
