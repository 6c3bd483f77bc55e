//! What the walk reads.

ghost use Rattle.std.specs.Prelude.{◌≡◌, ◌^◌, ◌<◌, length};
ghost use Rattle.ix_model.specs.Grammars.Names.{names_of};

use ix_model::{Grammar, Names};
use std::alloc::{AllocError, Global};

/// A grammar, and its rules by their names.
#[derive(Drop)]
pub struct Source<'g> {
    pub grammar: &'g Grammar,
    pub names: Names<'g>,
    ghost named: { names ≡ names_of grammar.now.rules },
    ghost few: { length grammar.now.rules < 2 ^ 32 },
}

impl<'g> Source<'g> {
    ghost use Rattle.std.specs.Prelude.{IfOk};
    ghost use Rattle.ix_model.specs.Grammars.Breach.{IsDefined};
    ghost use Rattle.ix_model.specs.Grammars.Written.{IsNamed};

    pub fn of(alloc: Global, grammar: &'g Grammar) -> Result<Source<'g>, AllocError>
        requires { length grammar.now.rules < 2 ^ 32 }
        ensures { IfOk result (λ source. source.grammar.now ≡ grammar.now) }
    {
        let names = Names::of(alloc, grammar.rules.as_slice())?;
        Ok(Source { grammar, names })
    }

    /// The number of the rule with the name.
    pub fn rule_named(&self, name: &[char]) -> u32
        requires { IsDefined self.now.grammar.now name.now }
        ensures { IsNamed self.now.grammar.now result name.now }
    {
        self.names.first(name).unwrap() as u32
    }
}
