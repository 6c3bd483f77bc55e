ghost use Rattle.std.specs.Prelude.{◌≡◌, ◌↔◌, IsTrue, IfOk, nat_lt};
ghost use Rattle.std.specs.Arc.{arc_value};
ghost use Rattle.ix_model.specs.Matching.Ranges.{AreApart, IsInRanges};
ghost use Rattle.ix_model.specs.Matching.SharedRanges.{ranges_of};

use sqlite_items::at;
use std::alloc::{AllocError, Global};
use std::marker::Model;
use std::sync::Arc;

/// The characters from `low` to `high`, both included, by their numbers.
#[derive(Clone, Copy, Debug, PartialEq, Eq, Hash)]
pub struct CharRange {
    pub low: u32,
    pub high: u32,
}

// The ranges of one set, or of several that are equal.
#[derive(Debug, Drop)]
enum Ranges {
    Own(Vec<CharRange>),
    Shared(Arc<Vec<CharRange>, Global>),
}

impl Ranges {
    fn as_slice(&self) -> &[CharRange]
        ensures { result.now ≡ ranges_of self.now }
    {
        match self {
            Ranges::Own(ranges) => ranges.as_slice(),
            Ranges::Shared(ranges) => ranges.as_slice(),
        }
    }
}

/// A set of characters: sorted ranges, with a gap between each two.
#[derive(Debug, Drop)]
pub struct CharSet {
    ranges: Ranges,
}

impl Model for CharSet {
    ghost use Rattle.std.specs.Prelude.{List};
    ghost use Rattle.ix_model.specs.declared.char_set.CharRange.{CharRange};
    ghost use Rattle.ix_model.specs.Matching.Ranges.{AreApart};
    ghost use Rattle.ix_model.specs.Matching.SharedRanges.{ranges_of};

    ghost Value = { List CharRange };

    ghost view = { λ s. ranges_of s.ranges };

    ghost invariant = { λ s. AreApart (ranges_of s.ranges) };
}

impl CharSet {
    /// The set of these ranges.
    pub fn of(ranges: Vec<CharRange>) -> CharSet
        requires { AreApart ranges.items }
        ensures { result ≡ ranges.items }
    {
        CharSet {
            ranges: Ranges::Own(ranges),
        }
    }

    /// The set of these ranges, which other sets may have too.
    pub fn of_shared(ranges: Arc<Vec<CharRange>, Global>) -> CharSet
        requires { AreApart (arc_value ranges).items }
        ensures { result ≡ (arc_value ranges).items }
    {
        CharSet {
            ranges: Ranges::Shared(ranges),
        }
    }

    /// The ranges of the set, for other sets to have too. An error is want of memory.
    pub fn into_shared(self, alloc: Global) -> Result<Arc<Vec<CharRange>, Global>, AllocError>
        ensures same { IfOk result (λ ranges. (arc_value ranges).items ≡ self) }
        ensures apart { AreApart self }
    {
        match self.ranges {
            Ranges::Own(ranges) => Ok(Arc::new(alloc, ranges)?),
            Ranges::Shared(ranges) => Ok(ranges),
        }
    }

    /// Whether some range holds the character.
    pub fn contains(&self, c: char) -> bool
        ensures { IsTrue result ↔ IsInRanges c self.now }
    {
        let c = c as u32;
        let ranges = self.ranges.as_slice();
        let before = ranges.partition_point(
            |range: &CharRange| -> bool
                ensures { result ≡ nat_lt range.now.high c }
            { range.high < c },
        );
        match at(ranges, before) {
            Some(range) => range.low <= c,
            None => false,
        }
    }
}

#[cfg(test)]
mod tests {
    use super::*;
    use std::test::Fail;

    #[test]
    fn set_holds_its_ranges(rt: HostRuntime) -> Result<(), Fail> {
        let digits = CharRange { low: 48, high: 57 };
        let letters = CharRange { low: 97, high: 122 };
        let set = CharSet::of(Vec::from_slice(rt.alloc(), &[digits, letters])?);
        for (c, held) in [
            ('/', false),
            ('0', true),
            ('9', true),
            (':', false),
            ('a', true),
            ('z', true),
            ('{', false),
        ] {
            assert_eq!(rt; set.contains(c), held, "at {c}");
        }
        Ok(())
    }

    #[test]
    fn equal_sets_share_their_ranges(rt: HostRuntime) -> Result<(), Fail> {
        let digits = CharRange { low: 48, high: 57 };
        let ranges = CharSet::of(Vec::from_slice(rt.alloc(), &[digits])?).into_shared(rt.alloc())?;
        let set = CharSet::of_shared(Arc::try_clone(&ranges)?);
        let other = CharSet::of_shared(ranges);
        assert!(rt; set.contains('7') && other.contains('7'));
        assert!(rt; !set.contains('a') && !other.contains('a'));
        Ok(())
    }
}
