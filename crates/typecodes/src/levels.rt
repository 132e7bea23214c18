//! The levels of an HSS key (RFC 8554 6).

ghost use Rattle.std.specs.Prelude.{◌≡◌, ◌≤◌, ◌↔◌, ◌∷◌, [], IsSome, IfSome, length};
ghost use Rattle.typecodes.specs.Levels.{AreLevels, IsLevelCount};

use crate::types::LmsPair;
use std::marker::Model;

/// The number of levels of an HSS key, 1 to 8 (RFC 8554 6.1).
#[derive(Clone, Copy, Debug, PartialEq, Eq)]
pub struct LevelCount {
    number: u8,
}

impl Model for LevelCount {
    ghost use Rattle.std.specs.Prelude.{ℕ};
    ghost use Rattle.typecodes.specs.Levels.{IsLevelCount};

    ghost Value = { ℕ };

    ghost view = { λ count. count.number };

    ghost invariant = { λ count. IsLevelCount count.number };

    ghost inverse = { λ n. record { number = n } };
}

impl LevelCount {
    /// `None` unless the number is 1 to 8.
    pub fn new(number: u8) -> Option<Self>
        ensures some_iff { IsSome result ↔ IsLevelCount number }
        ensures value { IfSome result (λ count. count ≡ number) }
    {
        if number == 0 || number > 8 {
            return None;
        }
        Some(LevelCount { number })
    }

    /// The number, 1 to 8.
    pub fn get(self) -> u8
        ensures value { result ≡ self }
        ensures at_least_1 { 1 ≤ result }
        ensures at_most_8 { result ≤ 8 }
    {
        self.number
    }
}

/// The types of an HSS key's levels, from the top down: 1 to 8 pairs.
#[derive(Debug, Drop)]
pub struct Levels {
    // pairs past the count repeat the first one
    pairs: [LmsPair; 8],
    count: u8,
}

impl Model for Levels {
    ghost use Rattle.std.specs.Prelude.{List, take};
    ghost use Rattle.typecodes.specs.Levels.{IsLevelCount};
    ghost use Rattle.typecodes.specs.declared.types.LmsPair.{LmsPair as Pair};

    ghost Value = { List Pair };

    ghost view = { λ levels. take levels.count levels.pairs };

    ghost invariant = { λ levels. IsLevelCount levels.count };
}

impl Levels {
    /// `None` unless there are 1 to 8 pairs.
    pub fn new(pairs: &[LmsPair]) -> Option<Self>
        ensures some_iff { IsSome result ↔ AreLevels pairs.now }
        ensures value { IfSome result (λ levels. levels ≡ pairs.now) }
    {
        let first = *pairs.first()?;
        if pairs.len() > 8 {
            return None;
        }
        let mut all = [first; 8];
        all[..pairs.len()].copy_from_slice(pairs);
        Some(Levels {
            pairs: all,
            count: pairs.len() as u8,
        })
    }

    /// A single level.
    pub fn one(pair: LmsPair) -> Self
        ensures { result ≡ pair ∷ [] }
    {
        Levels {
            pairs: [pair; 8],
            count: 1,
        }
    }

    /// The pairs, from the top level down.
    pub fn as_slice(&self) -> &[LmsPair]
        ensures value { result.now ≡ self.now }
        ensures non_empty { 1 ≤ length result.now }
        ensures at_most_8 { length result.now ≤ 8 }
    {
        &self.pairs[..usize::from(self.count)]
    }

    /// The number of levels.
    pub fn count(&self) -> LevelCount
        ensures { result ≡ length self.now }
    {
        LevelCount { number: self.count }
    }

    /// A copy.
    pub fn copied(&self) -> Self
        ensures { result ≡ self.now }
    {
        Levels {
            pairs: self.pairs,
            count: self.count,
        }
    }
}

impl PartialEq for Levels {
    ghost use Rattle.std.specs.Cmp.Lexicographic.{pointwise, lists_per};
    ghost use Rattle.typecodes.specs.contracts.types.LmsPairPartialEq.TheImpl.{ghosts};
    ghost use Rattle.typecodes.specs.contracts.types.LmsPairPartialEq.TheImpl.Laws.{laws-law};

    ghost eq = { pointwise ghosts.eq };

    ghost laws = { lists_per laws-law };

    fn eq(&self, other: &Self) -> bool {
        self.as_slice() == other.as_slice()
    }
}

impl Eq for Levels {
    ghost use Rattle.std.specs.Cmp.Lexicographic.{lists_equiv};
    ghost use Rattle.typecodes.specs.contracts.types.LmsPairEq.TheImpl.Laws.{laws-law};

    ghost laws = { lists_equiv laws-law };
}
