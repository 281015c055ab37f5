ghost use Rattle.std.specs.Prelude.{◌≡◌};

use crate::spot::Spot;
use find_core::matches;
use plain_text::{NoMemory, Runs, Text};
use std::alloc::Global;
use std::marker::Model;

/// Looks for some characters as they stand, from the left, each match behind the end of the one before; no characters stand nowhere.
#[derive(Drop)]
pub struct LiteralSpot {
    alloc: Global,
    chars: Text,
}

impl Model for LiteralSpot {
    ghost use Rattle.std.specs.Prelude.{ℕ, List};

    ghost Value = { List ℕ };

    ghost view = { λ s. s.chars };
}

impl LiteralSpot {
    /// This takes no memory.
    pub fn of(alloc: Global, chars: Text) -> LiteralSpot
        ensures { result ≡ chars }
    {
        LiteralSpot { alloc, chars }
    }
}

impl Spot for LiteralSpot {
    ghost use Rattle.std.specs.Prelude.{false};
    ghost use Rattle.find_core.specs.Matches.{matches_of};
    ghost use Rattle.regex_find.specs.SpotLaws.{literal_law};

    ghost found_in = { λ chars text. matches_of text chars false };

    ghost law = { literal_law };

    /// It takes the time of the text and of the characters.
    fn spots(&mut self, text: &Text) -> Result<Runs, NoMemory> {
        matches(self.alloc, text, &self.chars, false)
    }
}
