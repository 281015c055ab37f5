ghost use Rattle.std.specs.Prelude.{◌≡◌, ℕ, ◌<◌, ◌↔◌, ◌∷◌, ◌++◌, [], IfOk, IfErr, IfSome, IfNone, slice_get, length, Some, None};
ghost use Rattle.std.specs.Option.{option_copied};
ghost use Rattle.case_table.specs.Table.{pieces};

use crate::places::Places;
use std::cmp::Ordering;
use std::marker::Model;

/// The index at which a text is no table: where the name is missing or not above the one before it, or, past the last
/// name, where text is left.
#[derive(Clone, Copy, Debug, PartialEq, Eq)]
pub struct BadCase(pub usize);

/// A table of `N` names, the rows of a dispatch, over one text.
#[derive(Drop)]
pub struct Cases<'a, const N: usize> {
    text: &'a str,
    places: Places<N>,
}

impl<'a, const N: usize> Model for Cases<'a, N> {
    ghost use Rattle.std.specs.Prelude.{ℕ, List};
    ghost use Rattle.case_table.specs.Table.{names_of};
    ghost use Rattle.case_table.specs.Places.{IsTable};

    ghost Value = { List (List ℕ) };

    ghost view = { λ s. names_of s.text.now };

    ghost invariant = { λ s. IsTable N s.text.now s.places };
}

impl<'a, const N: usize> Cases<'a, N> {
    ghost use Rattle.case_table.specs.Table.{names_of, text_of_names, bad_case, NamesRise};
    ghost use Rattle.case_table.specs.Places.{places_of};

    /// Reads a table from its text: `N` names that rise by their bytes, each followed by one space.
    pub fn new(text: &'a str) -> Result<Self, BadCase>
        ensures ok { IfOk result (λ _. bad_case N text.now ≡ None) }
        ensures bad { IfErr result (λ bad. bad_case N text.now ≡ Some bad.0) }
        ensures names { IfOk result (λ cases. cases ≡ names_of text.now) }
        ensures text { IfOk result (λ cases. text.now ≡ text_of_names cases) }
        ensures count { IfOk result (λ cases. length cases ≡ N) }
        ensures rising { IfOk result NamesRise }
    {
        let mut places = Places::new();
        let mut rest = text;
        let mut before = "";
        for row in 0..N {
            let Some((name, after)) = cut(rest) else {
                return Err(BadCase(row));
            };
            if row > 0 && name <= before {
                return Err(BadCase(row));
            }
            let start = text.len() - rest.len();
            places.set(row, (start, start + name.len()));
            before = name;
            rest = after;
        }
        if rest.is_empty() {
            Ok(Cases { text, places })
        } else {
            Err(BadCase(N))
        }
    }

    /// The table of a text whose names stand at these places: each from its first byte to past its last one. Nothing of the
    /// text is read.
    #[tactic(auto, using(crate::proofs::Standing::table_at_places))]
    pub fn standing(text: &'a str, places: [(usize, usize); N]) -> Self
        requires table { bad_case N text.now ≡ None }
        requires places { places ≡ places_of text.now }
        ensures names { result ≡ names_of text.now }
    {
        Cases {
            text,
            places: Places::of(places),
        }
    }

    /// The row of a name, by a binary search.
    pub fn find(&self, name: &str) -> Option<usize>
        ensures own { (row : ℕ) → (result ≡ Some row) ↔ (slice_get self.now row ≡ Some name.now) }
        ensures within { IfSome result (λ row. row < N) }
    {
        let mut low = 0;
        let mut high = self.len();
        while low < high {
            let middle = low + (high - low) / 2;
            match self.at(middle).cmp(name) {
                Ordering::Equal => return Some(middle),
                Ordering::Less => low = middle + 1,
                Ordering::Greater => high = middle,
            }
        }
        None
    }

    /// The name of a row.
    pub fn name(&self, row: usize) -> Option<&'a str>
        ensures { option_copied result ≡ slice_get self.now row }
    {
        if row < self.len() {
            Some(self.at(row))
        } else {
            None
        }
    }

    fn len(&self) -> usize
        ensures rows { result ≡ N }
        ensures names { result ≡ length self.now }
    {
        self.places.len()
    }

    fn at(&self, row: usize) -> &'a str
        requires { row < N }
        ensures name { slice_get self.now row ≡ Some result.now }
        ensures count { length self.now ≡ N }
        ensures rising { NamesRise self.now }
    {
        let (start, end) = self.places.get(row);
        &self.text[start..end]
    }
}

/// Cuts a text at its first space.
fn cut(text: &str) -> Option<(&str, &str)>
    ensures last { IfNone result (pieces text.now ≡ text.now ∷ []) }
    ensures first { IfSome result (λ parts. pieces text.now ≡ parts.0.now ∷ pieces parts.1.now) }
    ensures whole { IfSome result (λ parts. text.now ≡ parts.0.now ++ 32 ∷ parts.1.now) }
{
    text.split_once(' ')
}
