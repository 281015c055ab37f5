// What a view looks for, and which match a command selects.
ghost use Rattle.std.specs.Prelude.{◌≡◌, List, IfOk, Some};
ghost use Rattle.plain_text.specs.declared.selection.Region.{Region as RegionValue};
ghost use Rattle.match_index.specs.Found.{runs_in};
ghost use Rattle.doc_view.specs.Search.{end_of_regions, found_at, if_wraps, is_for_nothing, next_match, no_search, previous_match, search_for, start_of_regions, with_match};

use match_index::Matches;
use plain_text::{NoMemory, Region, Regions, Run, Sel, Text};
use rope_tree::Rope;
use std::alloc::Global;

/// What a view looks for: characters, and whether case counts. No characters are found nowhere.
#[derive(Drop)]
pub struct Search {
    pub chars: Text,
    pub case_counts: bool,
}

impl Search {
    /// The search of a view that was just opened.
    pub(crate) fn none(alloc: Global) -> Search
        ensures { result ≡ no_search }
    {
        Search {
            chars: Text::new(alloc),
            case_counts: true,
        }
    }

    /// The search for other characters, where case counts as before if nothing is said of it.
    pub(crate) fn for_chars(&self, chars: Text, case_counts: Option<bool>) -> Search
        ensures { result ≡ search_for self.now chars case_counts }
    {
        Search {
            chars,
            case_counts: case_counts.unwrap_or(self.case_counts),
        }
    }

    /// Whether it looks for no characters, which are found nowhere.
    pub(crate) fn is_for_nothing(&self) -> bool
        ensures { result ≡ is_for_nothing self.now }
    {
        self.chars.is_empty()
    }

    /// All matches in a text. This walks the text once, and copies a small part of it at a time; it does not read it where it looks for
    /// nothing.
    pub(crate) fn matches(&self, alloc: Global, text: &Rope) -> Result<Matches, NoMemory>
        ensures { IfOk result (λ made. made ≡ found_at text.now self.now) }
    {
        Matches::of_rope(alloc, text, &self.chars, !self.case_counts)
    }
}

/// The first match that starts not before the end of the regions; where there is none and it wraps around, the first of all.
pub(crate) fn next_match(
    matches: &Matches,
    wrap_around: Option<bool>,
    regions: &Regions,
) -> Option<Run>
    ensures { result ≡ next_match (runs_in matches.now) wrap_around regions.now }
{
    match matches.first_from(end_of_regions(regions)) {
        Some(found) => Some(found),
        None => if_wraps(wrap_around, matches.first_from(0)),
    }
}

/// The last match that ends not after the start of the regions; where there is none and it wraps around, the last of all.
pub(crate) fn previous_match(
    matches: &Matches,
    wrap_around: Option<bool>,
    regions: &Regions,
) -> Option<Run>
    ensures { result ≡ previous_match (runs_in matches.now) wrap_around regions.now }
{
    match matches.last_to(start_of_regions(regions)) {
        Some(found) => Some(found),
        None => if_wraps(wrap_around, matches.last_to(matches.rope().len())),
    }
}

/// The selection of a match.
pub(crate) fn selecting(alloc: Global, found: Run) -> Result<Sel, NoMemory>
    ensures { (regions : List RegionValue) → IfOk result (λ made. made.regions ≡ with_match regions (Some found)) }
{
    let mut regions = Regions::new(alloc);
    regions.push(Region {
        anchor: found.start,
        caret: found.end,
        goal: None,
    })?;
    Ok(Sel { regions })
}

// This match, where it wraps around.
fn if_wraps(wrap_around: Option<bool>, found: Option<Run>) -> Option<Run>
    ensures { result ≡ if_wraps wrap_around found }
{
    if wrap_around.unwrap_or(false) {
        return found;
    }
    None
}

// The greater end of the last region; 0 where there is none.
fn end_of_regions(regions: &Regions) -> u64
    ensures { result ≡ end_of_regions regions.now }
{
    match regions.as_slice().last() {
        Some(region) => region.anchor.max(region.caret),
        None => 0,
    }
}

// The lesser end of the first region; 0 where there is none.
fn start_of_regions(regions: &Regions) -> u64
    ensures { result ≡ start_of_regions regions.now }
{
    match regions.as_slice().first() {
        Some(region) => region.anchor.min(region.caret),
        None => 0,
    }
}
