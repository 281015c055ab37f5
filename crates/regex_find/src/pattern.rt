ghost use Rattle.std.specs.Prelude.{◌≡◌, IfOk};
ghost use Rattle.regex.specs.Strings.{matcher_pattern, regex_pattern};
ghost use Rattle.regex_find.specs.Pattern.{pattern_spots};

use crate::replacement::push_between;
use crate::spot::Spot;
use plain_text::{NoMemory, Runs, Text};
use regex::{Matcher, Regex};
use std::alloc::Global;

/// Looks for the matches of a pattern, from the left, each behind the end of the one before; an empty match is no spot.
#[derive(Drop)]
pub struct RegexSpot {
    alloc: Global,
    regex: Regex,
}

impl RegexSpot {
    ghost use Rattle.regex_find.specs.Pattern.{spot_pattern};

    /// This takes no memory: what a search needs is made in each call of `spots`, and let go there.
    pub fn of(alloc: Global, regex: Regex) -> RegexSpot
        ensures { spot_pattern result ≡ regex_pattern regex }
    {
        RegexSpot { alloc, regex }
    }
}

impl Spot for RegexSpot {
    ghost use Rattle.regex_find.specs.Pattern.{spot_pattern};
    ghost use Rattle.regex_find.specs.SpotLaws.{pattern_law};

    ghost found_in = { λ spot. pattern_spots (spot_pattern spot) };

    ghost law = { pattern_law };

    /// It takes the time of the search, and one walk over the text that counts characters. The tables of the search may take some tens
    /// of megabytes.
    fn spots(&mut self, text: &Text) -> Result<Runs, NoMemory> {
        let mut matcher = self.regex.matcher(self.alloc)?;
        spots_by(self.alloc, &mut matcher, text)
    }
}

/// The matches that are not empty, in characters.
fn spots_by(alloc: Global, matcher: &mut Matcher<'_>, text: &Text) -> Result<Runs, NoMemory>
    ensures { IfOk result (λ runs. runs ≡ pattern_spots (matcher_pattern matcher.old) text.now) }
{
    let mut runs = Runs::new(alloc);
    let mut place: u64 = 0;
    let mut gap: u64 = 0;
    for found in matcher.find_iter(text.as_str()) {
        let from = found.start() as u64;
        let to = found.end() as u64;
        let before = text.gaps_between(place, from);
        let within = text.gaps_between(from, to);
        let start = gap + before;
        let end = start + within;
        push_between(&mut runs, start, end)?;
        place = to;
        gap = end;
    }
    Ok(runs)
}
