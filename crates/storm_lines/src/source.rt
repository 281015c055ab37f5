ghost use Rattle.std.specs.Prelude.{◌≡◌, ◌<◌, ◌∷◌, ◌-◌, ◌++◌, [], length, min, drop, IfSome, None, Some, map};
ghost use Rattle.outside.specs.Source.{Gives, IsPiece, pulled, filled, failures_after};
ghost use Rattle.outside.specs.Faults.{Rose};
ghost use Rattle.storm_lines.specs.Lines.{bytes_of_all, drawn_words, line_bytes, storm_line_of, storm_bytes};

use crate::line::StormLine;
use outside::{Pulled, Source};
use rand_core::SeedableRng;
use rand_core::utils::NextWord;
use rand_pcg::Lcg64Xsh32;
use std::marker::Model;

/// A storm as an input: each line is made as it is read, and none is kept. It never fails, waits for nobody and takes no memory.
///
/// A call gives bytes of one line alone.
#[derive(Drop)]
pub struct StormSource {
    draws: Draws,
    begun: Begun,
}

impl Model for StormSource {
    ghost use Rattle.std.specs.Prelude.{◌++◌, ℕ, List, map};
    ghost use Rattle.storm_lines.specs.Lines.{bytes_of_all, storm_line_of};

    ghost Value = { List ℕ };

    ghost view = { λ s. s.begun ++ bytes_of_all (map storm_line_of s.draws) };
}

impl StormSource {
    /// The lines of so many words of the generator with this seed, behind the one that opens a view.
    pub fn new(count: u32, seed: u64) -> StormSource
        ensures { result ≡ storm_bytes count seed }
    {
        StormSource {
            draws: Draws::new(count, seed),
            begun: Begun::new(StormLine::Opening),
        }
    }
}

impl Source for StormSource {
    ghost left = { λ s. Some s };

    ghost faults = { λ _. 0 };

    ghost failures = { λ _. 0 };

    fn read(&mut self, buf: &mut [u8]) -> Pulled {
        let count = self.begun.give(buf);
        if count > 0 {
            return Pulled::Got(count);
        }
        match self.draws.draw() {
            Some(word) => {
                self.begun = Begun::new(StormLine::of_word(word));
                Pulled::Got(self.begun.give(buf))
            }
            None => Pulled::End,
        }
    }
}

/// So many next words of a generator.
#[derive(Drop)]
struct Draws {
    words: Lcg64Xsh32,
    count: u32,
}

impl Model for Draws {
    ghost use Rattle.std.specs.Prelude.{ℕ, List};
    ghost use Rattle.rand_core.specs.Steps.{first_words};
    ghost use Rattle.rand_pcg.specs.Pcg.{pcg32};

    ghost Value = { List ℕ };

    ghost view = { λ d. first_words pcg32 d.count d.words };
}

impl Draws {
    fn new(count: u32, seed: u64) -> Draws
        ensures { result ≡ drawn_words count seed }
    {
        Draws {
            words: Lcg64Xsh32::seed_from_u64(seed),
            count,
        }
    }

    /// The next word, until there were so many.
    #[tactic(auto, using(crate::proofs::DrawLemmas::draws_none, crate::proofs::DrawLemmas::draws_next))]
    fn draw(&mut self) -> Option<u32>
        ensures some { IfSome result (λ word. self.old ≡ word ∷ self.new) }
        ensures none { result ≡ None → (self.old ≡ []) × (self.new ≡ []) }
    {
        if self.count == 0 {
            return None;
        }
        self.count -= 1;
        Some(self.words.next_word())
    }
}

/// A line of which the first bytes were given.
#[derive(Drop)]
struct Begun {
    line: StormLine,
    given: usize,
}

impl Model for Begun {
    ghost use Rattle.std.specs.Prelude.{ℕ, ◌≤◌, List, drop, length};
    ghost use Rattle.storm_lines.specs.Lines.{line_bytes};

    ghost Value = { List ℕ };

    ghost view = { λ b. drop b.given (line_bytes b.line) };

    ghost invariant = { λ b. b.given ≤ length (line_bytes b.line) };
}

impl Begun {
    fn new(line: StormLine) -> Begun
        ensures { result ≡ line_bytes line }
    {
        Begun { line, given: 0 }
    }

    /// Gives as many of the bytes that are left as there is room for.
    fn give(&mut self, buf: &mut [u8]) -> usize
        ensures count { result ≡ min (length buf.old) (length self.old) }
        ensures given { buf.new ≡ filled buf.old self.old result }
        ensures after { self.new ≡ drop result self.old }
    {
        let count = self.line.put(self.given, buf);
        self.given += count;
        count
    }
}
