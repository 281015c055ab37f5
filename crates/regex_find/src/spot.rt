ghost use Rattle.std.specs.Prelude.{◌≡◌, IfOk};
ghost use Rattle.regex_find.specs.Spots.{AreSpotsOfTexts};

use plain_text::{NoMemory, Runs, Text};

/// What looks for spots in texts: for runs of characters that rise, do not overlap and are not empty.
pub trait Spot: Drop {
    ghost use Rattle.std.specs.Prelude.{ℕ, List};
    ghost use Rattle.plain_text.specs.declared.run.Run.{Run};

    // the spots of each text
    ghost found_in: { Self → List ℕ → List Run };

    /// The spots of the text. Want of memory is its only error; what is found in which text does not change.
    fn spots(&mut self, text: &Text) -> Result<Runs, NoMemory>
        ensures found { IfOk result (λ runs. runs ≡ found_in self.old text.now) }
        ensures same { found_in self.new ≡ found_in self.old };

    ghost law: { AreSpotsOfTexts found_in };
}
