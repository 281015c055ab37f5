ghost use Rattle.std.specs.Prelude.{[], ◌∷◌};
ghost use Rattle.plugin_session.specs.Turn.{TellsMore, turn_had};

use xi_plain::{Text, Texts};

/// What a plugin gives in a turn.
#[derive(Drop)]
pub struct Turn {
    /// The lines that it asks, without their LF.
    pub lines: Texts,
    /// Whether it wants no further turn.
    pub done: bool,
}

/// What is given lines in turns.
pub trait Plugin: Drop {
    ghost use Rattle.std.specs.Prelude.{List, Option};
    ghost use Rattle.plugin_session.specs.Turn.{Turned};

    /// Its turns so far, where it tells them. It may stop telling them, and never starts again.
    ghost told: { Self → Option (List Turned) };

    /// Has a turn with these lines, which have no LF.
    fn turn(&mut self, lines: &[Text]) -> Turn
        ensures { TellsMore (told self.old) (told self.new) (turn_had lines.now result ∷ []) };
}

impl Plugin for Box<dyn Plugin + Send> {
    ghost told = { λ b. (Plugin-box b).told b.value };

    fn turn(&mut self, lines: &[Text]) -> Turn {
        (**self).turn(lines)
    }
}
