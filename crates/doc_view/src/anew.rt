// Whether the layout of one text is the same where something else is looked for, or where it is cut otherwise.
ghost use Rattle.std.specs.Prelude.{◌≡◌, ◌≤◌, take, IfOk};
ghost use Rattle.plain_screen.specs.SameLayout.{is_same_layout};
ghost use Rattle.doc_view.specs.Inner.{AreAlikeViews, line_left_of};
ghost use Rattle.doc_view.specs.Told.{IsTextLeft};
ghost use Rattle.doc_view.specs.View.{layout_in, pieces_in};

use crate::same::{earlier, found_apart, is_same_piece};
use crate::told::TextLeft;
use crate::view::ViewState;
use plain_screen::TextView;
use plain_text::NoMemory;
use std::alloc::Global;

impl ViewState {
    /// Whether the layouts of one text are the same: no line is read left of where matches, regions, styles or pieces are another.
    pub(crate) fn has_layout_anew(
        &self,
        alloc: Global,
        next: &ViewState,
        text: TextLeft,
    ) -> Result<bool, NoMemory>
        requires same { next.now.text ≡ self.now.text }
        requires text { IsTextLeft text self.now next.now }
        ensures { IfOk result (λ same. same ≡ is_same_layout (layout_in self.now) (layout_in next.now)) }
    {
        let gap = self.alike_on_text(next, text);
        let line = self.line_left_of(gap);
        let from = self.cut_alike_to(next, line);
        self.has_lines_from(alloc, next, from)
    }

    // A gap left of which both show the same on one text.
    fn alike_on_text(&self, next: &ViewState, text: TextLeft) -> u64
        requires same { next.now.text ≡ self.now.text }
        requires text { IsTextLeft text self.now next.now }
        ensures { AreAlikeViews result self.now next.now }
    {
        let shown = self.apart_from(next, text);
        let found = found_apart(self.matches(), next.matches());
        earlier(shown, found).unwrap_or(self.len())
    }

    // How many lines are cut alike in both, of those before this one.
    fn cut_alike_to(&self, next: &ViewState, line: u64) -> u64
        requires { next.now.text ≡ self.now.text }
        ensures inside { result ≤ line }
        ensures alike { take result (pieces_in self.now) ≡ take result (pieces_in next.now) }
    {
        if self.is_as_wide(next) {
            return line;
        }
        let index = self.line_index();
        let other = next.line_index();
        let mut at = 0;
        while at < line && is_same_piece(index.line(at), other.line(at)) {
            at += 1;
        }
        at
    }
}
