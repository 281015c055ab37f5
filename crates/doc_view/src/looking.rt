// Lines of a front end that leave the text as it is: what a view makes of them, and where the front end scrolls.
ghost use Rattle.std.specs.Prelude.{◌≡◌, ◌+◌, ◌≤◌, if◌then◌else◌, None, IfOk, option_map};
ghost use Rattle.doc_layout.specs.PositionView.{position_view};
ghost use Rattle.doc_layout.specs.Told.{scroll_between};
ghost use Rattle.doc_view.specs.Looking.{IsViewingOf, MayView, copies, is_scrolling, scrolls, scrolls_at, viewed, viewed_lines, viewing_ticks};
ghost use Rattle.doc_view.specs.View.{point_in};

use crate::view::ViewState;
use doc_layout::scroll_of;
use plain_text::{NoMemory, Run, Steps, Text};
use std::alloc::Global;
use std::sync::ledger::Ledger;
use xi_plain::{Config, EditAct};

/// What is requested where no lines are.
pub const NO_REQUEST: Run = Run { start: 0, end: 0 };

/// What a line does that leaves the text as it is, and ends the run of typing.
#[derive(Drop)]
pub enum Viewing {
    /// The front end shows these lines.
    Window(Run),
    /// It requests these lines.
    Lines(Run),
    /// It looks for these characters, and says whether case counts, or nothing of it.
    Seek(Text, Option<bool>),
    /// The next match is selected, if there is one.
    Next(Option<bool>),
    /// The previous match is selected, if there is one.
    Previous(Option<bool>),
    /// The text is laid out and edited so from now on.
    Layout(Config),
    /// The line is no command of this document.
    Other,
}

/// Where the front end scrolls.
#[derive(Clone, Copy)]
pub enum Scrolling {
    /// To the last caret, where that stands elsewhere than before.
    ToCaret,
    Nowhere,
}

impl ViewState {
    /// What such a line makes of the view, at the cost of that step. A logical line that is broken anew is a step.
    pub fn viewed<L: Ledger>(
        &self,
        alloc: Global,
        viewing: Viewing,
        steps: &mut Steps<L>,
    ) -> Result<ViewState, NoMemory>
        requires { MayView viewing }
        ensures is { IfOk result (λ made. made ≡ viewed self.now viewing) }
        ensures steps { steps.new ≤ steps.old + viewing_ticks self.now viewing }
    {
        match viewing {
            Viewing::Window(lines) => self.scrolled(alloc, lines),
            Viewing::Lines(_) => self.without_goals(alloc),
            Viewing::Seek(chars, case_counts) => self.seeking(alloc, chars, case_counts),
            Viewing::Next(wrap_around) => self.at_next(alloc, wrap_around),
            Viewing::Previous(wrap_around) => self.at_previous(alloc, wrap_around),
            Viewing::Layout(config) => self.with_config(alloc, config, steps),
            Viewing::Other => self.copy(),
        }
    }

    /// Where the last caret stands in the view after this one, where that is asked and it is another place on the layout than before.
    pub fn scroll_to(&self, next: &ViewState, asked: Scrolling) -> Option<(u64, u64)>
        ensures { option_map position_view result
            ≡ (if is_scrolling asked then scroll_between (point_in self.now) (point_in next.now) else None) }
    {
        match asked {
            Scrolling::Nowhere => None,
            Scrolling::ToCaret => scroll_of(self.point(), next.point()),
        }
    }
}

/// The command as one that only looks, or the same command where it does more.
pub fn viewing_of(act: EditAct) -> Result<Viewing, EditAct>
    ensures { IsViewingOf act result }
{
    match act {
        EditAct::Scroll { first, last } => Ok(Viewing::Window(lines_of(first, last))),
        EditAct::RequestLines { first, last } => Ok(Viewing::Lines(lines_of(first, last))),
        EditAct::Find {
            chars,
            case_sensitive,
            ..
        } => Ok(Viewing::Seek(chars, case_sensitive)),
        EditAct::FindNext { wrap_around, .. } => Ok(Viewing::Next(wrap_around)),
        EditAct::FindPrevious { wrap_around, .. } => Ok(Viewing::Previous(wrap_around)),
        act => Err(act),
    }
}

fn lines_of(first: u64, last: u64) -> Run
    ensures { result ≡ record { start = first; end = last } }
{
    Run {
        start: first,
        end: last,
    }
}

/// The lines that such a line requests.
pub fn viewed_lines(viewing: &Viewing) -> Run
    ensures { result ≡ viewed_lines viewing.now }
{
    match viewing {
        Viewing::Lines(lines) => *lines,
        _ => NO_REQUEST,
    }
}

/// Whether the front end scrolls at such a line: not where nothing is shown or sought.
pub fn scrolls_at(viewing: &Viewing) -> Scrolling
    ensures { is_scrolling result ≡ scrolls_at viewing.now }
{
    match viewing {
        Viewing::Layout(_) => Scrolling::Nowhere,
        Viewing::Other => Scrolling::Nowhere,
        _ => Scrolling::ToCaret,
    }
}

/// Where the front end scrolls after a command.
pub fn scrolls(act: &EditAct) -> Scrolling
    ensures { is_scrolling result ≡ scrolls act.now }
{
    match act {
        EditAct::SelectAll => Scrolling::Nowhere,
        _ => Scrolling::ToCaret,
    }
}

/// Whether a command copies.
pub fn copies(act: &EditAct) -> bool
    ensures { result ≡ copies act.now }
{
    match act {
        EditAct::Cut => true,
        EditAct::Copy => true,
        _ => false,
    }
}
