ghost use Rattle.std.specs.Prelude.{◌≡◌, ◌+◌, ◌≤◌, ◌<◌, ◌^◌, true, [], ◌∷◌, length, map, take, None, Some, IfOk, IfSome};
ghost use Rattle.std.specs.Arc.{arc_value};
ghost use Rattle.std.specs.Str.{all_scalars};
ghost use Rattle.plain_edits.specs.UnitDelta.{IsUnitDelta};
ghost use Rattle.line_index.specs.Index.{touched_lines};
ghost use Rattle.edit_ops.specs.Commands.{IsDoneOnText, IsEffect, copied_text, effect_of};
ghost use Rattle.edit_ops.specs.Regions.{without_goal};
ghost use Rattle.selection_core.specs.Mapped.{AreWithin, length_after};
ghost use Rattle.selection_core.specs.Selection.{IsSelection, caret_of, last_caret};
ghost use Rattle.span_styles.specs.Layers.{AreApartFrom, AreOver, mapped_layers, new_layers};
ghost use Rattle.plain_screen.specs.SameLayout.{is_same_layout};
ghost use Rattle.doc_layout.specs.Changed.{IsChangeOf};
ghost use Rattle.doc_layout.specs.Found.{MayShow};
ghost use Rattle.doc_layout.specs.PositionView.{position_view};
ghost use Rattle.doc_layout.specs.Told.{planned};
ghost use Rattle.doc_view.specs.Moved.{AreMoved};
ghost use Rattle.doc_view.specs.Search.{found_at, next_found, no_search, previous_found, search_for, with_match};
ghost use Rattle.doc_view.specs.Inner.{AreAlikeViews, IsShownApart, first_line_left_of, has_last_caret, index_at, is_told_apart, line_left_of};
ghost use Rattle.doc_view.specs.Told.{IsKeptLeftOf, IsTextLeft, has_asked, is_cut_alike, is_lacking, settled_view, told};
ghost use Rattle.doc_view.specs.View.{asked_in, config_ticks, has_same_widths, layout_in, pieces_in, point_in};

use crate::indexed::{edited_index, first_index, index_of};
use crate::moved::Goals;
use crate::same::{earlier, ends_apart, has_caret, has_goal, is_same_search};
use crate::search::{Search, next_match, previous_match, selecting};
use crate::told::{Pristine, TextLeft};
use doc_layout::{Asked, Shown, is_same_layout, update_of};
use edit_ops::{copied, edit_of};
use line_index::LineIndex;
use match_index::Matches;
use match_index::laws::fronts_stay;
use plain_edits::UnitDelta;
use plain_screen::{TextView, Update};
use plain_text::{NoMemory, Region, Regions, Run, Sel, Steps, Text};
use rope_tree::Rope;
use selection_core::Selection;
use span_styles::Layers;
use std::alloc::Global;
use std::marker::Model;
use std::sync::Arc;
use std::sync::ledger::Ledger;
use xi_plain::{Config, EditAct};

/// What a document keeps for a view on its head text: no line of its layout, and no text but the rope. Copies share the lines' index, regions,
/// styles, results and search.
#[derive(Drop)]
pub struct ViewState {
    /// How the text is cut into pieces, and edited.
    config: Config,
    /// The text, and where its pieces stand.
    index: Arc<LineIndex, Global>,
    sel: Arc<Sel, Global>,
    /// The styles that each plugin gave the characters of the text.
    layers: Arc<Layers, Global>,
    query: Arc<Search, Global>,
    /// All that the search finds in the text.
    found: Arc<Matches, Global>,
    /// The lines of the layout that are shown.
    window: Run,
    /// The lines that were asked for at the last update, if there was one. These its front end has.
    shown: Option<Asked>,
}

impl Model for ViewState {
    ghost use Rattle.std.specs.Arc.{arc_value};
    ghost use Rattle.doc_view.specs.Inner.{IsViewKept};
    ghost use Rattle.doc_view.specs.View.{View};

    ghost Value = { View };

    ghost view = { λ v. record {
      text = (arc_value v.index).text;
      config = v.config;
      regions = (arc_value v.sel).regions;
      layers = arc_value v.layers;
      window = v.window;
      query = arc_value v.query;
      shown = v.shown;
    } };

    ghost invariant = { λ v.
        IsViewKept v.config (arc_value v.index) (arc_value v.sel).regions (arc_value v.query) (arc_value v.found) };
}

impl ViewState {
    /// The view of a text that its front end was told nothing of: one caret, at the start, no style from any of so many plugins, and no
    /// search. It costs O(1) where no line is wrapped, and else the breaks of each.
    pub fn of_text(
        alloc: Global,
        text: &Rope,
        plugins: u32,
        window: Run,
        config: Config,
    ) -> Result<ViewState, NoMemory>
        requires tab { 0 < config.tab }
        ensures { IfOk result (λ made. made ≡ record {
          text = text.now;
          config = config;
          regions = caret_of 0 ∷ [];
          layers = new_layers plugins (length text.now);
          window = window;
          query = no_search;
          shown = None;
        }) }
    {
        let characters = text.len();
        let unstyled = Layers::new(alloc, plugins, characters)?;
        let caret = Sel::caret_at(alloc, 0)?;
        let search = Search::none(alloc);
        let nothing = search.matches(alloc, text)?;
        let index = first_index(alloc, text, config)?;
        let sel = Arc::new(alloc, caret)?;
        let layers = Arc::new(alloc, unstyled)?;
        let query = Arc::new(alloc, search)?;
        let found = Arc::new(alloc, nothing)?;
        Ok(ViewState {
            config,
            index,
            sel,
            layers,
            query,
            found,
            window,
            shown: None,
        })
    }

    /// The view of the text after an edit, of which the rope is that text, with other regions: what is kept keeps its styles, and what is
    /// added has none. It costs the lines that the edit touches and the height of the text, the runs of styles, and where something is looked
    /// for a search round what is edited.
    pub fn edited<L: Ledger>(
        &self,
        alloc: Global,
        text: &Rope,
        units: &UnitDelta,
        sel: Sel,
        steps: &mut Steps<L>,
    ) -> Result<ViewState, NoMemory>
        requires changes { IsChangeOf self.now.text text.now units.now }
        requires over { AreOver (length self.now.text) self.now.layers }
        requires sound { IsSelection sel.regions }
        requires inside { AreWithin (length text.now) sel.regions }
        ensures made { IfOk result (λ made. made ≡ record self.now {
          text = text.now;
          regions = sel.regions;
          layers = mapped_layers units.now self.now.layers;
        }) }
        ensures ticks { steps.new ≤ steps.old + touched_lines units.now self.now.text }
    {
        let _characters = text.len();
        let mapped = self.layers().map(alloc, units)?;
        let results = self.matches().edited(alloc, text, units)?;
        let sel = Arc::new(alloc, sel)?;
        let layers = Arc::new(alloc, mapped)?;
        let query = Arc::try_clone(&self.query)?;
        let found = Arc::new(alloc, results)?;
        let index = edited_index(alloc, self.line_index(), text, units, steps)?;
        Ok(ViewState {
            config: self.config,
            index,
            sel,
            layers,
            query,
            found,
            window: self.window,
            shown: self.shown,
        })
    }

    /// The view of the same text with other styles, in O(1).
    pub fn with_layers(&self, alloc: Global, layers: Layers) -> Result<ViewState, NoMemory>
        ensures { IfOk result (λ made. made ≡ record self.now { layers = layers }) }
    {
        let mut view = self.copy()?;
        view.layers = Arc::new(alloc, layers)?;
        Ok(view)
    }

    /// The view of the same text with other regions, in O(1).
    pub fn with_regions(&self, alloc: Global, sel: Sel) -> Result<ViewState, NoMemory>
        requires sound { IsSelection sel.regions }
        requires inside { AreWithin (length self.now.text) sel.regions }
        ensures { IfOk result (λ made. made ≡ record self.now { regions = sel.regions }) }
    {
        let mut view = self.copy()?;
        view.sel = Arc::new(alloc, sel)?;
        Ok(view)
    }

    /// The view for another configuration, with its regions, their goals too. Where width or tab width is another this costs the breaks of
    /// each line that is wrapped, and else it takes O(1).
    pub fn with_config<L: Ledger>(
        &self,
        alloc: Global,
        config: Config,
        steps: &mut Steps<L>,
    ) -> Result<ViewState, NoMemory>
        requires tab { 0 < config.tab }
        ensures made { IfOk result (λ made. made ≡ record self.now { config = config }) }
        ensures ticks { steps.new ≤ steps.old + config_ticks self.now config }
    {
        if self.is_cut_by(config) {
            let view = self.copy()?;
            return Ok(view.edited_by(config));
        }
        let sel = Arc::try_clone(&self.sel)?;
        let layers = Arc::try_clone(&self.layers)?;
        let query = Arc::try_clone(&self.query)?;
        let found = Arc::try_clone(&self.found)?;
        let index = index_of(alloc, self.rope(), config, steps)?;
        Ok(ViewState {
            config,
            index,
            sel,
            layers,
            query,
            found,
            window: self.window,
            shown: self.shown,
        })
    }

    // The same view for a configuration that lays it out alike.
    fn edited_by(self, config: Config) -> ViewState
        requires tab { config.tab ≡ self.config.tab }
        requires width { config.width ≡ self.config.width }
        ensures { result ≡ record self { config = config } }
    {
        let mut view = self;
        view.config = config;
        view
    }

    /// The view without the goals of its regions, which it shares where none has one; in the time of the regions.
    pub fn without_goals(&self, alloc: Global) -> Result<ViewState, NoMemory>
        ensures { IfOk result (λ made. made ≡ record self.now { regions = map without_goal self.now.regions }) }
    {
        let sel = self.selection();
        if !has_goal(sel.regions.as_slice()) {
            return self.copy();
        }
        let mut view = self.copy()?;
        view.sel = Arc::new(alloc, without_goals(alloc, sel)?)?;
        Ok(view)
    }

    /// The view that shows other lines, without the goals of its regions, in the time of the regions. The lines may lie past the text.
    pub fn scrolled(&self, alloc: Global, window: Run) -> Result<ViewState, NoMemory>
        ensures { IfOk result (λ made.
            made ≡ record self.now { regions = map without_goal self.now.regions; window = window }) }
    {
        Ok(self.without_goals(alloc)?.with_window(window))
    }

    /// The view that looks for other characters, where case counts as before if nothing is said of it, without the goals of its regions.
    /// This walks the text; for no characters it does not read it.
    pub fn seeking(
        &self,
        alloc: Global,
        chars: Text,
        case_counts: Option<bool>,
    ) -> Result<ViewState, NoMemory>
        ensures { IfOk result (λ made. made ≡ record self.now {
          regions = map without_goal self.now.regions;
          query = search_for self.now.query chars case_counts;
        }) }
    {
        let search = self.sought().for_chars(chars, case_counts);
        let results = search.matches(alloc, self.rope())?;
        let plain = without_goals(alloc, self.selection())?;
        let index = Arc::try_clone(&self.index)?;
        let sel = Arc::new(alloc, plain)?;
        let layers = Arc::try_clone(&self.layers)?;
        let query = Arc::new(alloc, search)?;
        let found = Arc::new(alloc, results)?;
        Ok(ViewState {
            config: self.config,
            index,
            sel,
            layers,
            query,
            found,
            window: self.window,
            shown: self.shown,
        })
    }

    /// The view with the next match of its search selected, if there is one, in O(log n).
    pub fn at_next(&self, alloc: Global, wrap_around: Option<bool>) -> Result<ViewState, NoMemory>
        ensures { IfOk result (λ made. made ≡ record self.now {
          regions = next_found self.now.text self.now.query wrap_around self.now.regions;
        }) }
    {
        let found = next_match(self.matches(), wrap_around, &self.sel.regions);
        self.with_match(alloc, found)
    }

    /// The same with the previous match.
    pub fn at_previous(
        &self,
        alloc: Global,
        wrap_around: Option<bool>,
    ) -> Result<ViewState, NoMemory>
        ensures { IfOk result (λ made. made ≡ record self.now {
          regions = previous_found self.now.text self.now.query wrap_around self.now.regions;
        }) }
    {
        let found = previous_match(self.matches(), wrap_around, &self.sel.regions);
        self.with_match(alloc, found)
    }

    // All matches of its search.
    pub(crate) fn matches(&self) -> &Matches
        ensures { result.now ≡ found_at self.now.text self.now.query }
    {
        &self.found
    }

    // The view with a match selected, if there is one.
    fn with_match(&self, alloc: Global, found: Option<Run>) -> Result<ViewState, NoMemory>
        requires { IfSome found (λ run. (run.start < run.end) × (run.end ≤ length self.now.text)) }
        ensures { IfOk result (λ made. made ≡ record self.now { regions = with_match self.now.regions found }) }
    {
        match found {
            Some(run) => self.with_regions(alloc, selecting(alloc, run)?),
            None => self.copy(),
        }
    }

    fn with_window(self, window: Run) -> ViewState
        ensures { result ≡ record self { window = window } }
    {
        let mut view = self;
        view.window = window;
        view
    }

    /// A second view that shows the same, in O(1).
    pub fn copy(&self) -> Result<ViewState, NoMemory>
        ensures { IfOk result (λ made. made ≡ self.now) }
    {
        Ok(ViewState {
            config: self.config,
            index: Arc::try_clone(&self.index)?,
            sel: Arc::try_clone(&self.sel)?,
            layers: Arc::try_clone(&self.layers)?,
            query: Arc::try_clone(&self.query)?,
            found: Arc::try_clone(&self.found)?,
            window: self.window,
            shown: self.shown,
        })
    }

    /// How many lines the layout has, in O(1).
    pub fn lines(&self) -> u64
        ensures { result ≡ length (layout_in self.now) }
    {
        self.line_index().lines()
    }

    // The index of the text's lines.
    pub(crate) fn line_index(&self) -> &LineIndex
        ensures is { result.now ≡ index_at self.now.text self.now.config }
        ensures characters { all_scalars self.now.text ≡ true }
        ensures tab { 0 < self.now.config.tab }
    {
        &self.index
    }

    // The text.
    fn rope(&self) -> &Rope
        ensures is { result.now ≡ self.now.text }
        ensures characters { all_scalars self.now.text ≡ true }
    {
        self.line_index().rope()
    }

    // The regions.
    fn selection(&self) -> &Sel
        ensures regions { result.now.regions ≡ self.now.regions }
        ensures sound { IsSelection self.now.regions }
        ensures inside { AreWithin (length self.now.text) self.now.regions }
    {
        &self.sel
    }

    // What is looked for.
    fn sought(&self) -> &Search
        ensures { result.now ≡ self.now.query }
    {
        &self.query
    }

    /// The styles that each plugin gave the characters of the text.
    pub fn layers(&self) -> &Layers
        ensures { result.now ≡ self.now.layers }
    {
        &self.layers
    }

    /// The place of the last region's caret: a line, from 0, and an offset in it in bytes. It costs the height of the text.
    pub fn point(&self) -> (u64, u64)
        ensures { position_view result ≡ point_in self.now }
    {
        match self
            .line_index()
            .locate(last_caret(&self.selection().regions))
        {
            Some(point) => point,
            None => unreachable!(),
        }
    }

    /// What a command does: its edit in characters, and the regions after it.
    pub fn effect(&self, alloc: Global, act: &EditAct) -> Result<(UnitDelta, Sel), NoMemory>
        requires act { IsDoneOnText act.now }
        ensures { IfOk result (λ made. IsEffect self.now.text
            (effect_of self.now.config self.now.text (pieces_in self.now) self.now.regions act.now) made.0 made.1.regions) }
    {
        edit_of(
            alloc,
            self.line_index(),
            self.selection(),
            act,
            &self.config,
        )
    }

    /// The texts of the regions that are no carets, with an LF between each two.
    pub fn copied(&self, alloc: Global) -> Result<Text, NoMemory>
        ensures { IfOk result (λ text. text ≡ copied_text self.now.text self.now.regions) }
    {
        copied(alloc, self.line_index(), self.selection())
    }

    /// The regions after an edit that no command made, with their goals or without. Each end stays left of the character right of it;
    /// `after` the edit, it stays right of the character left of it.
    pub fn moved(
        &self,
        alloc: Global,
        units: &UnitDelta,
        after: bool,
        goals: Goals,
    ) -> Result<Sel, NoMemory>
        requires base { units.now.base ≡ length self.now.text }
        requires well_formed { IsUnitDelta units.now }
        requires bound { length_after units.now < 2 ^ 64 }
        ensures { IfOk result (λ sel. AreMoved units.now after goals self.now.regions sel.regions) }
    {
        match goals {
            Goals::Kept => self.selection().map(alloc, units, after),
            Goals::Cleared => without_goals(alloc, self.selection())?.map(alloc, units, after),
        }
    }

    /// What the front end is told where the document has the view `next` after an event that requests these lines; and that view, settled.
    /// This renders the lines that are told. Whether the layout is another it tells without a line where the length of the text is another, where
    /// the last caret is no caret of the other view, and where the text is the same and no style, end of a region, search, width or tab width is
    /// another; else it renders lines of both, up to the first that differs. Of one text it begins where regions, styles, matches or pieces are
    /// another, which it finds in their time; styles that the event left are not looked at, nor pieces of one width. Of an edited text it begins at the logical line of
    /// the character left of the first change, or of the first end of a region that is another, if that is left of it.
    pub fn settled(
        &self,
        alloc: Global,
        next: ViewState,
        text: TextLeft,
        request: Run,
        pristine: Pristine,
    ) -> Result<(ViewState, Option<Update>), NoMemory>
        requires text { IsTextLeft text self.now next }
        ensures view { IfOk result (λ made. made.0 ≡ settled_view self.now next request pristine) }
        ensures update { IfOk result (λ made. made.1 ≡ told self.now next request pristine) }
    {
        if !self.lacks(alloc, &next, text, request, pristine)? {
            return Ok((next, None));
        }
        let asked = next.asked(request);
        let update = next.update(alloc, asked, pristine.after)?;
        Ok((next.with_shown(asked), Some(update)))
    }

    // The update that sends the lines that are asked for.
    fn update(&self, alloc: Global, asked: Asked, pristine: bool) -> Result<Update, NoMemory>
        ensures { IfOk result (λ made. made ≡ planned asked (layout_in self.now) pristine) }
    {
        update_of(alloc, &self.shown_text(), asked, pristine)
    }

    // The text in its pieces, and what is shown on it.
    fn shown_text(&self) -> Shown<'_, LineIndex>
        ensures view { result.view.now ≡ index_at self.now.text self.now.config }
        ensures regions { result.sel.now.regions ≡ self.now.regions }
        ensures results { result.results.now ≡ found_at self.now.text self.now.query }
        ensures layers { result.layers.now ≡ self.now.layers }
        ensures may { MayShow self.now.text self.now.regions (found_at self.now.text self.now.query) }
        ensures characters { all_scalars self.now.text ≡ true }
        ensures inside { AreWithin (length self.now.text) self.now.regions }
    {
        Shown {
            view: self.line_index(),
            sel: self.selection(),
            results: self.matches(),
            layers: self.layers(),
        }
    }

    // Whether the front end has to be told.
    fn lacks(
        &self,
        alloc: Global,
        next: &ViewState,
        text: TextLeft,
        request: Run,
        pristine: Pristine,
    ) -> Result<bool, NoMemory>
        requires text { IsTextLeft text self.now next.now }
        ensures { IfOk result (λ lacks. lacks ≡ is_lacking self.now next.now request pristine) }
    {
        if !next.has_asked(request) || pristine.before != pristine.after {
            return Ok(true);
        }
        Ok(!self.has_layout_of(alloc, next, text)?)
    }

    // Whether the layouts are the same.
    fn has_layout_of(
        &self,
        alloc: Global,
        next: &ViewState,
        text: TextLeft,
    ) -> Result<bool, NoMemory>
        requires text { IsTextLeft text self.now next.now }
        ensures { IfOk result (λ same. same ≡ is_same_layout (layout_in self.now) (layout_in next.now)) }
    {
        match text {
            TextLeft::Same => self.has_layout_on_text(alloc, next, text),
            TextLeft::Styled => self.has_layout_on_text(alloc, next, text),
            TextLeft::Edited { from } => self.has_layout_from(alloc, next, from),
        }
    }

    // The same, of one text: where it is cut alike, no line is read where what is shown is the same, and none left of where that differs.
    fn has_layout_on_text(
        &self,
        alloc: Global,
        next: &ViewState,
        text: TextLeft,
    ) -> Result<bool, NoMemory>
        requires same { next.now.text ≡ self.now.text }
        requires text { IsTextLeft text self.now next.now }
        ensures { IfOk result (λ same. same ≡ is_same_layout (layout_in self.now) (layout_in next.now)) }
    {
        if !self.is_cut_as(next) {
            return self.has_layout_anew(alloc, next, text);
        }
        match self.apart_from(next, text) {
            None => Ok(true),
            Some(gap) => self.has_lines_past(alloc, next, gap),
        }
    }

    // The same, of two texts that are one left of a gap, as their styles are. Where neither length nor caret tells them apart no line is read
    // left of the logical line where the first change is, or an end of a region is another.
    fn has_layout_from(&self, alloc: Global, next: &ViewState, from: u64) -> Result<bool, NoMemory>
        requires { IsKeptLeftOf from self.now next.now }
        ensures { IfOk result (λ same. same ≡ is_same_layout (layout_in self.now) (layout_in next.now)) }
    {
        // Both are texts of characters in which their regions lie.
        let _shown = self.shown_text();
        let _other = next.shown_text();
        if self.is_told_apart(next) {
            return Ok(false);
        }
        if !self.is_cut_as(next) {
            return self.has_lines_from(alloc, next, 0);
        }
        let gap = self.alike_to(next, from);
        let line = self.line_before(gap);
        self.has_lines_from(alloc, next, line)
    }

    // A gap left of which both show the same. A match that is cut by the first change may have begun left of it.
    fn alike_to(&self, next: &ViewState, from: u64) -> u64
        requires kept { IsKeptLeftOf from self.now next.now }
        requires cut { is_cut_alike self.now next.now ≡ true }
        ensures { AreAlikeViews result self.now next.now }
    {
        fronts_stay();
        let regions = self.selection().regions.as_slice();
        let ends = ends_apart(regions, next.selection().regions.as_slice());
        let gap = earlier(ends, Some(from)).unwrap_or(from);
        let len = self.sought().chars.char_count();
        gap.saturating_sub(len.saturating_sub(1))
    }

    // The first line of the logical line that has the character left of a gap; the first of all where there is none.
    fn line_before(&self, gap: u64) -> u64
        ensures line { result ≡ first_line_left_of self.now gap }
        ensures inside { result ≤ length (pieces_in self.now) }
        ensures characters { all_scalars self.now.text ≡ true }
    {
        let index = self.line_index();
        if gap == 0 {
            return 0;
        }
        let logical = index.logical_of(index.line_of(gap - 1));
        index.line_of(logical.start)
    }

    // Whether both cut a text alike.
    pub(crate) fn is_as_wide(&self, next: &ViewState) -> bool
        ensures { result ≡ has_same_widths self.now.config next.now.config }
    {
        next.is_cut_by(self.config)
    }

    // Whether another configuration cuts the text alike.
    fn is_cut_by(&self, config: Config) -> bool
        ensures { result ≡ has_same_widths config self.now.config }
    {
        config.tab == self.config.tab && config.width == self.config.width
    }

    // Whether one text is cut alike in both, and the same is looked for.
    fn is_cut_as(&self, next: &ViewState) -> bool
        ensures { result ≡ is_cut_alike self.now next.now }
    {
        self.config.tab == next.config.tab
            && self.config.width == next.config.width
            && is_same_search(&self.query, &next.query)
    }

    // A gap left of which both show the same on one text, where they do not show the same on all of it.
    pub(crate) fn apart_from(&self, next: &ViewState, text: TextLeft) -> Option<u64>
        requires { IsTextLeft text self.now next.now }
        ensures { IsShownApart result self.now next.now }
    {
        let regions = self.selection().regions.as_slice();
        let ends = ends_apart(regions, next.selection().regions.as_slice());
        let styles = self.styles_apart(next, text);
        earlier(ends, styles)
    }

    // A gap left of which both have the same styles, where they do not have the same; no style is looked at where an event left them.
    fn styles_apart(&self, next: &ViewState, text: TextLeft) -> Option<u64>
        requires { IsTextLeft text self.now next.now }
        ensures { AreApartFrom result self.now.layers next.now.layers }
    {
        match text {
            TextLeft::Same => None,
            TextLeft::Styled => self.layers().apart_from(next.layers()),
            TextLeft::Edited { from: _ } => self.layers().apart_from(next.layers()),
        }
    }

    // Whether the layouts of one text are the same, which is cut alike and shown alike left of a gap.
    fn has_lines_past(&self, alloc: Global, next: &ViewState, gap: u64) -> Result<bool, NoMemory>
        requires text { next.now.text ≡ self.now.text }
        requires cut { is_cut_alike self.now next.now ≡ true }
        requires shown { IsShownApart (Some gap) self.now next.now }
        ensures { IfOk result (λ same. same ≡ is_same_layout (layout_in self.now) (layout_in next.now)) }
    {
        let from = self.line_left_of(gap);
        self.has_lines_from(alloc, next, from)
    }

    // The line of the character left of a gap; the first one where there is none.
    pub(crate) fn line_left_of(&self, gap: u64) -> u64
        ensures line { result ≡ line_left_of self.now gap }
        ensures inside { result ≤ length (pieces_in self.now) }
        ensures characters { all_scalars self.now.text ≡ true }
    {
        let index = self.line_index();
        if gap == 0 {
            return 0;
        }
        index.line_of(gap - 1)
    }

    // Whether the layouts are the same, of which the lines before this one are: line by line where their texts and carets do not tell them
    // apart.
    pub(crate) fn has_lines_from(
        &self,
        alloc: Global,
        next: &ViewState,
        from: u64,
    ) -> Result<bool, NoMemory>
        requires inside { from ≤ length (pieces_in self.now) }
        requires alike { take from (layout_in self.now) ≡ take from (layout_in next.now) }
        ensures { IfOk result (λ same. same ≡ is_same_layout (layout_in self.now) (layout_in next.now)) }
    {
        let shown = self.shown_text();
        let other = next.shown_text();
        if self.is_told_apart(next) {
            return Ok(false);
        }
        is_same_layout(alloc, &shown, &other, from)
    }

    // Whether the length of the text is another, or the last caret of one is no caret of the other.
    fn is_told_apart(&self, next: &ViewState) -> bool
        ensures { result ≡ is_told_apart self.now next.now }
    {
        self.len() != next.len() || !self.has_caret_of(next) || !next.has_caret_of(self)
    }

    // How many characters the text has.
    pub(crate) fn len(&self) -> u64
        ensures { result ≡ length self.now.text }
    {
        self.rope().len()
    }

    // Whether the last caret of the other view, if it has one, is a caret of this.
    fn has_caret_of(&self, other: &ViewState) -> bool
        ensures { result ≡ has_last_caret self.now.regions other.now.regions }
    {
        match other.selection().regions.as_slice().last() {
            Some(region) => has_caret(self.selection().regions.as_slice(), region.caret),
            None => true,
        }
    }

    /// Whether the front end has the lines of the window and those that are requested, in O(1).
    pub fn has_asked(&self, request: Run) -> bool
        ensures { result ≡ has_asked self.now request }
    {
        match self.shown {
            Some(last) => last.covers(self.asked(request), self.lines()),
            None => false,
        }
    }

    // The lines that are asked for with a request.
    fn asked(&self, request: Run) -> Asked
        ensures { result ≡ asked_in self.now request }
    {
        Asked {
            window: self.window,
            request,
        }
    }

    // The same view, whose front end has these lines.
    fn with_shown(self, asked: Asked) -> ViewState
        ensures { result ≡ record self { shown = Some asked } }
    {
        let mut view = self;
        view.shown = Some(asked);
        view
    }
}

// The caret of the last region; 0 where there is none.
fn last_caret(regions: &Regions) -> u64
    ensures { result ≡ last_caret regions.now }
{
    match regions.as_slice().last() {
        Some(region) => region.caret,
        None => 0,
    }
}

// The regions without their goals.
fn without_goals(alloc: Global, sel: &Sel) -> Result<Sel, NoMemory>
    ensures { IfOk result (λ made. made.regions ≡ map without_goal sel.now.regions) }
{
    let mut regions = Regions::new(alloc);
    for region in sel.regions.as_slice() {
        regions.push(Region {
            anchor: region.anchor,
            caret: region.caret,
            goal: None,
        })?;
    }
    Ok(Sel { regions })
}
