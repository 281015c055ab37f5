ghost use Rattle.std.specs.Prelude.{◌≡◌, ◌++◌, ◌∷◌, [], IfOk, None, OnOk};
ghost use Rattle.span_styles.specs.Table.{next_id};
ghost use Rattle.style_numbers.specs.InMemory.{HasStyle, IsNumbered, table_after};
ghost use Rattle.style_numbers.specs.Numbers.{id_for, id_of, new_style, with_id, with_style};

use plain_edits::{Span, Spans, Style};
use plain_text::{List, NoMemory, TryClone};
use span_styles::StyleTable;
use std::alloc::Global;
use view_update::NumberedStyle;
use xi_plain::WireSpan;

/// Spans by the ids of their styles.
#[derive(Drop)]
pub struct Numbered {
    pub spans: Spans,
    /// The styles that are new, in rising order of their ids.
    pub fresh: List<NumberedStyle>,
    /// The table with these, where there are any; else it is as it was.
    pub grown: Option<StyleTable>,
}

/// The spans by the ids that their styles have in the table, where one that is new gets the next id. The cost is that of a look into the
/// table for each span, and of a copy of the table where a style is new.
pub fn number_spans(
    alloc: Global,
    table: &StyleTable,
    spans: &[WireSpan],
) -> Result<Numbered, NoMemory>
    ensures { IfOk result (IsNumbered table.now spans.now) }
{
    let mut made = Numbered {
        spans: List::new(alloc),
        fresh: List::new(alloc),
        grown: None,
    };
    for span in spans {
        made.add(alloc, table, *span)?;
    }
    Ok(made)
}

impl Numbered {
    // One more span.
    fn add(&mut self, alloc: Global, table: &StyleTable, span: WireSpan) -> Result<(), NoMemory>
        ensures table { OnOk result ((table_after table.now self.new.grown) ≡ with_style (table_after table.now self.old.grown) span.style) }
        ensures fresh { OnOk result (self.new.fresh ≡ self.old.fresh ++ new_style (table_after table.now self.old.grown) span.style) }
        ensures spans { OnOk result (self.new.spans
            ≡ self.old.spans ++ with_id (id_for (table_after table.now self.old.grown) span.style) span ∷ []) }
    {
        let id = self.id_for(alloc, table, span.style)?;
        self.spans.push(Span {
            start: span.start,
            end: span.end,
            style: id,
        })
    }

    // The id of a style, which gets the next one where it has none.
    fn id_for(&mut self, alloc: Global, table: &StyleTable, style: Style) -> Result<u64, NoMemory>
        ensures id { IfOk result (λ id. id ≡ id_for (table_after table.now self.old.grown) style) }
        ensures has { OnOk result (HasStyle table.now style self.old self.new) }
    {
        match id_of(self.table(table), &style) {
            Some(id) => Ok(id),
            None => self.define(alloc, table, style),
        }
    }

    // The table as far as it has come.
    fn table<'a>(&'a self, table: &'a StyleTable) -> &'a StyleTable
        ensures { result.now ≡ table_after table.now self.now.grown }
    {
        match &self.grown {
            Some(grown) => grown,
            None => table,
        }
    }

    // Gives the next id to a style that has none.
    fn define(&mut self, alloc: Global, table: &StyleTable, style: Style) -> Result<u64, NoMemory>
        requires { id_of (table_after table.now self.old.grown) style ≡ None }
        ensures id { IfOk result (λ id. id ≡ next_id (table_after table.now self.old.grown)) }
        ensures has { OnOk result (HasStyle table.now style self.old self.new) }
    {
        let id = self.grow(alloc, table, style)?;
        self.fresh.push(NumberedStyle { id, style })?;
        Ok(id)
    }

    // Puts it behind the others, in a copy of the table.
    fn grow(&mut self, alloc: Global, table: &StyleTable, style: Style) -> Result<u64, NoMemory>
        requires { id_of (table_after table.now self.old.grown) style ≡ None }
        ensures id { IfOk result (λ id. id ≡ next_id (table_after table.now self.old.grown)) }
        ensures table { OnOk result (table_after table.now self.new.grown ≡ table_after table.now self.old.grown ++ style ∷ []) }
        ensures fresh { self.new.fresh ≡ self.old.fresh }
        ensures spans { self.new.spans ≡ self.old.spans }
    {
        match &mut self.grown {
            Some(grown) => define(grown, style),
            None => {
                let mut grown = table.copy(alloc)?;
                let id = define(&mut grown, style)?;
                self.grown = Some(grown);
                Ok(id)
            }
        }
    }
}

// The id of a style, if it is there.
fn id_of(table: &StyleTable, style: &Style) -> Option<u64>
    ensures { result ≡ id_of table.now style.now }
{
    table.find(style)
}

// Puts a style that is not there behind the others.
fn define(table: &mut StyleTable, style: Style) -> Result<u64, NoMemory>
    requires { id_of table.old style ≡ None }
    ensures id { IfOk result (λ id. id ≡ next_id table.old) }
    ensures defined { OnOk result (table.new ≡ table.old ++ style ∷ []) }
{
    table.define(style)
}
