ghost use Rattle.std.specs.Prelude.{◌≡◌, IfOk, OnOk, codes, map, string_bytes};
ghost use Rattle.std.specs.List.{position_or_len};
ghost use Rattle.session_load.specs.Table.{is_of, no_lines, no_rows, rows_with, table_with, tallies_of, tally_of, with_line};

use crate::count::Count;
use anyhow::Context;
use std::alloc::Global;

/// The lines of one kind.
#[derive(Drop)]
pub struct Row {
    pub kind: String,
    pub lines: u64,
    pub count: Count,
}

/// The lines of a script by their kinds, in the order in which the kinds came, and all of them.
#[derive(Drop)]
pub struct Table {
    pub rows: Vec<Row>,
    pub all: Row,
}

/// What one line made the core write.
#[derive(Clone, Copy)]
pub struct Written {
    pub len: u64,
    pub is_refusal: bool,
}

impl Table {
    pub fn new(alloc: Global) -> anyhow::Result<Table>
        ensures { IfOk result (λ table. tallies_of table ≡ no_rows) }
    {
        Ok(Table {
            rows: Vec::new(alloc),
            all: Row::new(String::from_str(alloc, "all")?),
        })
    }

    /// Counts a line in the row of its kind, which is new where it is the first one.
    pub fn take(&mut self, kind: String, written: Written) -> anyhow::Result<()>
        ensures { OnOk result (tallies_of self.new ≡
            table_with (tallies_of self.old) (record { kind = string_bytes kind; written = written })) }
    {
        self.all.take(written)?;
        count_in(&mut self.rows, kind, written)
    }
}

fn count_in(rows: &mut Vec<Row>, kind: String, written: Written) -> anyhow::Result<()>
    ensures { OnOk result (map tally_of rows.new.items
        ≡ rows_with (map tally_of rows.old.items) (record { kind = string_bytes kind; written = written })) }
{
    let place = place_of(rows, kind.as_str());
    if place < rows.len() {
        return rows[place].take(written);
    }
    let mut row = Row::new(kind);
    row.take(written)?;
    rows.push(row)?;
    Ok(())
}

/// The place of the row of a kind, or how many rows there are.
fn place_of(rows: &[Row], kind: &str) -> usize
    ensures { result ≡ position_or_len (is_of kind.now) rows.now }
{
    for (place, row) in rows.iter().enumerate() {
        if is_of(kind, row) {
            return place;
        }
    }
    rows.len()
}

fn is_of(kind: &str, row: &Row) -> bool
    ensures { result ≡ is_of kind.now row.now }
{
    row.kind.as_str() == kind
}

impl Row {
    fn new(kind: String) -> Row
        ensures { tally_of result ≡ no_lines (string_bytes kind) }
    {
        Row {
            kind,
            lines: 0,
            count: Count::new(),
        }
    }

    /// A line more, whose piece may be empty.
    fn take(&mut self, written: Written) -> anyhow::Result<()>
        ensures { OnOk result (tally_of self.new ≡ with_line (tally_of self.old) written) }
    {
        let lines = self.lines.checked_add(1).context("too many lines")?;
        if 0 < written.len {
            self.count = self
                .count
                .with_piece(written.len, written.is_refusal)
                .context("more than 2^40 bytes")?;
        }
        self.lines = lines;
        Ok(())
    }
}
