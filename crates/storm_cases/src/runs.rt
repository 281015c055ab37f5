//! What storms come to, as they are told.

use outside::{CalmShelf, CalmSink, MemSink};
use plain_text::{NoMemory, Text, Texts};
use plugin_session::{Plugin, Turn};
use shipped_plugins::StormPlugin;
use std::alloc::Global;
use xi_forms::run_storm;

/// The plugins beside a storm.
#[derive(Clone, Copy)]
enum Beside {
    Nothing,
    Storm,
}

fn plugins(alloc: Global, beside: Beside) -> Result<Vec<StormPlugin>, NoMemory> {
    let mut plugins = Vec::new(alloc);
    match beside {
        Beside::Storm => plugins.push(StormPlugin::new(alloc))?,
        Beside::Nothing => {}
    }
    Ok(plugins)
}

/// Whether a storm ends well and tells this.
fn tells(alloc: Global, count: u32, seed: u64, beside: Beside, expected: &str) -> bool {
    match plugins(alloc, beside) {
        Ok(plugins) => tells_beside(alloc, count, seed, plugins, expected),
        Err(_) => false,
    }
}

/// The same beside these plugins.
fn tells_beside<P: Plugin>(
    alloc: Global,
    count: u32,
    seed: u64,
    plugins: Vec<P>,
    expected: &str,
) -> bool {
    if plugins.len() > 64 {
        return false;
    }
    let sink = CalmSink::new(alloc);
    let report = run_storm(alloc, count, seed, sink, CalmShelf::new(alloc), plugins);
    report.status == 0 && report.sink.bytes() == Some(expected.as_bytes())
}

/// A plugin that gives this line a thousand times in each turn.
#[derive(Drop)]
struct Noisy {
    line: &'static str,
    alloc: Global,
}

impl Noisy {
    fn lines(&self) -> Result<Texts, NoMemory> {
        let mut lines = Texts::new(self.alloc);
        for _ in 0..1000 {
            lines.push(Text::from_str(self.alloc, self.line)?)?;
        }
        Ok(lines)
    }
}

impl Plugin for Noisy {
    ghost use Rattle.std.specs.Prelude.{None};

    ghost told = { λ p. None };

    fn turn(&mut self, _lines: &[Text]) -> Turn {
        Turn {
            lines: self.lines().unwrap_or(Texts::new(self.alloc)),
            done: false,
        }
    }
}

/// Whether four lines tell this beside a plugin that gives this line a thousand times in each turn.
fn tells_beside_noise(alloc: Global, line: &'static str, expected: &str) -> Result<bool, NoMemory> {
    let mut plugins = Vec::new(alloc);
    plugins.push(Noisy { line, alloc })?;
    Ok(tells_beside(alloc, 4, 7, plugins, expected))
}

#[test]
fn a_storm_without_lines_tells_an_empty_view(rt: HostRuntime) {
    assert!(rt;
        tells(
            rt.alloc(),
            0,
            7,
            Beside::Nothing,
            "entries 2\nrevision 0\ncharacters 0\nkept 0\nlines 1\nvalid 1\n"
        )
    );
}

#[test]
fn a_deletion_in_an_empty_text_makes_no_revision(rt: HostRuntime) {
    assert!(rt;
        tells(
            rt.alloc(),
            1,
            18446744073709551615,
            Beside::Nothing,
            "entries 3\nrevision 0\ncharacters 0\nkept 0\nlines 1\nvalid 1\n"
        )
    );
}

#[test]
fn twenty_lines_come_to_nine_characters(rt: HostRuntime) {
    assert!(rt;
        tells(
            rt.alloc(),
            20,
            7,
            Beside::Nothing,
            "entries 22\nrevision 13\ncharacters 9\nkept 11\nlines 2\nvalid 2\n"
        )
    );
}

#[test]
fn a_plugin_edits_a_stale_text_beside_them(rt: HostRuntime) {
    assert!(rt;
        tells(
            rt.alloc(),
            20,
            7,
            Beside::Storm,
            "entries 24\nrevision 14\ncharacters 10\nkept 12\nlines 2\nvalid 2\n"
        )
    );
}

// Each of the lines that the view takes is an entry, which changes no text; what is no line of a plugin is none.
#[test]
fn a_thousand_lines_a_turn_make_a_storm_longer_and_nothing_else(rt: HostRuntime) {
    let alloc = rt.alloc();
    let rows = [
        (
            r#"{"id":1,"method":"line_count","params":{"view_id":"view-id-1"}}"#,
            "entries 5006\nrevision 1\ncharacters 1\nkept 1\nlines 1\nvalid 1\n",
        ),
        (
            "{",
            "entries 6\nrevision 1\ncharacters 1\nkept 1\nlines 1\nvalid 1\n",
        ),
    ];
    for (line, expected) in rows {
        match tells_beside_noise(alloc, line, expected) {
            Ok(told) => assert!(rt; told),
            Err(_) => assert!(rt; false),
        }
    }
}

/// Whether a storm whose second write fails ends so, and has told as much as one write took.
fn is_cut(alloc: Global) -> Result<bool, NoMemory> {
    let sink = MemSink::new(alloc, 20, Vec::from_slice(alloc, &[2])?);
    let plugins: Vec<StormPlugin> = Vec::new(alloc);
    let report = run_storm(alloc, 0, 7, sink, CalmShelf::new(alloc), plugins);
    Ok(
        report.status == 5
            && report.journal.len() == 2
            && report.sink.bytes() == Some("entries 2\nrevision 0".as_bytes()),
    )
}

#[test]
fn a_sink_that_fails_has_a_part_of_the_summary(rt: HostRuntime) {
    match is_cut(rt.alloc()) {
        Ok(cut) => assert!(rt; cut),
        Err(_) => assert!(rt; false),
    }
}
