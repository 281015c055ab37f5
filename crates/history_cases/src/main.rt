//! Runs cases of histories, and lists of steps from seeds, through the plain history and through each crate of the revision engine, and
//! prints for each one whether it passed, or the first line (of a list the first step) that does not hold, and why.
//!
//! A case is a file `NAME.history` of the folder that the program runs in; the files are taken in the order of their names. A line is:
//!
//! | line | means |
//! |---|---|
//! | `# remark` | nothing, as does an empty line |
//! | `text aé` | a history begins anew, with this text loaded; a case begins with the empty text |
//! | `limit 8` | at most 8 characters may be inserted into a history in all; it stands before all edits, and without it there are 1,000 |
//! | `edit base=0 group=1 priority=2 author=0 len=3 copy 0 1 insert X copy 1 3` | an edit against revision 0, with the elements of its delta; groups count from 1, and `len`, the length of the base's text, and the places are bytes |
//! | `undo 1 2` | from now on exactly these groups are undone; `undo` alone undoes none |
//! | `collect 3 1 2` | the floor rises to 3, and these groups are collected |
//! | `shows 2 aXé` | revision 2 shows this text; `shows 2` alone says that it is empty |
//! | `under 1 2 shows aé` | the head would show this text if exactly these groups were undone |
//! | `floor 3` | revision 3 is the floor |
//! | `kept 5` | 5 characters are kept: some revision from the floor on, or a later one, can show them |
//! | `refused unknown 2` | the edit before this line is refused: its base is above the head, 2 |
//! | `refused collected 1` | its base is below the floor, 1 |
//! | `refused misfit 4 2` | the first misfit of its delta is of kind 4 at 2 |
//! | `refused spent 9` | 9 characters would be inserted in all |
//! | `refused edit` | the edit before this line may not come: its group is collected |
//! | `refused undo` | the undo before this line has a group without an edit |
//! | `refused frozen 1` | each of its groups has an edit, but it changes group 1, which is collected, and no lesser collected one |
//! | `refused collect` | the collection before this line has a floor below the present one, above the head or unclean, or a group that is not at rest there |
//!
//! In a text `\n` is the end of a line, `\t` a tab, `\s` a space and `\\` a backslash; after `insert` a text is one word. What is
//! refused changes nothing, and its refusal has to stand in the line after it.
//!
//! For each edit `delta_core` has to find the first misfit of the plain history. Beside that history go an engine, and a `rev_list`
//! with the crates that work on it: the line that is printed says how many steps were taken in all, and how many of them by each. Both have to answer each step as the plain history does, and to tell
//! beforehand that they take no edit of a collected group and no undo of a group without an edit. After it `rev_rebase` has put the edit
//! where that history has it, or `rev_collect` given the list that is left; both keep as many characters; at each revision from the floor
//! on the list hides what is hidden there, and the engine shows the same, and tells an edit since then that leads to the head text; and
//! `rev_undo` says what every set of the first four groups that are not collected hides, and that of a line `under`.
//!
//! What steps do by the definitions of a history, why they are refused, and that a text is shown, are clauses of `Run`. How lines are
//! read, which steps are drawn, and that the bodies agree, the output alone shows. A new case is a new file in `data/`, and its line in
//! `stdout`.
#![tactic(auto)]

mod bodies;
mod reading;
mod refusal;
mod run;
mod seeded;

use anyhow::ensure;
use run::Count;
use seeded::{Drawn, run_seed};
use std::fs;
use std::rt::Files;

/// There are lists from the seeds 1 to this one.
const SEEDS: u64 = 32;

fn main(rt: HostRuntime) -> anyhow::Result<()> {
    let mut all_hold = true;
    for name in case_names(&rt)?.as_slice() {
        let count = run_file(&rt, name.as_str());
        all_hold &= print_outcome(&rt, name.as_str().trim_end_matches(".history"), count)?;
    }
    let mut drawn = Drawn::default();
    for seed in 1..=SEEDS {
        let count = run_seed(rt.alloc(), seed, &mut drawn);
        let name = format!(in rt.alloc(); "seed {seed}")?;
        all_hold &= print_outcome(&rt, name.as_str(), count)?;
    }
    print_drawn(&rt, &drawn)?;
    ensure!(all_hold, "a case does not hold");
    Ok(())
}

/// The names of the files of cases in the folder that the program runs in, in order.
fn case_names(rt: &HostRuntime) -> anyhow::Result<Vec<String>> {
    let mut names = Vec::new(rt.alloc());
    for entry in fs::read_dir(rt, ".")? {
        let entry = entry?;
        if entry.file_name().ends_with(".history") {
            names.push(String::from_str(rt.alloc(), entry.file_name())?)?;
        }
    }
    names.sort()?;
    Ok(names)
}

fn run_file(rt: &HostRuntime, file: &str) -> anyhow::Result<Count> {
    let case = fs::read(rt, file)?;
    reading::run_case(rt.alloc(), &case)
}

/// Prints what came of a case; whether it holds.
fn print_outcome(
    rt: &HostRuntime,
    name: &str,
    outcome: anyhow::Result<Count>,
) -> anyhow::Result<bool> {
    match outcome {
        Ok(Count { steps, by_bodies }) => {
            println!(rt; "pass {name}: steps {steps}, rev_list {by_bodies}, engine {by_bodies}")?;
            Ok(true)
        }
        Err(why) => {
            println!(rt; "FAIL {name}: {why:#}")?;
            Ok(false)
        }
    }
}

/// Prints what the lists have beside edits in new groups.
fn print_drawn(rt: &HostRuntime, drawn: &Drawn) -> anyhow::Result<()> {
    println!(rt; "undos of a set: {}", drawn.undos)?;
    println!(rt; "undos that take others back: {}", drawn.taken_back)?;
    println!(rt; "edits in undone groups: {}", drawn.edits_in_undone_groups)?;
    println!(rt; "edits in groups that have one: {}", drawn.further_edits)?;
    println!(rt;
        "edits of collected groups: {}",
        drawn.edits_of_collected_groups
    )?;
    println!(rt; "undos that are refused: {}", drawn.refused_undos)?;
    println!(rt; "collections: {}", drawn.collections)?;
    println!(rt;
        "collections below the head: {}",
        drawn.collections_below_the_head
    )?;
    println!(rt;
        "collections that are refused: {}",
        drawn.refused_collections
    )?;
    Ok(())
}
