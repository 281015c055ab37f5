//! Runs cases of documents, and prints for each one whether it passed, or the first line that does not hold, with what it wanted and what
//! came.
//!
//! A case is a file `NAME.document` of the folder that the program runs in; the files are taken in the order of their names. A line begins
//! a document, is an event of it, or says what the last event came to:
//!
//! | line | means |
//! |---|---|
//! | `# remark` | nothing, as does an empty line |
//! | `text ab` | a document of this text begins, and its view is opened; a case begins with the empty text. There are two plugins, at most 30 characters may be inserted, and lines are not wrapped |
//! | `letters 9 é` | such a document begins, of so many letters `a` and the text behind them |
//! | `insert X`, `paste X`, `find X` | the front end does this with a text; `insert` alone has the empty one |
//! | `insert_newline`, `insert_tab`, `delete_backward`, `delete_forward`, `delete_word_backward`, `delete_word_forward`, `cut`, `copy`, `undo`, `redo`, `select_all`, `collapse`, `find_next`, `find_previous` | the front end does this |
//! | `move word_left`, `extend word_left` | it moves the carets, or one end of each region; other motions are `left`, `right`, `up`, `down`, `word_right`, `line_start`, `line_end`, `text_start` and `text_end` |
//! | `click 0 3`, `drag 0 3`, `gesture toggle 0 3` | at a line of the layout and a column of it, both from 0, in bytes; other gestures are `point`, `range`, `word` and `line` |
//! | `goto_line 3`, `scroll 0 9`, `request_lines 0 9` | it goes to a line, shows lines, or asks for some: from the first up to the last, which is not included |
//! | `save`, `other` | the text is saved; a line of the front end that is none of the document's |
//! | `config tab=4 width=80 spaces` | tabs are so wide, lines are wrapped there (at 0: nowhere), and a tab is typed as spaces, or as one with `tabs` |
//! | `edit plugin=1 base=0 len=3 copy 0 1 insert X copy 1 3` | a plugin's edit against revision 0, with the elements of its delta; `len`, the length of the base's text, and the places are bytes. Among the elements stand `into 2`, the group that it names, and `after_cursor`, which leaves a caret at its gap left of it |
//! | `spans plugin=1 rev=0 start=1 len=3 0 2 5` | a plugin styles a range of the text of revision 0: its bytes from 0 up to 2 get the style 5. There may be more of these, or none |
//! | `read plugin=1 rev=0 start=1 max=7`, `count plugin=1` | a plugin reads the text of revision 0 from its byte 1 on, at most 7 bytes of it; it asks how many logical lines the head text has |
//! | `ack plugin=1 rev=3`, `ended plugin=1` | a plugin has the text of revision 3; its session ends |
//! | `times 20 undo` | this event comes so many times |
//! | `shows 2 aXé` | the head is revision 2 and shows this text; `shows 2` alone says that it is empty |
//! | `kept 5`, `lines 3` | some revision can still show 5 characters; the layout has 3 lines |
//! | `refused unknown base: the head is 2` | the last event is refused, with these words |
//! | `answers null`, `answers text ab`, `answers rev=2 group=1`, `answers chunk at=1 ab`, `answers lines 2` | its answer |
//! | `takes 1048576` | how many bytes the chunk takes that is the answer |
//! | `scrolls 0 2`, `scrolls nowhere` | where the front end is to scroll: a line, and a column in bytes |
//! | `notes plugin=1 rev=2 len=4 base=3 insert Z copy 0 3`, `notes nothing` | what plugins are told: whose revision it is (0 is the front end), the length of its text, and the delta from the one before |
//! | `updates changed copy 2 skip 1 ins 3`, `updates nothing` | the operations of the update, and whether the text is `pristine` |
//! | `line 0 ln=1 ab`, `line 1 ln=- cd` | of the lines that the update sends, from 0: the number of the logical line, or none, and the text |
//! | `carets 0 1 3`, `styles 0 1 2 5` | the carets in such a line; its triples, each a start, a length and an id |
//!
//! In a text `\n` is the end of a line, `\t` a tab, `\s` a space and `\\` a backslash; after `insert` in an edit a text is one word. What is
//! refused changes nothing, and a line has to say so before the next event.
//!
//! A line that says what came is compared with all that came of this kind, byte by byte: it holds where it stands for the same text, says the
//! contract of the function that compares. How lines are read, and what they are compared with, the output alone shows. The program ends
//! with status 0 where there is a case and each one passes, else with 1. A new case is a new file in `data/`, and its line in `stdout`.
#![tactic(auto)]

mod acts;
mod case;
mod events;
mod told;
mod words;

ghost use Rattle.std.specs.Prelude.{◌≡◌, false, IfOk};

use anyhow::ensure;
use case::{Count, run_case};
use std::fs;
use std::rt::Files;

fn main(rt: HostRuntime) -> anyhow::Result<()> {
    let names = case_names(&rt)?;
    ensure!(!names.is_empty(), "there is no case");
    let mut all_hold = true;
    for name in names.as_slice() {
        all_hold &= run_file(&rt, name.as_str())?;
    }
    ensure!(all_hold, "a case does not hold");
    Ok(())
}

/// The names of the files of cases in the folder that the program runs in, in order.
fn case_names(rt: &HostRuntime) -> anyhow::Result<Vec<String>> {
    let mut names = Vec::new(rt.alloc());
    for entry in fs::read_dir(rt, ".")? {
        let entry = entry?;
        if entry.file_name().ends_with(".document") {
            names.push(String::from_str(rt.alloc(), entry.file_name())?)?;
        }
    }
    names.sort()?;
    Ok(names)
}

/// Runs the case of a file, and prints its line; whether it holds.
fn run_file(rt: &HostRuntime, file: &str) -> anyhow::Result<bool> {
    let text = fs::read(rt, file)?;
    let name = file.trim_end_matches(".document");
    match run_case(rt.alloc(), &text) {
        Ok(count) => print_pass(rt, name, count),
        Err(why) => print_failure(rt, name, &why),
    }
}

fn print_pass(rt: &HostRuntime, name: &str, count: Count) -> anyhow::Result<bool> {
    let Count { events, answers } = count;
    println!(rt; "pass {name}: events {events}, answers {answers}")?;
    Ok(true)
}

/// It does not hold.
fn print_failure(rt: &HostRuntime, name: &str, why: &anyhow::Error) -> anyhow::Result<bool>
    ensures { IfOk result (λ holds. holds ≡ false) }
{
    println!(rt; "FAIL {name}: {why:#}")?;
    Ok(false)
}
