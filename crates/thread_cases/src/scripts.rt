//! Runs whose front end waits for the plugins: on threads they come to what they come to in turns.
use crate::player::{Part, Player};
use crate::tally::{Asks, Counter, Hold, Patient, Tally};
use crate::told::is_run;
use case_runs::{is_so, joined};
use outside::{CalmShelf, MemSink, MemSource};
use plain_text::NoMemory;
use std::alloc::Global;
use std::sync::Wait;
use std::thread::Threads;
use xi_forms::run_threads;
use xi_top::{Report, run_alone};

const OPENING: &str = "{\"id\":0,\"method\":\"new_view\"}\n";

const TYPING_AB: &str =
    "{\"method\":\"edit\",\"params\":{\"method\":\"insert\",\"params\":{\"chars\":\"ab\"},\"view_id\":\"view-id-1\"}}\n";

const TYPING_ABCD: &str =
    "{\"method\":\"edit\",\"params\":{\"method\":\"insert\",\"params\":{\"chars\":\"abcd\"},\"view_id\":\"view-id-1\"}}\n";

const TYPING_X: &str =
    "{\"method\":\"edit\",\"params\":{\"method\":\"insert\",\"params\":{\"chars\":\"X\"},\"view_id\":\"view-id-1\"}}\n";

const GOING_LEFT: &str =
    "{\"method\":\"edit\",\"params\":{\"method\":\"move_left\",\"view_id\":\"view-id-1\"}}\n";

const UNDOING: &str =
    "{\"method\":\"edit\",\"params\":{\"method\":\"undo\",\"view_id\":\"view-id-1\"}}\n";

const OPENED: &str = r#""method":"new_buffer""#;

const CHANGED: &str = r#""rev":1,"view_id""#;

const CHANGED_AGAIN: &str = r#""rev":2,"view_id""#;

// What the front end gives, and what it waits for; what each plugin does; the callers of the journal, and what the bytes show.
#[derive(Clone, Copy)]
struct Row {
    lines: &'static [&'static str],
    hold: Hold,
    parts: &'static [Part],
    told: &'static str,
    shown: &'static str,
}

const REFUSED: Row = Row {
    lines: &[OPENING, GOING_LEFT],
    hold: Hold {
        behind: 1,
        asks: Asks {
            first: 10,
            second: 0,
            others: 0,
        },
    },
    parts: &[&[
        (
            OPENED,
            r#"{"id":1,"method":"edit","params":{"after_cursor":false,"author":"p","delta":{"base_len":0,"els":[{"copy":[0,1]}]},"priority":1,"rev":0,"view_id":"view-id-1"}}"#,
        ),
        (
            OPENED,
            r#"{"id":2,"method":"edit","params":{"after_cursor":false,"author":"p","delta":{"base_len":0,"els":[]},"priority":1,"rev":7,"view_id":"view-id-1"}}"#,
        ),
        (
            OPENED,
            r#"{"id":3,"method":"edit","params":{"after_cursor":false,"author":"p","delta":{"base_len":0,"els":[]},"priority":1,"rev":-1,"view_id":"view-id-1"}}"#,
        ),
        (
            OPENED,
            r#"{"id":4,"method":"edit","params":{"after_cursor":false,"author":"p","delta":{"base_len":0,"els":[]},"priority":4294967296,"rev":0,"view_id":"view-id-1"}}"#,
        ),
        (
            OPENED,
            r#"{"id":5,"method":"edit","params":{"after_cursor":false,"author":"p","delta":{"base_len":0,"els":[]},"priority":1.5,"rev":0,"view_id":"view-id-1"}}"#,
        ),
        (
            OPENED,
            r#"{"id":6,"method":"edit","params":{"after_cursor":false,"author":"p","delta":{"base_len":0,"els":[]},"priority":1,"rev":0,"view_id":"view-id-2"}}"#,
        ),
        (OPENED, r#"{"id":7,"method":"edit","params":{}}"#),
        (
            OPENED,
            r#"{"id":8,"method":"insert","params":{"chars":"a","view_id":"view-id-1"}}"#,
        ),
        (
            OPENED,
            r#"{"id":9,"method":"get_data","params":{"max_size":8,"rev":0,"start":1,"view_id":"view-id-1"}}"#,
        ),
        (OPENED, "[]"),
    ]],
    told: "000",
    shown: "\"text\":\"\"",
};

const ALERTED: Row = Row {
    lines: &[OPENING],
    hold: Hold {
        behind: 1,
        asks: Asks {
            first: 2,
            second: 0,
            others: 0,
        },
    },
    parts: &[&[
        (
            OPENED,
            r#"{"id":1,"method":"alert","params":{"msg":"two \"words\""}}"#,
        ),
        (OPENED, r#"{"method":"alert","params":{"msg":""}}"#),
    ]],
    told: "0110",
    shown: r#"{"method":"alert","params":{"msg":"two \"words\""}}"#,
};

const STALE: Row = Row {
    lines: &[OPENING, TYPING_AB, GOING_LEFT, TYPING_X],
    hold: Hold {
        behind: 4,
        asks: Asks {
            first: 1,
            second: 0,
            others: 0,
        },
    },
    parts: &[&[(
        CHANGED_AGAIN,
        r#"{"id":1,"method":"edit","params":{"after_cursor":false,"author":"p","delta":{"base_len":2,"els":[{"copy":[0,2]},{"insert":"Y"}]},"priority":1,"rev":1,"view_id":"view-id-1"}}"#,
    )]],
    told: "000010",
    shown: "\"text\":\"aXbY\"",
};

const AT_THE_CARET: Row = Row {
    lines: &[OPENING, TYPING_AB],
    hold: Hold {
        behind: 2,
        asks: Asks {
            first: 1,
            second: 0,
            others: 0,
        },
    },
    parts: &[&[(
        CHANGED,
        r#"{"id":1,"method":"edit","params":{"after_cursor":false,"author":"p","delta":{"base_len":2,"els":[{"copy":[0,2]},{"insert":"Z"}]},"priority":1,"rev":1,"view_id":"view-id-1"}}"#,
    )]],
    told: "0010",
    shown: "\"text\":\"abZ\"",
};

const DELETING: Row = Row {
    lines: &[OPENING, TYPING_ABCD],
    hold: Hold {
        behind: 2,
        asks: Asks {
            first: 1,
            second: 0,
            others: 0,
        },
    },
    parts: &[&[(
        CHANGED,
        r#"{"id":1,"method":"edit","params":{"after_cursor":false,"author":"p","delta":{"base_len":4,"els":[{"copy":[0,1]},{"insert":"-"},{"copy":[3,4]}]},"priority":1,"rev":1,"view_id":"view-id-1"}}"#,
    )]],
    told: "0010",
    shown: "\"text\":\"a-d\"",
};

const JOINING: Row = Row {
    lines: &[OPENING, TYPING_AB, UNDOING],
    hold: Hold {
        behind: 2,
        asks: Asks {
            first: 1,
            second: 0,
            others: 0,
        },
    },
    parts: &[&[(
        CHANGED,
        r#"{"id":1,"method":"edit","params":{"after_cursor":false,"author":"p","delta":{"base_len":2,"els":[{"insert":"<"},{"copy":[0,2]},{"insert":">"}]},"priority":1,"rev":1,"undo_group":1,"view_id":"view-id-1"}}"#,
    )]],
    told: "00100",
    shown: "\"text\":\"<ab>\"",
};

const MARKING: Row = Row {
    lines: &[OPENING, TYPING_ABCD],
    hold: Hold {
        behind: 2,
        asks: Asks {
            first: 2,
            second: 0,
            others: 0,
        },
    },
    parts: &[&[
        (
            CHANGED,
            r#"{"id":1,"method":"update_spans","params":{"len":4,"rev":1,"spans":[{"end":4,"start":0,"style":{"weight":700}}],"start":0,"view_id":"view-id-1"}}"#,
        ),
        (
            CHANGED,
            r#"{"id":2,"method":"update_spans","params":{"len":2,"rev":1,"spans":[{"end":2,"start":1,"style":{"fg_color":4294901760}}],"start":1,"view_id":"view-id-1"}}"#,
        ),
    ]],
    told: "00110",
    shown: "\"styles\":[0,1,2,1,1,3,0,1,2]",
};

const AT_ONE_GAP: Row = Row {
    lines: &[OPENING, GOING_LEFT],
    hold: Hold {
        behind: 1,
        asks: Asks {
            first: 1,
            second: 1,
            others: 0,
        },
    },
    parts: &[
        &[(
            OPENED,
            r#"{"id":1,"method":"edit","params":{"after_cursor":false,"author":"p","delta":{"base_len":0,"els":[{"insert":"A"}]},"priority":1,"rev":0,"view_id":"view-id-1"}}"#,
        )],
        &[(
            CHANGED,
            r#"{"id":1,"method":"edit","params":{"after_cursor":false,"author":"p","delta":{"base_len":0,"els":[{"insert":"B"}]},"priority":2,"rev":0,"view_id":"view-id-1"}}"#,
        )],
    ],
    told: "01200",
    shown: "\"text\":\"AB\"",
};

const HIGHER_FIRST: Row = Row {
    lines: &[OPENING, GOING_LEFT],
    hold: Hold {
        behind: 1,
        asks: Asks {
            first: 1,
            second: 1,
            others: 0,
        },
    },
    parts: &[
        &[(
            OPENED,
            r#"{"id":1,"method":"edit","params":{"after_cursor":false,"author":"p","delta":{"base_len":0,"els":[{"insert":"A"}]},"priority":2,"rev":0,"view_id":"view-id-1"}}"#,
        )],
        &[(
            CHANGED,
            r#"{"id":1,"method":"edit","params":{"after_cursor":false,"author":"p","delta":{"base_len":0,"els":[{"insert":"B"}]},"priority":1,"rev":0,"view_id":"view-id-1"}}"#,
        )],
    ],
    told: "01200",
    shown: "\"text\":\"BA\"",
};

type Played = Report<MemSink, CalmShelf, Player>;

fn plugins_of(alloc: Global, parts: &[Part]) -> Result<Vec<Player>, NoMemory> {
    let mut plugins = Vec::new(alloc);
    for part in parts {
        plugins.push(Player::new(alloc, *part))?;
    }
    Ok(plugins)
}

// A run on threads over these bytes, with what its front end waits for.
fn ran<R: Threads + Wait + Sync>(
    rt: &R,
    alloc: Global,
    input: Vec<u8>,
    plugins: Vec<Player>,
    hold: Hold,
) -> Option<Played> {
    if plugins.len() > 64 {
        return None;
    }
    let tally = Tally::new();
    let holds = [hold];
    let gate = Counter {
        tally: &tally,
        awaits: 0,
    };
    let mut source = Patient::new(alloc, input, &tally, &holds);
    let sink = MemSink::new(alloc, 1 << 20, Vec::new(alloc));
    let shelf = CalmShelf::new(alloc);
    Some(run_threads(rt, alloc, &mut source, sink, shelf, plugins, &gate))
}

fn on_threads<R: Threads + Wait + Sync>(
    rt: &R,
    alloc: Global,
    row: Row,
) -> Result<Option<Played>, NoMemory> {
    let input = joined(alloc, row.lines, row.lines.len())?;
    let plugins = plugins_of(alloc, row.parts)?;
    Ok(ran(rt, alloc, input, plugins, row.hold))
}

fn in_turns(alloc: Global, row: Row) -> Result<Option<Played>, NoMemory> {
    let input = joined(alloc, row.lines, row.lines.len())?;
    let plugins = plugins_of(alloc, row.parts)?;
    if plugins.len() > 64 {
        return Ok(None);
    }
    let mut source = MemSource::new(input, 4096, Vec::new(alloc));
    let sink = MemSink::new(alloc, 1 << 20, Vec::new(alloc));
    let shelf = CalmShelf::new(alloc);
    Ok(Some(run_alone(alloc, &mut source, sink, shelf, plugins)))
}

// Whether the plugins of both were given the same, in the same order.
fn hear_alike(one: &[Player], other: &[Player]) -> bool {
    let mut same = one.len() == other.len();
    for (player, twin) in one.iter().zip(other) {
        same = same && player.given.as_str() == twin.given.as_str();
    }
    same
}

// Whether both runs wrote the same bytes, and they show this.
fn show_alike(one: &MemSink, other: &MemSink, shown: &str) -> bool {
    let bytes = one.bytes().unwrap_or(&[]);
    one.bytes() == other.bytes() && str::from_utf8(bytes).unwrap_or("").contains(shown)
}

// Whether both runs went as the row says, and alike.
fn are_alike(alloc: Global, row: Row, one: &Played, other: &Played) -> Result<bool, NoMemory> {
    Ok(
        is_run(alloc, one, 0, row.told)?
            && is_run(alloc, other, 0, row.told)?
            && hear_alike(&one.plugins, &other.plugins)
            && show_alike(&one.sink, &other.sink, row.shown),
    )
}

// Whether the row comes to the same on threads and in turns.
fn goes_alike<R: Threads + Wait + Sync>(rt: &R, alloc: Global, row: Row) -> Result<bool, NoMemory> {
    let Some(other) = in_turns(alloc, row)? else {
        return Ok(false);
    };
    match on_threads(rt, alloc, row)? {
        Some(one) => are_alike(alloc, row, &one, &other),
        None => Ok(false),
    }
}

#[test]
fn scripts_come_to_the_same_on_threads_and_in_turns(rt: HostRuntime) {
    let alloc = rt.alloc();
    assert!(rt; is_so(goes_alike(&rt, alloc, REFUSED)));
    assert!(rt; is_so(goes_alike(&rt, alloc, ALERTED)));
    assert!(rt; is_so(goes_alike(&rt, alloc, STALE)));
    assert!(rt; is_so(goes_alike(&rt, alloc, AT_THE_CARET)));
    assert!(rt; is_so(goes_alike(&rt, alloc, DELETING)));
    assert!(rt; is_so(goes_alike(&rt, alloc, JOINING)));
    assert!(rt; is_so(goes_alike(&rt, alloc, MARKING)));
    assert!(rt; is_so(goes_alike(&rt, alloc, AT_ONE_GAP)));
    assert!(rt; is_so(goes_alike(&rt, alloc, HIGHER_FIRST)));
}
