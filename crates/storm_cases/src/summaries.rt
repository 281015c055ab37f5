//! What the six lines of a storm say.

use storm_lines::Summary;

#[test]
fn six_numbers_are_six_lines(rt: HostRuntime) {
    let summary = Summary {
        entries: 2002,
        revision: 1491,
        characters: 0,
        kept: 18446744073709551615,
        lines: 79,
        valid: 10,
    };
    match summary.text(rt.alloc()) {
        Ok(text) => assert!(rt;
            text.as_str()
                == "entries 2002\nrevision 1491\ncharacters 0\nkept 18446744073709551615\nlines 79\nvalid 10\n"
        ),
        Err(_) => assert!(rt; false),
    }
}
