//! Rows of pages: each step of a script, and behind it what comes of it.

use crate::script::plays;

#[test]
fn a_page_is_read_in_pieces(rt: HostRuntime) {
    let alloc = rt.alloc();
    assert!(rt;
        plays(
            alloc,
            "open v 7; page v; asks; chunk 0 0 aé; page v; asks; chunk 1 3 𝄞; page v; asks",
            "ok; 0... ; 0:v from 0 most 4; ok; 0... aé; 1:v from 3 most 4; ok; 0 aé𝄞; "
        )
    );
    assert!(rt;
        plays(
            alloc,
            "open v 7; asks; chunk 0 0 aé; asks; chunk 1 3 𝄞; update v 1 6 7 {\"copy\":[1,7]}; page v; update v 2 0 7 ; page v; update v 4 0 6 ; page v; asks; asks",
            "ok; 0:v from 0 most 4; ok; 1:v from 3 most 4; ok; ok; 1 é𝄞; bad 1 at 7; 1 é𝄞; gap 1; 1 é𝄞; ack v 1; "
        )
    );
}

#[test]
fn asks_have_no_line_feed(rt: HostRuntime) {
    assert!(rt;
        plays(
            rt.alloc(),
            "open v 1; open w 0; update w 1 1 0 {\"insert\":\"a\"}; written",
            "ok; ok; ok; <{\"id\":0,\"method\":\"get_data\",\"params\":{\"max_size\":4,\"rev\":0,\"start\":0,\"view_id\":\"v\"}}><{\"method\":\"ack\",\"params\":{\"rev\":1,\"view_id\":\"w\"}}>"
        )
    );
}

#[test]
fn updates_wait_for_the_whole_page(rt: HostRuntime) {
    let alloc = rt.alloc();
    assert!(rt;
        plays(
            alloc,
            "open v 7; asks; chunk 0 0 aé; asks; update v 1 6 7 {\"copy\":[1,7]}; page v; chunk 1 3 𝄞; page v; asks; asks",
            "ok; 0:v from 0 most 4; ok; 1:v from 3 most 4; ok; 0... aé; ok; 1 é𝄞; ack v 1; "
        )
    );
    assert!(rt;
        plays(
            alloc,
            "open v 3; update v 1 4 3 {\"copy\":[0,3]},{\"insert\":\"x\"}; update v 2 3 4 {\"copy\":[1,4]}; asks; update v 3 5 3 {\"insert\":\"é\"},{\"copy\":[0,3]}; update v 3 0 5 ; chunk 0 0 abc; page v; asks",
            "ok; ok; ok; 0:v from 0 most 4; ok; gap 3; ok; 3 ébcx; ack v 3"
        )
    );
    assert!(rt;
        plays(
            alloc,
            "open v 3; update v 1 4 3 {\"copy\":[0,3]},{\"insert\":\"x\"}; update v 2 2 4 {\"copy\":[1,5]}; asks; chunk 0 0 abc; page v; asks; chunk 0 0 abc",
            "ok; ok; ok; 0:v from 0 most 4; bad 3 at 5; 0... ; ; bad 3 at 5"
        )
    );
    assert!(rt;
        plays(
            alloc,
            "open v 3; update v 1 9 3 {\"copy\":[0,2]}; asks; chunk 0 0 abc; page v",
            "ok; ok; 0:v from 0 most 4; length 2; 0... "
        )
    );
}

#[test]
fn a_closed_view_is_not_known(rt: HostRuntime) {
    let alloc = rt.alloc();
    assert!(rt;
        plays(
            alloc,
            "open v 3; asks; close v; chunk 0 0 abc; page v; asks; update v 1 0 3 ; close v; open v 3; asks; chunk 1 0 abc; page v",
            "ok; 0:v from 0 most 4; ok; unread; none; ; unknown v; unknown v; ok; 1:v from 0 most 4; ok; 0 abc"
        )
    );
    assert!(rt;
        plays(
            alloc,
            "open v 3; asks; open v 2; chunk 0 0 abc; asks; chunk 1 0 de; page v",
            "ok; 0:v from 0 most 4; ok; unread; 1:v from 0 most 4; ok; 0 de"
        )
    );
}

#[test]
fn views_have_pages_of_their_own(rt: HostRuntime) {
    let alloc = rt.alloc();
    assert!(rt;
        plays(
            alloc,
            "open v 6; open w 2; asks; chunk 1 0 xy; page w; page v; asks; chunk 0 0 abcd; update w 1 1 2 {\"copy\":[1,2]}; asks; chunk 2 4 ef; page v; page w; close v; page w; page v; asks",
            "ok; ok; 0:v from 0 most 4, 1:w from 0 most 4; ok; 0 xy; 0... ; ; ok; ok; 2:v from 4 most 4, ack w 1; ok; 0 abcdef; 1 y; ok; 1 y; none; "
        )
    );
}

#[test]
fn an_error_closes_its_ask_for_good(rt: HostRuntime) {
    let alloc = rt.alloc();
    assert!(rt;
        plays(
            alloc,
            "open v 6; asks; chunk 0 0 abcd; asks; error 1; page v; asks; chunk 1 4 ef; error 1; update v 1 0 6 ; asks; page v",
            "ok; 0:v from 0 most 4; ok; 1:v from 4 most 4; ok; 0... abcd; ; unread; unread; ok; ; 0... abcd"
        )
    );
    assert!(rt;
        plays(
            alloc,
            "error null; open v 1; asks; error null; chunk 0 0 a; page v",
            "ok; ok; 0:v from 0 most 4; ok; ok; 0 a"
        )
    );
}

#[test]
fn an_answer_that_is_no_next_piece_is_not_taken(rt: HostRuntime) {
    let alloc = rt.alloc();
    assert!(rt;
        plays(
            alloc,
            "open v 3; asks; chunk 0 1 bc; asks; chunk 0 0 abcd; page v; {\"id\":0,\"result\":null}; {\"id\":0,\"result\":4}; {\"id\":0,\"result\":{\"rev\":1,\"undo_group\":1}}; {\"id\":0,\"result\":true}; chunk 0 0 ; asks; chunk 1 0 abc; page v",
            "ok; 0:v from 0 most 4; unread; ; length 4; 0... ; unread; unread; unread; unread; ok; 1:v from 0 most 4; ok; 0 abc"
        )
    );
    assert!(rt;
        plays(
            alloc,
            "open v 3; chunk 0 0 abc; asks; chunk 1 0 abc; chunk -1 0 abc; chunk \"0\" 0 abc; chunk null 0 abc; chunk 18446744073709551616 0 abc",
            "ok; unread; 0:v from 0 most 4; unread; unread; unread; unread; unread"
        )
    );
}

#[test]
fn an_empty_page_is_whole_at_once(rt: HostRuntime) {
    let alloc = rt.alloc();
    assert!(rt;
        plays(
            alloc,
            "open v 0; page v; asks; update v 1 2 0 {\"insert\":\"é\"}; asks; page v; update v 2 2 2 {\"copy\":[0,2]}; update v 3 0 2 ; asks; asks; page v",
            "ok; 0 ; ; ok; ack v 1; 1 é; ok; ok; ack v 3; ; 3 "
        )
    );
}

#[test]
fn what_tells_nothing_is_not_read(rt: HostRuntime) {
    let alloc = rt.alloc();
    assert!(rt;
        plays(
            alloc,
            "{}; ; x; asks; page v; {\"method\":\"initialize\",\"params\":{\"plugin_id\":1}}; {\"method\":\"shutdown\",\"params\":{}}; update v 1 0 0 ; close v",
            "unread; unread; unread; ; none; ok; ok; unknown v; unknown v"
        )
    );
    assert!(rt;
        plays(
            alloc,
            "{\"method\":\"new_buffer\",\"params\":{\"len\":1,\"rev\":0}}; {\"method\":\"update\",\"params\":{\"author\":0,\"delta\":{\"base_len\":0,\"els\":[]},\"new_len\":0,\"rev\":1}}; {\"method\":\"did_close\",\"params\":{}}; asks",
            "unread; unread; unread; "
        )
    );
    assert!(rt;
        plays(
            alloc,
            "open v 1; asks; chunk 0 0 a; update v 0 1 1 {\"copy\":[0,1]}; update v 2 1 1 {\"copy\":[0,1]}; update v 1 2 1 {\"copy\":[0,1]}; update v 1 1 1 {\"copy\":[0,1]}; update v 1 1 1 {\"copy\":[0,1]}; page v",
            "ok; 0:v from 0 most 4; ok; gap 0; gap 0; length 1; ok; gap 1; 1 a"
        )
    );
}
