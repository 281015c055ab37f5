//! Lines of JSON, read and written.

ghost use Rattle.json_rpc.specs.Request.{IsWireId};

use json_rpc::{Rpc, code_of, message_of, read_line, write_error, write_note, write_reply};
use plain_text::{NoMemory, Text};
use serde_json::Value;
use std::alloc::Global;
use xi_plain::{Fault, Id};

/// The method, the params, and the line that answers the id with null.
fn requested(alloc: Global, rpc: &Rpc) -> Result<String, NoMemory>
    requires { IsWireId rpc.now.id }
{
    let params = rpc.params.to_string(alloc)?;
    let reply = write_reply(alloc, &rpc.id, Value::Null)?;
    Ok(format!(in alloc; "{} {} {}", rpc.method, params, reply)?)
}

/// The fault; or what is requested.
fn outcome(alloc: Global, line: &[u8]) -> Result<String, NoMemory> {
    match read_line(alloc, line) {
        Ok(rpc) => requested(alloc, &rpc),
        Err(fault) => Ok(format!(in alloc; "{fault:?}")?),
    }
}

/// Whether the line comes to this.
fn comes_to(alloc: Global, line: &[u8], expected: &str) -> bool {
    match outcome(alloc, line) {
        Ok(found) => found.as_str() == expected,
        Err(_) => false,
    }
}

#[test]
fn a_line_that_is_no_json_is_refused(rt: HostRuntime) {
    let alloc = rt.alloc();
    assert!(rt; comes_to(alloc, b"{nope", "Parse"));
    assert!(rt; comes_to(alloc, b"", "Parse"));
    assert!(rt; comes_to(alloc, b"{\"method\":\"a\"}{\"method\":\"b\"}", "Parse"));
}

#[test]
fn characters_that_json_does_not_take_are_refused(rt: HostRuntime) {
    let alloc = rt.alloc();
    assert!(rt; comes_to(alloc, b"\xef\xbb\xbf{\"method\":\"a\"}", "Parse"));
    assert!(rt; comes_to(alloc, b"{\"method\":\"\xff\"}", "Parse"));
    assert!(rt; comes_to(alloc, b"{\"method\":\"\\ud800\"}", "Parse"));
    assert!(rt; comes_to(alloc, b"{\"method\":\"a\x01\"}", "Parse"));
}

#[test]
fn a_number_that_is_none_is_refused(rt: HostRuntime) {
    let alloc = rt.alloc();
    assert!(rt; comes_to(alloc, b"{\"id\":1e400,\"method\":\"a\"}", "Parse"));
    assert!(rt; comes_to(alloc, b"{\"id\":01,\"method\":\"a\"}", "Parse"));
}

#[test]
fn a_line_that_is_no_request_is_refused(rt: HostRuntime) {
    let alloc = rt.alloc();
    assert!(rt; comes_to(alloc, b"[]", "Invalid"));
    assert!(rt; comes_to(alloc, b"{\"id\":1}", "Invalid"));
    assert!(rt; comes_to(alloc, b"{\"method\":7}", "Invalid"));
}

#[test]
fn an_id_that_is_none_is_refused(rt: HostRuntime) {
    let alloc = rt.alloc();
    assert!(rt; comes_to(alloc, b"{\"id\":1.5,\"method\":\"a\"}", "Invalid"));
    assert!(rt; comes_to(alloc, b"{\"id\":null,\"method\":\"a\"}", "Invalid"));
    assert!(rt; comes_to(alloc, b"{\"id\":-0,\"method\":\"a\"}", "Invalid"));
    assert!(rt;
        comes_to(
            alloc,
            b"{\"id\":18446744073709551616,\"method\":\"a\"}",
            "Invalid"
        )
    );
    assert!(rt;
        comes_to(
            alloc,
            b"{\"id\":-9223372036854775809,\"method\":\"a\"}",
            "Invalid"
        )
    );
}

// Requests, and the last member of a name counts.
const GREATEST: &[u8] = b"{\"id\":18446744073709551615,\"method\":\"a\"}";

const LEAST: &[u8] = b"{\"id\":-9223372036854775808,\"method\":\"a\"}\n";

const TWICE: &[u8] =
    b"{\"method\":\"a\",\"id\":1,\"params\":[1.5,{\"b\":2,\"a\":1}],\"id\":2,\"method\":\"b\"}";

const SPACED: &[u8] = b" \t{ \"id\" : \"\\u00e9\\ud83d\\ude00\" , \"method\" : \"\" } \r\n";

const ESCAPED: &[u8] = b"{\"method\":\"a\\u0000\\n\\\"\",\"params\":null}\n";

#[test]
fn a_line_is_a_request(rt: HostRuntime) {
    let alloc = rt.alloc();
    assert!(rt;
        comes_to(
            alloc,
            GREATEST,
            "a null {\"id\":18446744073709551615,\"result\":null}\n"
        )
    );
    assert!(rt;
        comes_to(
            alloc,
            LEAST,
            "a null {\"id\":-9223372036854775808,\"result\":null}\n"
        )
    );
    assert!(rt;
        comes_to(
            alloc,
            TWICE,
            "b [1.5,{\"a\":1,\"b\":2}] {\"id\":2,\"result\":null}\n"
        )
    );
    assert!(rt;
        comes_to(
            alloc,
            SPACED,
            " null {\"id\":\"\u{e9}\u{1f600}\",\"result\":null}\n"
        )
    );
    assert!(rt;
        comes_to(
            alloc,
            ESCAPED,
            "a\0\n\" null {\"id\":null,\"result\":null}\n"
        )
    );
}

/// The line that tells a fault.
fn told(alloc: Global, fault: &Fault) -> Result<Text, NoMemory> {
    let message = message_of(alloc, fault)?;
    write_error(alloc, &Id::NoId, code_of(fault), &message)
}

/// Whether the fault is told so.
fn tells(alloc: Global, fault: Fault, expected: &str) -> bool {
    match told(alloc, &fault) {
        Ok(found) => found.as_str() == expected,
        Err(_) => false,
    }
}

fn tells_no_method(alloc: Global, name: &str, expected: &str) -> bool {
    match Text::from_str(alloc, name) {
        Ok(name) => tells(alloc, Fault::NoMethod(name), expected),
        Err(_) => false,
    }
}

fn tells_bad_params(alloc: Global, member: &str, expected: &str) -> bool {
    match Text::from_str(alloc, member) {
        Ok(member) => tells(alloc, Fault::BadParams(member), expected),
        Err(_) => false,
    }
}

const PARSE: &str = "{\"error\":{\"code\":-32700,\"message\":\"parse error\"},\"id\":null}\n";

const NO_METHOD: &str =
    "{\"error\":{\"code\":-32601,\"message\":\"method not found: é\"},\"id\":null}\n";

const BAD_PARAMS: &str =
    "{\"error\":{\"code\":-32602,\"message\":\"invalid params: chars\"},\"id\":null}\n";

#[test]
fn an_error_names_its_code(rt: HostRuntime) {
    let alloc = rt.alloc();
    assert!(rt; tells(alloc, Fault::Parse, PARSE));
    assert!(rt; tells_no_method(alloc, "é", NO_METHOD));
    assert!(rt; tells_bad_params(alloc, "chars", BAD_PARAMS));
}

/// The line of a note with this method, and the method that it reads as.
fn noted(alloc: Global, method: &str) -> Result<String, NoMemory> {
    let method = Text::from_str(alloc, method)?;
    let line = write_note(alloc, &method, Value::from(3u8))?;
    match read_line(alloc, line.as_str().as_bytes()) {
        Ok(rpc) => Ok(format!(in alloc; "{}{}", line, rpc.method)?),
        Err(fault) => Ok(format!(in alloc; "{fault:?}")?),
    }
}

/// Whether a note of this method is this line and the method that it reads as.
fn notes(alloc: Global, method: &str, expected: &str) -> bool {
    match noted(alloc, method) {
        Ok(found) => found.as_str() == expected,
        Err(_) => false,
    }
}

const QUOTED: &str = "{\"method\":\"a\\\"b\\\\c/\",\"params\":3}\na\"b\\c/";

const CONTROLS: &str =
    "{\"method\":\"\\u0000\\u001f\\n\\r\\t\\b\\f\u{7f}\",\"params\":3}\n\0\u{1f}\n\r\t\u{8}\u{c}\u{7f}";

const WIDE: &str =
    "{\"method\":\"\u{2028}\u{e9}\u{ffff}\u{1f600}\",\"params\":3}\n\u{2028}\u{e9}\u{ffff}\u{1f600}";

#[test]
fn a_written_text_reads_back(rt: HostRuntime) {
    let alloc = rt.alloc();
    assert!(rt; notes(alloc, "a\"b\\c/", QUOTED));
    assert!(rt; notes(alloc, "\0\u{1f}\n\r\t\u{8}\u{c}\u{7f}", CONTROLS));
    assert!(rt; notes(alloc, "\u{2028}\u{e9}\u{ffff}\u{1f600}", WIDE));
}
