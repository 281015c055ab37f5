ghost use Rattle.std.specs.Prelude.{◌≡◌, ◌++◌, OnOk, IfOk, decimal};
ghost use Rattle.session_by_hand.specs.Said.{answer_said, answered, marked, over_word, reply_line, reply_said, told_lines};

use plain_text::{Bytes, List, NoMemory, Text, Texts};
use std::alloc::Global;
use xi_plain::{Answer, Reply};

/// What is printed of a reply, and of what was written with it.
pub fn reply_said(alloc: Global, reply: &Reply, written: &[u8]) -> Result<Bytes, NoMemory>
    ensures { IfOk result (λ said. said ≡ reply_said reply.now written.now) }
{
    let mut out = Vec::new(alloc);
    push_reply_line(&mut out, reply)?;
    out.push(b'\n')?;
    push_marked(&mut out, written)?;
    Ok(List::from_vec(out))
}

fn push_reply_line(out: &mut Vec<u8>, reply: &Reply) -> Result<(), NoMemory>
    ensures { OnOk result (out.new.items ≡ out.old.items ++ reply_line reply.now) }
{
    match reply {
        Reply::Taken(answer) => push_answered(out, b"= taken", answer),
        Reply::Refused(answer) => push_answered(out, b"= refused", answer),
        Reply::SinkFault => Ok(out.extend_from_slice(b"= sinkfault")?),
        Reply::Closed => Ok(out.extend_from_slice(b"= closed")?),
        Reply::NoMemory => Ok(out.extend_from_slice(b"= nomemory")?),
    }
}

/// A word, and behind it the answer where there is one.
fn push_answered(out: &mut Vec<u8>, word: &[u8], answer: &Text) -> Result<(), NoMemory>
    ensures { OnOk result (out.new.items ≡ out.old.items ++ answered word.now answer.now) }
{
    out.extend_from_slice(word)?;
    if answer.is_empty() {
        return Ok(());
    }
    out.push(b' ')?;
    Ok(out.extend_from_slice(answer.as_str().as_bytes())?)
}

/// Bytes, with `> ` before each line, and an LF behind the last one where it has none.
fn push_marked(out: &mut Vec<u8>, bytes: &[u8]) -> Result<(), NoMemory>
    ensures { OnOk result (out.new.items ≡ out.old.items ++ marked bytes.now) }
{
    let mut is_start = true;
    for byte in bytes {
        if is_start {
            out.extend_from_slice(b"> ")?;
        }
        out.push(*byte)?;
        is_start = *byte == b'\n';
    }
    if !is_start {
        out.push(b'\n')?;
    }
    Ok(())
}

/// What is printed of an answer.
pub fn answer_said(alloc: Global, answer: &Answer) -> Result<Bytes, NoMemory>
    ensures { IfOk result (λ said. said ≡ answer_said answer.now) }
{
    let mut out = Vec::new(alloc);
    push_answer(alloc, &mut out, answer)?;
    Ok(List::from_vec(out))
}

fn push_answer(alloc: Global, out: &mut Vec<u8>, answer: &Answer) -> Result<(), NoMemory>
    ensures { OnOk result (out.new.items ≡ out.old.items ++ answer_said answer.now) }
{
    match answer {
        Answer::Notices { lines, next, over } => {
            out.extend_from_slice(b"= notices ")?;
            push_number(alloc, out, *next)?;
            out.extend_from_slice(over_word(*over))?;
            push_told(out, lines)
        }
        Answer::Nothing { len } => {
            out.extend_from_slice(b"= nothing ")?;
            push_number(alloc, out, *len)?;
            Ok(out.push(b'\n')?)
        }
        Answer::NoMemory => Ok(out.extend_from_slice(b"= nomemory\n")?),
    }
}

fn over_word(over: bool) -> &'static [u8]
    ensures { result.now ≡ over_word over }
{
    if over { b" true\n" } else { b" false\n" }
}

fn push_number(alloc: Global, out: &mut Vec<u8>, n: u64) -> Result<(), NoMemory>
    ensures { OnOk result (out.new.items ≡ out.old.items ++ decimal n) }
{
    Ok(out.extend_from_slice(n.to_string(alloc)?.as_bytes())?)
}

/// Lines that tell of entries, each with `< ` before it.
fn push_told(out: &mut Vec<u8>, lines: &Texts) -> Result<(), NoMemory>
    ensures { OnOk result (out.new.items ≡ out.old.items ++ told_lines lines.now) }
{
    for line in lines.as_slice() {
        out.extend_from_slice(b"< ")?;
        out.extend_from_slice(line.as_str().as_bytes())?;
        out.push(b'\n')?;
    }
    Ok(())
}
