ghost use Rattle.std.specs.Prelude.{◌≡◌, ◌-◌, ◌<◌, ◌≤◌, IfSome, length};
ghost use Rattle.line_break.specs.Breaks.{is_breaking, is_space_or_tab};
ghost use Rattle.line_break.specs.Plain.{IsFirstShown, IsLastBreak, IsPlainEnd};

/// How long the piece is that begins with these printable characters, where one of them shows beyond the width; `None` where none does.
pub(crate) fn plain_end(run: &[u8], width: u32) -> Option<usize>
    ensures { IfSome result (IsPlainEnd width run.now) }
{
    match first_shown(run, width as usize) {
        Some(stop) if stop > 0 => Some(last_break(run, stop)),
        _ => None,
    }
}

/// The first of these characters, from one on, that is no blank.
fn first_shown(run: &[u8], from: usize) -> Option<usize>
    ensures { IfSome result (IsFirstShown run.now from) }
{
    let mut at = from;
    while at < run.len() {
        if !is_space_or_tab(run[at]) {
            return Some(at);
        }
        at += 1;
    }
    None
}

/// How many of the first characters end with one after which a line may be broken, at most `stop`; `stop` where there is none.
fn last_break(run: &[u8], stop: usize) -> usize
    requires some { 0 < stop }
    requires inside { stop ≤ length run.now }
    ensures { IsLastBreak run.now stop result }
{
    let mut len = stop;
    while len > 0 {
        if is_breaking(run[len - 1]) {
            return len;
        }
        len -= 1;
    }
    stop
}

fn is_breaking(byte: u8) -> bool
    ensures { result ≡ is_breaking byte }
{
    is_space_or_tab(byte) || byte == b'-'
}

fn is_space_or_tab(byte: u8) -> bool
    ensures { result ≡ is_space_or_tab byte }
{
    byte == b' ' || byte == b'\t'
}
