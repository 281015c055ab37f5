ghost use Rattle.std.specs.Prelude.{◌≡◌, ◌+◌, ◌≤◌, ◌↔◌, [], IsNone, IfSome, IsTrue, length, take, drop, true, false};
ghost use Rattle.std.specs.List.{list_all};
ghost use Rattle.cluster_core.specs.Plain.{BeginsAlone, BeginsByClusters, ComesApart, IsFirstCluster, StandsAlone, is_apart, is_plain_character, is_printable_character};

use unicode_segmentation::UnicodeSegmentation;

/// The first cluster of a line, and the line from that cluster's end on; `None` where the line is empty. It takes no memory.
pub(crate) fn first_cluster(line: &str) -> Option<(&str, &str)>
    ensures parts { IfSome result (λ parts. IsFirstCluster line.now parts.0.now parts.1.now) }
    ensures none { IsNone result ↔ (line.now ≡ []) }
{
    if stands_alone(line.as_bytes()) {
        return Some(line.split_at(1));
    }
    match line.graphemes(true).next() {
        Some(cluster) => Some(line.split_at(cluster.len())),
        None => None,
    }
}

/// Whether the first byte is a plain character that is known to be a cluster, so that no table has to be asked.
fn stands_alone(bytes: &[u8]) -> bool
    ensures { IsTrue result → StandsAlone bytes.now }
{
    match bytes {
        [only] => is_plain(*only),
        [first, next, ..] => is_plain(*first) && is_apart(*next),
        [] => false,
    }
}

fn is_plain(byte: u8) -> bool
    ensures { result ≡ is_plain_character byte }
{
    byte == b'\t' || (b' ' <= byte && byte <= b'~')
}

fn is_apart(byte: u8) -> bool
    ensures { result ≡ is_apart byte }
{
    is_plain(byte) || byte == b'\n' || byte == b'\r'
}

/// The printable characters at the start of a line, at most so many, each of which is a cluster.
pub(crate) fn first_alone(line: &str, most: u64) -> &[u8]
    ensures begins { BeginsAlone line.now result.now }
    ensures clusters { BeginsByClusters line.now result.now }
    ensures few { length result.now ≤ most }
{
    let bytes = line.as_bytes();
    let (run, rest) = bytes.split_at(printable_len(bytes, most));
    if is_joined(rest) {
        bytes.split_at(run.len().saturating_sub(1)).0
    } else {
        run
    }
}

/// What stands behind these characters, which a line begins with.
pub(crate) fn past_alone<'a>(line: &'a str, run: &[u8]) -> &'a str
    requires { BeginsAlone line.now run.now }
    ensures rest { result.now ≡ drop (length run.now) line.now }
    ensures clusters { BeginsByClusters line.now run.now }
    ensures len { length run.now + length result.now ≡ length line.now }
{
    line.split_at(run.len()).1
}

/// How many of the first bytes are printable, at most so many.
fn printable_len(bytes: &[u8], most: u64) -> usize
    ensures few { result ≤ most }
    ensures inside { result ≤ length bytes.now }
    ensures printable { list_all is_printable_character (take result bytes.now) ≡ true }
{
    let mut len: usize = 0;
    while len < bytes.len() && (len as u64) < most && is_printable_byte(bytes[len]) {
        len += 1;
    }
    len
}

/// Whether what comes next may belong to the character before it.
fn is_joined(rest: &[u8]) -> bool
    ensures { result ≡ false → ComesApart rest.now }
{
    match rest {
        [next, ..] => !is_apart(*next),
        [] => false,
    }
}

fn is_printable_byte(byte: u8) -> bool
    ensures { result ≡ is_printable_character byte }
{
    b' ' <= byte && byte <= b'~'
}
