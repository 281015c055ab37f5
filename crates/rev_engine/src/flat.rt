// The characters of a union: those that a revision shows, and those that an edit puts in.
ghost use Rattle.std.specs.Prelude.{◌≡◌, ◌+◌, ◌^◌, ◌<◌, ◌≤◌, length, IfOk};
ghost use Rattle.std.specs.Str.{chars};
ghost use Rattle.shared_tree.specs.Replaced.{replaced};
ghost use Rattle.plain_text.specs.Text.{byte_len};
ghost use Rattle.subset_runs.specs.Subset.{count, items_outside};
ghost use Rattle.rev_rebase.specs.Rebase.{put_in};

use plain_text::{NoMemory, Text, split_at_gap};
use rope_tree::Rope;
use std::alloc::Global;
use subset_runs::Subset;

// The text of a rope, in one pass.
pub(crate) fn whole(alloc: Global, rope: &Rope) -> Result<Text, NoMemory>
    ensures { IfOk result (λ made. made ≡ rope.now) }
{
    rope.slice(alloc, 0, rope.len())
}

// The characters of a union that are not dead, in the time of its text.
pub(crate) fn alive(alloc: Global, union: &Rope, dead: &Subset) -> Result<Text, NoMemory>
    requires { length union.now ≡ length dead.now }
    ensures { IfOk result (λ made. made ≡ items_outside dead.now union.now) }
{
    let text = whole(alloc, union)?;
    outside(alloc, &text, dead)
}

// The characters of a text that are not dead: one walk over both.
fn outside(alloc: Global, text: &Text, dead: &Subset) -> Result<Text, NoMemory>
    requires { length text.now ≡ length dead.now }
    ensures { IfOk result (λ made. made ≡ items_outside dead.now text.now) }
{
    let mut made = Text::new(alloc);
    let mut rest = text.as_str();
    let mut walk = dead.walk();
    while !walk.is_empty() {
        let next = walk.front();
        let (front, back) = split_at_gap(rest, next.len);
        if !next.member {
            made.push_str(front)?;
        }
        walk.skip(next.len);
        rest = back;
    }
    Ok(made)
}

// The characters of a union that are not gone: the height of the rope for each run of them.
pub(crate) fn picked(alloc: Global, union: &Rope, gone: &Subset) -> Result<Text, NoMemory>
    requires { length union.now ≡ length gone.now }
    ensures { IfOk result (λ made. made ≡ items_outside gone.now union.now) }
{
    let mut made = Text::new(alloc);
    let mut gap: u64 = 0;
    let mut walk = gone.walk();
    while !walk.is_empty() {
        let next = walk.front();
        let start = gap;
        gap += next.len;
        if !next.member {
            made.push_text(&union.slice(alloc, start, gap)?)?;
        }
        walk.skip(next.len);
    }
    Ok(made)
}

// The union with a text put in at the positions `at`: the height of the rope for each of their runs.
pub(crate) fn with_put_in(
    alloc: Global,
    union: &Rope,
    at: &Subset,
    text: &Text,
) -> Result<Rope, NoMemory>
    requires longer { length at.now ≡ length union.now + count at.now }
    requires members { count at.now ≡ length text.now }
    requires fits { byte_len union.now + byte_len text.now < 2 ^ 64 }
    ensures { IfOk result (λ made. made ≡ put_in at.now text.now union.now) }
{
    let mut made = union.copy(alloc)?;
    let mut rest = text.as_str();
    let mut gap: u64 = 0;
    let mut walk = at.walk();
    while !walk.is_empty() {
        let next = walk.front();
        if next.member {
            let (front, back) = split_at_gap(rest, next.len);
            made = put_at(alloc, &made, gap, front)?;
            rest = back;
        }
        gap += next.len;
        walk.skip(next.len);
    }
    Ok(made)
}

// The rope with a text put in at a gap.
fn put_at(alloc: Global, rope: &Rope, gap: u64, text: &str) -> Result<Rope, NoMemory>
    requires inside { gap ≤ length rope.now }
    requires fits { byte_len (replaced rope.now gap gap (chars text.now)) < 2 ^ 64 }
    ensures { IfOk result (λ made. made ≡ replaced rope.now gap gap (chars text.now)) }
{
    let text = Text::from_str(alloc, text)?;
    rope.replaced(alloc, gap, gap, &text)
}
