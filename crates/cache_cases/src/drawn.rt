//! Entries that are drawn from a seed, each beside the rule line by line.

use crate::definition::{Drawn, Numbered};
use crate::entered::entered;
use line_cache::{Mirror, Stay};
use plain_text::{NoMemory, Run};
use rand_core::{Rng, SeedableRng};
use rand_pcg::Lcg64Xsh32;
use std::alloc::Global;

// A number below `most`.
fn below(words: &mut Lcg64Xsh32, most: u32) -> u64 {
    if most == 0 {
        return 0;
    }
    u64::from(words.next_u32() % most)
}

// A run of so many parts of this length.
fn run(words: &mut Lcg64Xsh32, part: u64, most: u32) -> Run {
    let start = below(words, 26).wrapping_mul(part);
    Run {
        start,
        end: start.wrapping_add(below(words, most).wrapping_mul(part)),
    }
}

// Lines that stay among so many old ones and so many new ones: at most five runs, some of them empty.
fn stays(
    alloc: Global,
    words: &mut Lcg64Xsh32,
    part: u64,
    count: u64,
    total: u64,
) -> Result<Vec<Stay>, NoMemory> {
    let mut stays = Vec::new(alloc);
    let mut old = 0u64;
    let mut new = 0u64;
    for _ in 0..below(words, 6) {
        old = old
            .wrapping_add(below(words, 3).wrapping_mul(part))
            .min(count);
        new = new
            .wrapping_add(below(words, 3).wrapping_mul(part))
            .min(total);
        let n = below(words, 9).wrapping_mul(part);
        let n = n.min(count.wrapping_sub(old)).min(total.wrapping_sub(new));
        let same = below(words, 3) > 0;
        stays.push(Stay { old, new, n, same })?;
        old = old.wrapping_add(n);
        new = new.wrapping_add(n);
    }
    Ok(stays)
}

// One entry of twenty has parts of 170 lines, so that some lie past the margin.
fn entry(alloc: Global, words: &mut Lcg64Xsh32, count: u64) -> Result<Drawn, NoMemory> {
    let part = if below(words, 20) == 0 { 170 } else { 1 };
    let total = below(words, 24).wrapping_mul(part);
    Ok(Drawn {
        stay: stays(alloc, words, part, count, total)?,
        total,
        window: run(words, part, 9),
        request: run(words, part, 4),
        numbered: Numbered::TwoOfThree {
            salt: below(words, 3),
        },
    })
}

// Whether each entry of a session of eight goes by the rule.
fn session_agrees(alloc: Global, words: &mut Lcg64Xsh32) -> Result<bool, NoMemory> {
    let mut mirror = Mirror::new();
    for _ in 0..8u64 {
        let drawn = entry(alloc, words, mirror.len())?;
        match entered(alloc, &mirror, &drawn)? {
            Some((next, _ops)) => mirror = next,
            None => return Ok(false),
        }
    }
    Ok(true)
}

// Whether each of so many sessions does.
fn sessions_agree(alloc: Global, seed: u64, sessions: u64) -> Result<bool, NoMemory> {
    let mut words = Lcg64Xsh32::seed_from_u64(seed);
    for _ in 0..sessions {
        if !session_agrees(alloc, &mut words)? {
            return Ok(false);
        }
    }
    Ok(true)
}

#[test]
fn entries_go_by_the_rule(rt: HostRuntime) {
    assert!(rt; sessions_agree(rt.alloc(), 5, 1250).unwrap_or(false));
}
