//! Judges every root and strip of the input as they are and after damage to the strip: each byte changed
//! in turn, every shorter strip, and two longer ones.

#![tactic(auto)]

use std::alloc::{AllocError, Global};
use std::fmt::Display;
use strip::judge::judge;
use text::answer::Verdict;
use text::bytes::decode;
use text::damage::{each_change, each_cut};

/// The bits that are inverted in each byte, one at a time.
const BITS: [u8; 2] = [1, 128];

fn main(rt: HostRuntime) -> anyhow::Result<()> {
    let heap = rt.alloc();
    // the root whose strip comes next
    let mut waiting = None;
    for line in rt.lines(heap) {
        let bytes = decode(heap, line?.as_bytes())?;
        match waiting.take() {
            None => waiting = Some(bytes),
            Some(root) => judge_all(&rt, &root, bytes)?,
        }
    }
    Ok(())
}

fn judge_all(rt: &HostRuntime, root: &[u8], mut strip: Vec<u8>) -> anyhow::Result<()> {
    tell(rt, "whole", root, &strip)?;
    each_change(&mut strip, &BITS, |damage, strip| {
        tell(rt, damage, root, strip)
    })?;
    let strip = &strip[..];
    each_cut(strip, |damage, strip| tell(rt, damage, root, strip))?;
    let one_more = joined(rt.alloc(), strip, &[0])?;
    tell(rt, "one more", root, &one_more)?;
    let doubled = joined(rt.alloc(), strip, strip)?;
    tell(rt, "doubled", root, &doubled)
}

fn joined(heap: Global, one: &[u8], other: &[u8]) -> Result<Vec<u8>, AllocError> {
    let mut both = Vec::from_slice(heap, one)?;
    both.extend_from_slice(other)?;
    Ok(both)
}

fn tell<D: Display + Copy>(
    rt: &HostRuntime,
    what: D,
    root: &[u8],
    strip: &[u8],
) -> anyhow::Result<()> {
    let verdict = Verdict(judge(root, strip));
    println!(rt; "{what}: {verdict}")?;
    Ok(())
}
