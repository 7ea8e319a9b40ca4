//! Reads the job ticket of the input as it is and after damage: each byte changed in turn, every shorter
//! text, and a longer one. Then asks for the sizes of some tables.

#![tactic(auto)]

use std::fmt::Display;
use std::io::Read;
use text::damage::{each_change, each_cut};
use ticket::job::Job;
use ticket::ticket::read;
use tree::geometry::{Heights, size};
use tree::seed::{SEED_LENGTH, SeedSource};
use tree::source::{Source, TOKEN_LENGTH};

/// The bits that are inverted in each byte, one at a time.
const BITS: [u8; 2] = [1, 64];

/// Heights of trees and of their subtrees, legal and not. Each row is a tuple, since rows of named fields would
/// take four lines each.
const HEIGHTS: [(u32, u32); 8] = [
    (1, 1),
    (4, 1),
    (4, 2),
    (20, 10),
    (11, 10),
    (21, 1),
    (0, 1),
    (4, 0),
];

fn main(rt: HostRuntime) -> anyhow::Result<()> {
    let mut text = Vec::new(rt.alloc());
    rt.stdin().read_to_end(&mut text)?;
    tell(&rt, "whole", &text)?;
    each_change(&mut text, &BITS, |damage, text| tell(&rt, damage, text))?;
    each_cut(&text, |damage, text| tell(&rt, damage, text))?;
    text.push(b'\n')?;
    tell(&rt, "one more", &text)?;
    for (height, subtree) in HEIGHTS {
        tell_size(&rt, Heights { height, subtree })?;
    }
    Ok(())
}

/// What a text asks for, with the beginning of its first token; or where it goes wrong.
fn tell<D: Display + Copy>(rt: &HostRuntime, what: D, text: &[u8]) -> anyhow::Result<()> {
    let mut scratch = [255; 40];
    let mut source = SeedSource::new([0; SEED_LENGTH]);
    match read(text, &mut scratch, &mut source) {
        Ok(job) => {
            let token = first_token(&mut source);
            let Job { kind, heights } = job;
            println!(rt; "{what}: {kind} {heights} {token}")?;
        }
        Err(refusal) => println!(rt; "{what}: {refusal}")?,
    }
    Ok(())
}

/// The first four bytes of the first token, as a number.
fn first_token(source: &mut SeedSource) -> u32 {
    let mut token = [0; TOKEN_LENGTH];
    source.token(0, &mut token).unwrap();
    let [a, b, c, d, ..] = token;
    u32::from_be_bytes([a, b, c, d])
}

fn tell_size(rt: &HostRuntime, heights: Heights) -> anyhow::Result<()> {
    match size(heights) {
        Ok(cells) => println!(rt; "size {heights}: {cells}")?,
        Err(refusal) => println!(rt; "size {heights}: {refusal}")?,
    }
    Ok(())
}
