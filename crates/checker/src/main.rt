//! Checks a printed proof strip against a root: reads the root and the strip in hex, a line each, and
//! prints the verdict.

#![tactic(auto)]

use anyhow::anyhow;
use std::io;
use std::process::ExitCode;
use strip::judge::judge;
use text::answer::Verdict;
use text::bytes::decode;

/// The message is printed here, under the program's name, and not by returning the error.
fn main(rt: HostRuntime) -> io::Result<ExitCode> {
    if let Err(error) = run(&rt) {
        eprintln!(rt; "checker: {error}")?;
        return Ok(ExitCode::FAILURE);
    }
    Ok(ExitCode::SUCCESS)
}

fn run(rt: &HostRuntime) -> anyhow::Result<()> {
    let heap = rt.alloc();
    let mut lines = Vec::new(heap);
    for line in rt.lines(heap) {
        lines.push(line?)?;
    }
    let [root, strip] = &lines[..] else {
        return Err(anyhow!("two lines are wanted: the root, and then the strip"));
    };
    let root = decode(heap, root.as_bytes())?;
    let strip = decode(heap, strip.as_bytes())?;
    println!(rt; "{}", Verdict(judge(&root, &strip)))?;
    Ok(())
}
