//! Decides a rule file: reads it from standard input, and prints whether its rules can all be obeyed and by which values.
#![tactic(auto)]

use answer::{MOST_BYTES, decide};
use std::io::Read;

fn main(rt: HostRuntime) -> anyhow::Result<()> {
    run(&rt)
}

fn run(rt: &HostRuntime) -> anyhow::Result<()> {
    let mut text = Vec::new(rt.alloc());
    // One byte more than are allowed tells a text that is too long.
    rt.stdin()
        .take(MOST_BYTES as u64 + 1)
        .read_to_end(&mut text)?;
    print!(rt; "{}", decide(&text))?;
    Ok(())
}
