//! Answers rule files, and compares with what has to be printed for each.
//!
//! Standard input names the files, one to a line: `NAME.in` is a rule file, and `NAME.out` has the lines for it.
#![tactic(auto)]

use answer::decide;
use std::fs;

fn main(rt: HostRuntime) -> anyhow::Result<()> {
    run(&rt)
}

fn run(rt: &HostRuntime) -> anyhow::Result<()> {
    let mut files = 0u32;
    let mut expected = 0u32;
    for line in rt.lines(rt.alloc()) {
        let name = line?;
        files = files.saturating_add(1);
        if is_as_expected(rt, name.as_str())? {
            expected = expected.saturating_add(1);
        } else {
            println!(rt; "{name} is not as expected")?;
        }
    }
    println!(rt; "{expected} of {files} files as expected")?;
    Ok(())
}

/// Whether the answer to a file is the expected one.
fn is_as_expected(rt: &HostRuntime, name: &str) -> anyhow::Result<bool> {
    let text = fs::read(rt, format!(in rt.alloc(); "{name}.in")?.as_str())?;
    let expected = fs::read(rt, format!(in rt.alloc(); "{name}.out")?.as_str())?;
    let answer = decide(&text).to_string(rt.alloc())?;
    Ok(answer.as_bytes() == expected.as_slice())
}
