// Runs scripts, each of which describes a bus with its faults and what is done on it, and prints what came of it. The scripts are
// the files named as arguments, each on a bus of its own; with no arguments it is standard input.
#![tactic(auto)]

use scripts::Vocabulary;
use std::io::Read;
use std::{env, fs};

// Reading files and printing have no contract, so they stand in each program and not in the library.
fn print_script(rt: &HostRuntime, script: &[u8]) -> anyhow::Result<()> {
    let out = scripts::run(rt.alloc(), script, Vocabulary::Whole)?;
    print!(rt; "{out}")?;
    Ok(())
}

fn main(rt: HostRuntime) -> anyhow::Result<()> {
    let mut names = env::args(&rt)?.skip(1).peekable();
    if names.peek().is_none() {
        let mut script = Vec::new(rt.alloc());
        rt.stdin().read_to_end(&mut script)?;
        print_script(&rt, &script)?;
    }
    for name in names {
        print_script(&rt, &fs::read(&rt, &name)?)?;
    }
    Ok(())
}
