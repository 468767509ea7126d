// The launch-day planner: runs a day script and prints its answers.
#![tactic(auto)]

use anyhow::anyhow;
use day::run_script;
use std::io::Read;
use std::process::ExitCode;
use std::{env, fs};

// The file that the first argument names, or standard input where there is none.
fn read_script(rt: &HostRuntime) -> anyhow::Result<Vec<u8>> {
    match env::args(rt)?.nth(1) {
        Some(path) => fs::read(rt, path.as_str()).map_err(|error| anyhow!("{path}: {error}")),
        None => {
            let mut script = Vec::new(rt.alloc());
            rt.stdin().read_to_end(&mut script)?;
            Ok(script)
        }
    }
}

// Prints the answers of all lines up to the end or the first line that is no command.
fn run(rt: &HostRuntime) -> anyhow::Result<()> {
    let script = read_script(rt)?;
    let mut answers = String::new(rt.alloc());
    let ended = run_script(rt.alloc(), script.as_slice(), &mut answers);
    print!(rt; "{answers}")?;
    Ok(ended?)
}

fn main(rt: HostRuntime) -> anyhow::Result<ExitCode> {
    let Err(error) = run(&rt) else {
        return Ok(ExitCode::SUCCESS);
    };
    eprintln!(rt; "planner: {error}")?;
    Ok(ExitCode::FAILURE)
}
