// Runs tables of cases and compares what comes out with what should.
#![tactic(auto)]

ghost use Rattle.std.specs.Prelude.{◌≡◌, ◌<◌, ◌≤◌, false};

mod cases;
mod questions;

use anyhow::ensure;
use cases::Case;
use questions::answers_hold;
use std::io::Read;

// How many cases ran, and how many came out wrong.
#[derive(Drop)]
struct Tally {
    run: u32,
    wrong: u32,
}

impl Tally {
    // A wrong case is never forgotten.
    fn note(&mut self, right: bool)
        ensures kept { self.old.wrong ≤ self.new.wrong }
        ensures noted { right ≡ false → 0 < self.new.wrong }
    {
        self.run = self.run.saturating_add(1);
        if !right {
            self.wrong = self.wrong.saturating_add(1);
        }
    }
}

// Runs one case, if it has a name, and says what came out where it is wrong.
fn judge(rt: &HostRuntime, tally: &mut Tally, case: &Case) -> anyhow::Result<()> {
    let Some(name) = case.name() else {
        return Ok(());
    };
    let found = case.run(rt.alloc())?;
    let right = case.accepts(&found);
    tally.note(right);
    if !right {
        let answers = found.answers.as_str();
        let message = found
            .message
            .as_ref()
            .map_or("", |message| message.as_str());
        println!(rt; "wrong: {name}\n{answers}! {message}")?;
    }
    Ok(())
}

// Runs the cases of a table, each from a line `= NAME` to the next.
fn run_table(rt: &HostRuntime, tally: &mut Tally, table: &str) -> anyhow::Result<()> {
    let mut case = Case::new(rt.alloc());
    for line in table.lines() {
        if line.starts_with("= ") {
            judge(rt, tally, &case)?;
            case = Case::new(rt.alloc());
        }
        case.take(rt.alloc(), line)?;
    }
    judge(rt, tally, &case)
}

// Runs the table of standard input, and the questions that no script asks.
fn run(rt: &HostRuntime) -> anyhow::Result<()> {
    let mut table = String::new(rt.alloc());
    let _ = rt.stdin().read_to_string(&mut table)?;
    let mut tally = Tally { run: 0, wrong: 0 };
    run_table(rt, &mut tally, table.as_str())?;
    tally.note(answers_hold(rt.alloc())?);
    let Tally { run, wrong } = tally;
    println!(rt; "{run} cases, {wrong} wrong")?;
    ensure!(wrong == 0, "some cases came out wrong");
    Ok(())
}

fn main(rt: HostRuntime) -> anyhow::Result<()> {
    run(&rt)
}
