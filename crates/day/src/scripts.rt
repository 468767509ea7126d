// A whole script.
ghost use Rattle.std.specs.Prelude.{◌≡◌, ◌++◌, Some, string_bytes, OnOk};
ghost use Rattle.script.specs.Answers.{worded};
ghost use Rattle.script.specs.Commands.{said};
ghost use Rattle.day.specs.Day.{Taken, due, line, listing, spoken, turn};
ghost use Rattle.day.specs.Scripts.{Ran, script_outcome, stop_by, stop_worded};

use crate::lines::Lines;
use crate::stages::{Day, Stage};
use script::{Answer, Command, Expected, Fault, read_command};
use std::alloc::{AllocError, Global};
use std::error::Error;
use std::fmt;

// Why a script stopped before its end.
#[derive(Clone, Copy, Debug, PartialEq, Eq)]
pub enum Stop {
    Memory,
    // the line, from 1, and what was expected there
    Line { number: usize, expected: Expected },
}

impl fmt::Display for Stop {
    ghost output = { λ s. Some (stop_worded s) };

    fn fmt<W: fmt::Write>(&self, f: &mut fmt::Formatter<W>) -> fmt::Result {
        match *self {
            Stop::Memory => f.write_str("no memory is left"),
            Stop::Line { number, expected } => write!(f, "line {number}: expected {expected}"),
        }
    }
}

impl Error for Stop {}

impl Stop {
    // What was wrong with a line of this number.
    fn at(number: usize, fault: Fault) -> Stop
        ensures { result ≡ stop_by number fault }
    {
        match fault {
            Fault::Memory => Stop::Memory,
            Fault::Expected(expected) => Stop::Line { number, expected },
        }
    }
}

impl Day {
    // Prints what a command lists after its answer: the standing rows, one to a line.
    fn print_listing(&self, out: &mut String, command: &Command) -> Result<(), AllocError>
        ensures { OnOk result (string_bytes out.new ≡ string_bytes out.old ++ listing self.now (said command.now)) }
    {
        if let (Command::Rows, Stage::Settled(ticket)) = (command, &self.stage) {
            for row in ticket.rows().rows() {
                writeln!(out, "{}", row.view())?;
            }
        }
        Ok(())
    }

    // Does one command and prints its answer.
    fn take_command(&mut self, out: &mut String, command: &Command) -> Result<(), Fault>
        ensures { Taken (spoken (due self.old (said command.now)) self.old (said command.now))
            (string_bytes out.old) result self.old self.new (string_bytes out.new) }
    {
        let answer = self.perform(command)?;
        writeln!(out, "{answer}")?;
        self.print_listing(out, command)?;
        Ok(())
    }

    // Reads one line, does its command if it has one, and prints the answer.
    fn take_line(&mut self, out: &mut String, bytes: &[u8]) -> Result<(), Fault>
        ensures { Taken (turn self.old bytes.now)
            (string_bytes out.old) result self.old self.new (string_bytes out.new) }
    {
        match read_command(self.heap, bytes)? {
            Some(command) => self.take_command(out, &command),
            None => Ok(()),
        }
    }
}

// Runs a script and appends what it prints; at an error, what the lines before it printed.
pub fn run_script(heap: Global, script: &[u8], out: &mut String) -> Result<(), Stop>
    ensures { Ran (script_outcome script.now) (string_bytes out.old) result (string_bytes out.new) }
{
    let mut day = Day::new(heap);
    for (before, bytes) in Lines::of(script).enumerate() {
        day.take_line(out, bytes)
            .map_err(|fault| Stop::at(before + 1, fault))?;
    }
    Ok(())
}
