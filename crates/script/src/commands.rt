// Reading a command of the day script.
ghost use Rattle.script.specs.Commands.{said, alone, parsed_unknown, parsed_row, parsed_add, parsed_as, parsed, Adds, Reads};
ghost use Rattle.keywords.specs.declared.Keyword.TheVariants.{Add};
ghost use Rattle.script.specs.Words.{words};
ghost use Rattle.std.specs.Option.{option_map};
ghost use Rattle.std.specs.Prelude.{◌≡◌, []};

use crate::faults::{Expected, Fault};
use crate::numbers::{read_label, read_narrow, read_wide};
use crate::words::Words;
use keywords::{Keyword, Later, keyword_of};
use std::alloc::Global;

// A command of the day script.
#[derive(Drop)]
pub enum Command {
    Draft,
    Unknown {
        low: i32,
        high: i32,
    },
    Settle,
    Add {
        label: u8,
        coefficients: Vec<i32>,
        constant: i64,
    },
    Mark,
    Return,
    Rows,
    Later(Later),
}

// The command, if no word follows it.
fn ended(command: Command, mut words: Words<'_>) -> Result<Command, Fault>
    ensures { Reads ⊥ said result (alone (said command) words.entry) }
{
    match words.next() {
        None => Ok(command),
        Some(_) => Err(Expected::End.into()),
    }
}

// The ends of a range.
fn read_unknown(mut words: Words<'_>) -> Result<Command, Fault>
    ensures { Reads ⊥ said result (parsed_unknown words.entry) }
{
    let low = words.next().and_then(read_narrow).ok_or(Expected::Number)?;
    let high = words.next().and_then(read_narrow).ok_or(Expected::Number)?;
    ended(Command::Unknown { low, high }, words)
}

// The coefficients and the constant of a row.
fn read_row(heap: Global, label: u8, mut words: Words<'_>) -> Result<Command, Fault>
    ensures { Reads (Unit {0}) said result (parsed_row label [] words.entry) }
{
    let mut coefficients = Vec::new(heap);
    let mut last = words.next().ok_or(Expected::Number)?;
    for word in words {
        coefficients.push(read_narrow(last).ok_or(Expected::Number)?)?;
        last = word;
    }
    let constant = read_wide(last).ok_or(Expected::Number)?;
    Ok(Command::Add {
        label,
        coefficients,
        constant,
    })
}

// A label, and the numbers of a row.
fn read_add(heap: Global, mut words: Words<'_>) -> Result<Command, Fault>
    ensures { Reads (Unit {0}) said result (parsed_add words.entry) }
{
    let label = words.next().and_then(read_label).ok_or(Expected::Label)?;
    read_row(heap, label, words)
}

// What follows a command's first word.
fn read_as(heap: Global, keyword: Keyword, words: Words<'_>) -> Result<Command, Fault>
    ensures { Reads (keyword ≡ Add) said result (parsed_as keyword words.entry) }
{
    match keyword {
        Keyword::Draft => ended(Command::Draft, words),
        Keyword::Unknown => read_unknown(words),
        Keyword::Settle => ended(Command::Settle, words),
        Keyword::Add => read_add(heap, words),
        Keyword::Mark => ended(Command::Mark, words),
        Keyword::Return => ended(Command::Return, words),
        Keyword::Rows => ended(Command::Rows, words),
        Keyword::Later(later) => Ok(Command::Later(later)),
    }
}

// The command that a line gives; none for a line of blanks and for a comment, which begins with `#`.
pub fn read_command(heap: Global, line: &[u8]) -> Result<Option<Command>, Fault>
    ensures { Reads (Adds (words line.now)) (option_map said) result (parsed line.now) }
{
    let mut words = Words::of(line);
    match words.next() {
        None | Some([b'#', ..]) => Ok(None),
        Some(word) => {
            let keyword = keyword_of(word).ok_or(Expected::Command)?;
            Ok(Some(read_as(heap, keyword, words)?))
        }
    }
}
