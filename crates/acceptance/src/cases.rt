// A case: a script, and what should come out of it.
//
// In a table, `= NAME` begins a case, `> LINE` is a line of its script, `>. LINE` one without a newline, `< LINE` a line
// that is to be printed and `! TEXT` the message. `>*N` and `<*N` give the line N times, with the count for `@`.
ghost use Rattle.std.specs.Prelude.{◌≡◌, true, option_copied, option_map, string_bytes};

use anyhow::bail;
use day::run_script;
use std::alloc::{AllocError, Global};

// What a script printed, and the message it stopped with, if it did.
#[derive(Drop, PartialEq, Eq)]
pub(crate) struct Found {
    pub(crate) answers: String,
    pub(crate) message: Option<String>,
}

// Lines that stand before the first name make a case without one, which is not run.
#[derive(Drop)]
pub(crate) struct Case {
    name: Option<String>,
    script: String,
    due: Found,
}

// Appends the text with the digits for its `@`, if it has one.
fn push_counted(out: &mut String, text: &str, digits: &str) -> Result<(), AllocError> {
    let Some((before, after)) = text.split_once('@') else {
        return out.push_str(text);
    };
    out.push_str(before)?;
    out.push_str(digits)?;
    out.push_str(after)
}

// Appends what follows a mark: ` LINE`, `. LINE` or `*N LINE`.
fn push_lines(heap: Global, out: &mut String, rest: &str) -> anyhow::Result<()> {
    let Some((how, text)) = rest.split_once(' ') else {
        bail!("a line of a table has no text");
    };
    if how == "." {
        out.push_str(text)?;
        return Ok(());
    }
    let count = match how.strip_prefix('*') {
        Some(digits) => digits.parse::<u32>()?,
        None if how.is_empty() => 1,
        None => bail!("a line of a table begins with no mark"),
    };
    for number in 0..count {
        let digits = number.to_string(heap)?;
        push_counted(out, text, digits.as_str())?;
        out.push('\n')?;
    }
    Ok(())
}

impl Case {
    pub(crate) fn new(heap: Global) -> Case {
        Case {
            name: None,
            script: String::new(heap),
            due: Found {
                answers: String::new(heap),
                message: None,
            },
        }
    }

    pub(crate) fn name(&self) -> Option<&String>
        ensures { option_copied result ≡ self.now.name }
    {
        self.name.as_ref()
    }

    // One line of a table.
    pub(crate) fn take(&mut self, heap: Global, line: &str) -> anyhow::Result<()> {
        if let Some(name) = line.strip_prefix("= ") {
            if !name.is_empty() {
                self.name = Some(String::from_str(heap, name)?);
            }
        } else if let Some(rest) = line.strip_prefix('>') {
            push_lines(heap, &mut self.script, rest)?;
        } else if let Some(rest) = line.strip_prefix('<') {
            push_lines(heap, &mut self.due.answers, rest)?;
        } else if let Some(text) = line.strip_prefix("! ") {
            if !text.is_empty() {
                self.due
                    .message
                    .get_or_insert_with(|| String::new(heap))
                    .push_str(text)?;
            }
        } else if !line.is_empty() && !line.starts_with('#') {
            bail!("a line of a table begins with no mark");
        }
        Ok(())
    }

    pub(crate) fn run(&self, heap: Global) -> Result<Found, AllocError> {
        let mut answers = String::new(heap);
        let message = match run_script(heap, self.script.as_bytes(), &mut answers) {
            Ok(()) => None,
            Err(stop) => Some(stop.to_string(heap)?),
        };
        Ok(Found { answers, message })
    }

    // Whether the answers and the message are the ones that should come.
    pub(crate) fn accepts(&self, found: &Found) -> bool
        ensures answers { result ≡ true → string_bytes self.now.due.answers ≡ string_bytes found.now.answers }
        ensures message { result ≡ true → option_map string_bytes self.now.due.message ≡ option_map string_bytes found.now.message }
        ensures both { string_bytes self.now.due.answers ≡ string_bytes found.now.answers → option_map string_bytes self.now.due.message ≡ option_map string_bytes found.now.message → result ≡ true }
    {
        self.due == *found
    }
}
