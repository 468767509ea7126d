// The words that a command of the day script begins with. One of them, the first below, is also the name of a tactic: in a
// crate of their own the words stand beside no other definition.
#![tactic(auto)]

ghost use Rattle.keywords.specs.Keywords.{named, later_word};
ghost use Rattle.std.specs.Prelude.{◌≡◌, Some};

use std::fmt;

// A command that is known, and not offered yet.
#[derive(Clone, Copy, Debug, PartialEq, Eq)]
pub enum Later {
    Search,
    Check,
    Log,
    Frames,
    Lines,
}

impl Later {
    // The word of the command. Unlike `Display`, this cannot fail.
    pub fn word(self) -> &'static str
        ensures { result.now ≡ later_word self }
    {
        match self {
            Later::Search => "search",
            Later::Check => "check",
            Later::Log => "log",
            Later::Frames => "frames",
            Later::Lines => "lines",
        }
    }
}

impl fmt::Display for Later {
    ghost output = { λ later. Some (later_word later) };

    fn fmt<W: fmt::Write>(&self, f: &mut fmt::Formatter<W>) -> fmt::Result {
        f.write_str(self.word())
    }
}

// What a command's first word asks for.
#[derive(Clone, Copy, Debug, PartialEq, Eq)]
pub enum Keyword {
    Draft,
    Unknown,
    Settle,
    Add,
    Mark,
    Return,
    Rows,
    Later(Later),
}

// The command that a word begins.
pub fn keyword_of(word: &[u8]) -> Option<Keyword>
    ensures { result ≡ named word.now }
{
    match word {
        b"draft" => Some(Keyword::Draft),
        b"unknown" => Some(Keyword::Unknown),
        b"settle" => Some(Keyword::Settle),
        b"add" => Some(Keyword::Add),
        b"mark" => Some(Keyword::Mark),
        b"return" => Some(Keyword::Return),
        b"rows" => Some(Keyword::Rows),
        b"search" => Some(Keyword::Later(Later::Search)),
        b"check" => Some(Keyword::Later(Later::Check)),
        b"log" => Some(Keyword::Later(Later::Log)),
        b"frames" => Some(Keyword::Later(Later::Frames)),
        b"lines" => Some(Keyword::Later(Later::Lines)),
        _ => None,
    }
}
