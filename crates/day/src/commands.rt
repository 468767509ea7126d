// The commands, done one at a time. A command out of place changes nothing.
ghost use Rattle.std.specs.Prelude.{◌≡◌};
ghost use Rattle.day.specs.Day.{Done, numbered as numbered_by, said_so as said_by};
ghost use Rattle.script.specs.Commands.{said, draft, unknown, settle, add, mark, return, rows};

use crate::stages::{Day, Stage};
use calculus::Refusal;
use script::{Answer, Command, Expected, Fault};
use std::mem;
use ticket::Draft;

// An unknown's number, or the refusal, as an answer.
fn numbered(number: Result<usize, Refusal>) -> Answer
    ensures { result ≡ numbered_by number }
{
    number.map_or_else(Answer::Refused, Answer::Unknown)
}

// What is answered where a call was taken, or the refusal.
fn said_so(done: Answer, taken: Result<(), Refusal>) -> Answer
    ensures { result ≡ said_by done taken }
{
    taken.map_or_else(Answer::Refused, |()| done)
}

// Each command takes the stage apart where it begins, three of them alike: to hand out the ticket to be changed would take a clause on the loan.
impl Day {
    // A new draft, whatever stood before.
    fn begin(&mut self) -> Result<Answer, Fault>
        ensures { Done self.old draft result self.new }
    {
        self.stage = Stage::Drafting(Draft::new(self.heap)?);
        Ok(Answer::Draft)
    }

    fn declare(&mut self, low: i32, high: i32) -> Result<Answer, Fault>
        ensures { Done self.old (unknown low high) result self.new }
    {
        let Stage::Drafting(draft) = &mut self.stage else {
            return Err(Expected::Draft.into());
        };
        Ok(numbered(draft.declare(low, high)))
    }

    fn settle(&mut self) -> Result<Answer, Fault>
        ensures { Done self.old settle result self.new }
    {
        match mem::replace(&mut self.stage, Stage::Nothing) {
            Stage::Drafting(draft) => {
                let ticket = draft.settle();
                let unknowns = ticket.rows().unknowns();
                self.stage = Stage::Settled(ticket);
                Ok(Answer::Settled(unknowns))
            }
            found => {
                self.stage = found;
                Err(Expected::Draft.into())
            }
        }
    }

    // The three parts of a row as the line gives them: the constant is wider than in a row that stands.
    fn add(&mut self, label: u8, coefficients: &[i32], constant: i64) -> Result<Answer, Fault>
        ensures { Done self.old (add label coefficients.now constant) result self.new }
    {
        let Stage::Settled(ticket) = &mut self.stage else {
            return Err(Expected::Ticket.into());
        };
        Ok(said_so(Answer::Added, ticket.add(label, coefficients, constant)))
    }

    fn mark(&mut self) -> Result<Answer, Fault>
        ensures { Done self.old mark result self.new }
    {
        let Stage::Settled(ticket) = &mut self.stage else {
            return Err(Expected::Ticket.into());
        };
        Ok(said_so(Answer::Marked, ticket.mark()))
    }

    fn return_to_mark(&mut self) -> Result<Answer, Fault>
        ensures { Done self.old return result self.new }
    {
        let Stage::Settled(ticket) = &mut self.stage else {
            return Err(Expected::Ticket.into());
        };
        Ok(said_so(Answer::Returned, ticket.return_to_mark()))
    }

    fn count_rows(&self) -> Result<Answer, Fault>
        ensures { Done self.now rows result self.now }
    {
        let Stage::Settled(ticket) = &self.stage else {
            return Err(Expected::Ticket.into());
        };
        Ok(Answer::Rows(ticket.rows().len()))
    }

    // Does what a command says, and gives its answer.
    pub(crate) fn perform(&mut self, command: &Command) -> Result<Answer, Fault>
        ensures { Done self.old (said command.now) result self.new }
    {
        match command {
            Command::Draft => self.begin(),
            Command::Unknown { low, high } => self.declare(*low, *high),
            Command::Settle => self.settle(),
            Command::Add {
                label,
                coefficients,
                constant,
            } => self.add(*label, coefficients, *constant),
            Command::Mark => self.mark(),
            Command::Return => self.return_to_mark(),
            Command::Rows => self.count_rows(),
            Command::Later(later) => Ok(Answer::NotOffered(*later)),
        }
    }
}
