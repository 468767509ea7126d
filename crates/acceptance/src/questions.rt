// The questions to a ticket, which a script does not ask, and rows with a word that is no number.
use calculus::Range;
use day::{Stop, run_script};
use rows::RowView;
use script::Expected;
use std::alloc::{AllocError, Global};
use ticket::{Draft, Ticket};

// Two unknowns, three rows and two marks.
fn sample(heap: Global) -> Result<Ticket, AllocError> {
    let mut draft = Draft::new(heap)?;
    let _ = draft.declare(-3, 7);
    let _ = draft.declare(1_048_576, 1_048_576);
    let mut ticket = draft.settle();
    let _ = ticket.add(5, &[1, -2], 3);
    let _ = ticket.mark();
    let _ = ticket.add(255, &[32_768, -32_768], -1_073_741_824);
    let _ = ticket.mark();
    let _ = ticket.add(1, &[0, 0], 9);
    Ok(ticket)
}

fn has_row(ticket: &Ticket, place: usize, row: RowView<'_>) -> bool {
    ticket.rows().row(place) == Some(row)
}

// Whether the script stops at its fourth line, where a number was expected.
fn expects_number(heap: Global, script: &[u8]) -> bool {
    let mut answers = String::new(heap);
    run_script(heap, script, &mut answers)
        == Err(Stop::Line {
            number: 4,
            expected: Expected::Number,
        })
}

// Whether each question is answered as it should be.
pub(crate) fn answers_hold(heap: Global) -> Result<bool, AllocError> {
    let mut ticket = sample(heap)?;
    let rows = ticket.rows();
    let counts = rows.unknowns() == 2 && rows.len() == 3 && rows.marks() == 2;
    let ranges = rows.range(0) == Some(Range { low: -3, high: 7 })
        && rows.range(1)
            == Some(Range {
                low: 1_048_576,
                high: 1_048_576,
            })
        && rows.range(2).is_none();
    let standing = has_row(
        &ticket,
        0,
        RowView {
            label: 5,
            coefficients: &[1, -2],
            constant: 3,
        },
    ) && has_row(
        &ticket,
        1,
        RowView {
            label: 255,
            coefficients: &[32_768, -32_768],
            constant: -1_073_741_824,
        },
    ) && has_row(
        &ticket,
        2,
        RowView {
            label: 1,
            coefficients: &[0, 0],
            constant: 9,
        },
    ) && ticket.rows().row(3).is_none()
        && ticket.rows().rows().len() == 3;
    let _ = ticket.return_to_mark();
    let rows = ticket.rows();
    let after = rows.len() == 2 && rows.marks() == 1 && rows.row(2).is_none();
    let numbers = expects_number(heap, b"draft\nunknown 0 1\nsettle\nadd 1 x 0\n")
        && expects_number(heap, b"draft\nunknown 0 1\nsettle\nadd 1 0 x\n");
    Ok(counts && ranges && standing && after && numbers)
}
