// What a ticket holds. All memory is reserved in a `Blank`, so that no later call can want any.
ghost use Rattle.std.specs.Prelude.{◌≤◌, ◌≤ℤ◌, unsigned_abs};
ghost use Rattle.calculus.specs.Limits.{end_limit, most_rows};

use crate::held::Row;
use calculus::Range;
use std::marker::Model;

mod calls;
mod making;
mod questions;

// The range of a declared unknown: its ends in order and within their limits.
#[derive(Clone, Copy)]
pub(crate) struct Span {
    range: Range,
    ghost ordered: { range.low ≤ℤ range.high },
    ghost low_near: { unsigned_abs range.low ≤ end_limit },
    ghost high_near: { unsigned_abs range.high ≤ end_limit },
}

// A mark: how many rows stood when it was set.
#[derive(Clone, Copy)]
pub(crate) struct Mark {
    rows: usize,
    ghost few: { rows ≤ most_rows },
}

// The ranges declared so far, and the memory for the rows and marks to come. A contract sees the ranges. It has the parts of `Rows` and is
// a type of its own: its value and its invariant are others.
#[derive(Drop)]
pub struct Blank {
    spans: Vec<Span>,
    rows: Vec<Row>,
    marks: Vec<Mark>,
}

impl Model for Blank {
    ghost use Rattle.std.specs.Prelude.{List};
    ghost use Rattle.calculus.specs.declared.ranges.Range.{Range as Ends};

    ghost Value = { List Ends };

    ghost use Rattle.rows.specs.Store.{IsReserved, ranges_of};

    ghost view = { λ b. ranges_of b.spans.items };

    ghost invariant = { IsReserved };
}

// The ranges of a settled ticket, its standing rows and its marks. A contract sees the account of the day.
#[derive(Drop)]
pub struct Rows {
    spans: Vec<Span>,
    rows: Vec<Row>,
    marks: Vec<Mark>,
}

impl Model for Rows {
    ghost use Rattle.calculus.specs.Account.{Account};

    ghost Value = { Account };

    ghost use Rattle.rows.specs.Store.{IsStored, account_of};

    ghost view = { account_of };

    ghost invariant = { IsStored };
}
