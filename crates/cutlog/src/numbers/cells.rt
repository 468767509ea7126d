// The numbers of one line: the fields in front, and behind them its row.
ghost use Rattle.std.specs.Prelude.{◌≡◌, ◌+◌, [], length};
ghost use Rattle.calculus.specs.Rows.{coef};
ghost use Rattle.cutlog.specs.Cells.{ReadsBack, entry_in, fields_in, spelled};

use calculus::Fields;

// The numbers of a line before its coefficients: one for each field.
pub(super) const HEAD: usize = 5;

// The fields that five numbers spell; 0 for each that is none of its width. No `From`: neither type is this crate's.
#[tactic(auto, using(crate::proofs::Narrowing::unsigned_narrowed))]
pub(super) fn fields_of(head: &[i64; HEAD]) -> Fields
    ensures { result ≡ fields_in head.now 0 }
{
    let [kind, i, j, k, m] = head;
    Fields {
        kind: u8::try_from(*kind).unwrap_or(0),
        i: u16::try_from(*i).unwrap_or(0),
        j: u16::try_from(*j).unwrap_or(0),
        k: u32::try_from(*k).unwrap_or(0),
        m: u32::try_from(*m).unwrap_or(0),
    }
}

// The numbers that spell fields.
fn head_of(fields: Fields) -> [i64; HEAD]
    ensures { result ≡ spelled fields [] }
{
    [
        i64::from(fields.kind),
        i64::from(fields.i),
        i64::from(fields.j),
        i64::from(fields.k),
        i64::from(fields.m),
    ]
}

// An entry of a row by its numbers; 0 where there is none, or a number that is none of its width.
pub(super) fn entry_of(row: &[i64], place: usize) -> i32
    ensures { result ≡ entry_in (coef row.now place) }
{
    row.get(place)
        .and_then(|number| i32::try_from(*number).ok())
        .unwrap_or(0)
}

// Writes the numbers of a row. By place: zipped with the row was tried, and a zipped loop leaves its invariant no name for what it wrote.
fn write_row(cells: &mut [i64], row: &[i32])
    requires { length cells.old ≡ length row.now }
    ensures cells { cells.new ≡ row.now }
    ensures back { ReadsBack row.now }
{
    for (place, cell) in cells.iter_mut().enumerate() {
        *cell = i64::from(row[place]);
    }
}

// Writes the numbers of a line; each entry is read again as it is.
pub(super) fn write_line(cells: &mut [i64], fields: Fields, row: &[i32])
    requires { length cells.old ≡ 5 + length row.now }
    ensures cells { cells.new ≡ spelled fields row.now }
    ensures back { ReadsBack row.now }
{
    cells[..HEAD].copy_from_slice(&head_of(fields));
    write_row(&mut cells[HEAD..], row);
}
