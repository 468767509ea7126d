// What the logs do on examples.
use crate::{Log, Numbers, Quota, add_line, copy_line};
use calculus::{Fields, Kind, Refusal};
use std::alloc::Global;
use std::process::Abort;
use std::test::Fail;

// What the memory holds before a log writes to it.
const FOUND: i64 = 7_000_000_000;

// A log on so many numbers.
fn opened(heap: Global, numbers: usize, unknowns: usize) -> Result<Numbers, Fail> {
    Ok(Numbers::open(vec![in heap; FOUND; numbers]?, unknowns)?)
}

// An answer with its refusal by number, as the rules list them.
fn by_number(answer: Result<usize, Refusal>) -> Result<usize, u8> {
    answer.map_err(Refusal::number)
}

// Fields at the ends of their widths.
fn widest() -> Fields {
    Fields {
        kind: 255,
        i: 65_535,
        j: 65_534,
        k: 4_294_967_295,
        m: 4_294_967_294,
    }
}

// A held line with the widest fields and entries.
fn holds_widest<L: Log>(rt: &impl Abort, log: &L, line: usize) {
    assert_eq!(rt; log.fields(line), widest());
    assert_eq!(rt; log.entry(line, 0), i32::MIN);
    assert_eq!(rt; log.entry(line, 1), i32::MAX);
    assert_eq!(rt; log.entry(line, 2), 0);
}

// A line that is not held.
fn holds_nothing<L: Log>(rt: &impl Abort, log: &L, line: usize) {
    assert_eq!(rt; log.fields(line), Fields::default());
    assert_eq!(rt; log.entry(line, 0), 0);
}

// Rows that are too short and too long by one.
fn refuses_shapes<L: Log>(rt: &impl Abort, log: &mut L) {
    assert_eq!(rt; by_number(log.add(widest(), &[0])), Err(1));
    assert_eq!(rt; by_number(log.add(widest(), &[0, 0, 0])), Err(1));
}

// Any log for one unknown, filled to its room, and asked.
fn fills<L: Log>(rt: &impl Abort, log: &mut L, room: usize) {
    log.begin();
    assert_eq!(rt; log.unknowns(), 1);
    assert_eq!(rt; log.capacity(), room);
    refuses_shapes(rt, log);
    for line in 0..room {
        assert_eq!(rt; log.add(widest(), &[i32::MIN, i32::MAX]), Ok(line));
    }
    assert_eq!(rt; by_number(log.add(widest(), &[0, 0])), Err(14));
    refuses_shapes(rt, log);
    assert_eq!(rt; log.count(), room);
    for line in 0..room {
        holds_widest(rt, log, line);
    }
    holds_nothing(rt, log, room);
}

#[test]
fn numbers_exactly_full(rt: HostRuntime) -> Result<(), Fail> {
    let mut log = opened(rt.alloc(), 14, 1)?;
    fills(&rt, &mut log, 2);
    Ok(())
}

#[test]
fn numbers_with_no_room(rt: HostRuntime) -> Result<(), Fail> {
    let mut none = opened(rt.alloc(), 0, 1)?;
    fills(&rt, &mut none, 0);
    let mut short = opened(rt.alloc(), 6, 1)?;
    fills(&rt, &mut short, 0);
    Ok(())
}

#[test]
fn numbers_hand_back_their_memory(rt: HostRuntime) -> Result<(), Fail> {
    let mut log = opened(rt.alloc(), 20, 1)?;
    assert_eq!(rt; log.add(widest(), &[i32::MIN, i32::MAX]), Ok(0));
    log.begin();
    let cells = log.into_cells();
    assert!(rt; cells.len() == 20);
    assert_eq!(rt; cells[0], 255);
    assert_eq!(rt; cells[3], 4_294_967_295);
    assert_eq!(rt; cells[5], -2_147_483_648);
    assert_eq!(rt; cells[6], 2_147_483_647);
    assert_eq!(rt; cells[7], FOUND);
    assert_eq!(rt; cells[19], FOUND);
    Ok(())
}

#[test]
fn numbers_of_the_most_lines(rt: HostRuntime) -> Result<(), Fail> {
    let log = opened(rt.alloc(), 65_537 * 6, 0)?;
    assert_eq!(rt; log.capacity(), 65_536);
    Ok(())
}

#[test]
fn unknowns_from_24_to_25(rt: HostRuntime) -> Result<(), Fail> {
    let log = opened(rt.alloc(), 30, 24)?;
    assert_eq!(rt; log.capacity(), 1);
    let Err(unopened) = Numbers::open(log.into_cells(), 25) else {
        return Err(Fail::new("opened"));
    };
    assert_eq!(rt; unopened.refusal.number(), 1);
    assert!(rt; unopened.cells.len() == 30);
    assert_eq!(rt; unopened.cells[29], FOUND);
    Ok(())
}

#[test]
fn quotas_of_every_size(rt: HostRuntime) -> Result<(), Fail> {
    let mut none = Quota::over(opened(rt.alloc(), 28, 1)?, 0);
    fills(&rt, &mut none, 0);
    let mut below = Quota::over(opened(rt.alloc(), 28, 1)?, 3);
    fills(&rt, &mut below, 3);
    let mut above = Quota::over(opened(rt.alloc(), 28, 1)?, 9);
    fills(&rt, &mut above, 4);
    Ok(())
}

#[test]
fn quota_over_a_fuller_log(rt: HostRuntime) -> Result<(), Fail> {
    let mut log = opened(rt.alloc(), 28, 1)?;
    fills(&rt, &mut log, 4);
    let mut quota = Quota::over(log, 2);
    assert_eq!(rt; quota.capacity(), 2);
    assert_eq!(rt; quota.count(), 4);
    assert_eq!(rt; quota.fields(3).kind, 255);
    assert_eq!(rt; by_number(quota.add(widest(), &[0, 0])), Err(14));
    assert_eq!(rt; quota.into_inner().count(), 4);
    Ok(())
}

#[test]
fn lines_copied_into_a_quota(rt: HostRuntime) -> Result<(), Fail> {
    let mut log = opened(rt.alloc(), 28, 1)?;
    let kind = Kind::Cut { line: 9, k: 3 };
    assert_eq!(rt; add_line(&mut log, kind, &[2, -5]), Ok(0));
    let mut quota = Quota::over(opened(rt.alloc(), 28, 1)?, 1);
    let mut row = [0; 2];
    assert_eq!(rt; copy_line(&log, 0, &mut quota, &mut row), Ok(0));
    assert_eq!(rt;
        by_number(copy_line(&log, 0, &mut quota, &mut row)),
        Err(14)
    );
    assert_eq!(rt; quota.entry(0, 1), -5);
    assert_eq!(rt; Kind::try_from(quota.fields(0)), Ok(kind));
    Ok(())
}

#[test]
fn lines_copied_out_of_a_quota(rt: HostRuntime) -> Result<(), Fail> {
    let mut quota = Quota::over(opened(rt.alloc(), 28, 1)?, 1);
    let kind = Kind::Sum {
        first: 65_535,
        second: 65_535,
        k: 4_294_967_295,
        m: 4_294_967_295,
    };
    assert_eq!(rt; add_line(&mut quota, kind, &[7, -8]), Ok(0));
    assert_eq!(rt;
        add_line(&mut quota, kind, &[7, -8]).map_err(Refusal::number),
        Err(14)
    );
    let mut log = opened(rt.alloc(), 7, 1)?;
    let mut row = [0; 2];
    assert_eq!(rt; copy_line(&quota, 0, &mut log, &mut row), Ok(0));
    assert_eq!(rt; log.entry(0, 0), 7);
    assert_eq!(rt; log.entry(0, 1), -8);
    assert_eq!(rt; Kind::try_from(log.fields(0)), Ok(kind));
    Ok(())
}
