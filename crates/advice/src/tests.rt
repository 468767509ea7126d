// Each adviser on examples.
ghost use Rattle.std.specs.Prelude.{◌≡◌, Some, Ok, Err};
ghost use Rattle.calculus.specs.declared.sides.Side.TheVariants.{High};
ghost use Rattle.advice.specs.declared.unmade.Unmade.TheVariants.{NoMemory};

use super::advisers::Adviser;
use super::blamers::Blaming;
use super::choosers::AnyAdviser;
use super::ends::Ends;
use super::steadies::Steady;
use super::telling::ask_and_tell;
use super::turners::Turned;
use super::unmade::Unmade;
use calculus::{Refusal, Side};
use std::alloc::Global;
use std::process::Abort;
use std::test::Fail;

const LOWS: [i32; 3] = [0, 0, 0];

const HIGHS: [i32; 3] = [3, 3, 3];

fn ends<'a>(lows: &'a [i32], highs: &'a [i32]) -> Ends<'a> {
    Ends { lows, highs }
}

// What an adviser for three unknowns chooses at first, and after it is told 2, 2 again, 1, and 3, which is none of them.
fn chooses<A: Adviser>(rt: &impl Abort, adviser: &mut A, side: Side, firsts: [usize; 5]) {
    assert_eq!(rt; adviser.ask(ends(&LOWS, &HIGHS)), Some((firsts[0], side)));
    for (unknown, next) in [2, 2, 1, 3].iter().zip(&firsts[1..]) {
        adviser.told(*unknown);
        assert_eq!(rt;
            adviser.ask(ends(&LOWS, &HIGHS)),
            Some((*next, side)),
            "told {unknown}"
        );
    }
    assert_eq!(rt; adviser.unknowns(), 3);
}

// Passes over what is fixed, and is told what it chose, so that a blaming one chooses that first.
fn passes<A: Adviser>(rt: &impl Abort, adviser: &mut A, side: Side, next: usize) {
    assert_eq!(rt;
        ask_and_tell(adviser, ends(&[3, 3, 0], &HIGHS)),
        Some((2, side))
    );
    assert_eq!(rt;
        ask_and_tell(adviser, ends(&LOWS, &HIGHS)),
        Some((next, side))
    );
}

// Makes no choice where all is fixed, or where a list has another length.
fn declines<A: Adviser>(rt: &impl Abort, adviser: &mut A) {
    assert_eq!(rt; ask_and_tell(adviser, ends(&HIGHS, &HIGHS)), None);
    assert_eq!(rt; ask_and_tell(adviser, ends(&[0, 0], &HIGHS)), None);
    assert_eq!(rt; ask_and_tell(adviser, ends(&LOWS, &[3, 3])), None);
    assert_eq!(rt;
        ask_and_tell(adviser, ends(&[0, 0, 0, 0], &[3, 3, 3, 3])),
        None
    );
}

// By the contracts alone: a turned blaming adviser for three that is told 2 chooses 2 on side high, unless memory is wanting.
fn blames_the_last(heap: Global) -> Result<Option<(usize, Side)>, Unmade>
    ensures { elim result [ Ok c ↦ c ≡ Some (2, High) | Err u ↦ u ≡ NoMemory ] }
{
    let inner = Blaming::new(heap, 3)?;
    let mut adviser = Turned::over(inner);
    adviser.told(2);
    Ok(adviser.ask(Ends {
        lows: &LOWS,
        highs: &HIGHS,
    }))
}

#[test]
fn steady_stays(rt: HostRuntime) -> Result<(), Fail> {
    chooses(&rt, &mut Steady::new(3)?, Side::Low, [0, 0, 0, 0, 0]);
    chooses(
        &rt,
        &mut Turned::over(Steady::new(3)?),
        Side::High,
        [0, 0, 0, 0, 0],
    );
    passes(&rt, &mut Steady::new(3)?, Side::Low, 0);
    passes(&rt, &mut Turned::over(Steady::new(3)?), Side::High, 0);
    declines(&rt, &mut Steady::new(3)?);
    Ok(())
}

#[test]
fn blaming_moves(rt: HostRuntime) -> Result<(), Fail> {
    let heap = rt.alloc();
    chooses(&rt, &mut Blaming::new(heap, 3)?, Side::Low, [0, 2, 2, 1, 1]);
    chooses(
        &rt,
        &mut Turned::over(Blaming::new(heap, 3)?),
        Side::High,
        [0, 2, 2, 1, 1],
    );
    passes(&rt, &mut Blaming::new(heap, 3)?, Side::Low, 2);
    passes(
        &rt,
        &mut Turned::over(Blaming::new(heap, 3)?),
        Side::High,
        2,
    );
    declines(&rt, &mut Turned::over(Blaming::new(heap, 3)?));
    assert_eq!(rt; blames_the_last(heap)?, Some((2, Side::High)));
    Ok(())
}

#[test]
fn turned_twice(rt: HostRuntime) -> Result<(), Fail> {
    let mut once = Turned::over(Blaming::new(rt.alloc(), 3)?);
    once.told(1);
    chooses(&rt, &mut Turned::over(once), Side::Low, [1, 2, 2, 1, 1]);
    let mut inner = Turned::over(Steady::new(3)?).into_inner();
    chooses(&rt, &mut inner, Side::Low, [0, 0, 0, 0, 0]);
    Ok(())
}

#[test]
fn any_is_the_one_it_holds(rt: HostRuntime) -> Result<(), Fail> {
    let heap = rt.alloc();
    chooses(
        &rt,
        &mut AnyAdviser::Steady(Steady::new(3)?),
        Side::Low,
        [0, 0, 0, 0, 0],
    );
    chooses(
        &rt,
        &mut AnyAdviser::Blaming(Blaming::new(heap, 3)?),
        Side::Low,
        [0, 2, 2, 1, 1],
    );
    chooses(
        &rt,
        &mut AnyAdviser::TurnedSteady(Turned::over(Steady::new(3)?)),
        Side::High,
        [0, 0, 0, 0, 0],
    );
    chooses(
        &rt,
        &mut AnyAdviser::TurnedBlaming(Turned::over(Blaming::new(heap, 3)?)),
        Side::High,
        [0, 2, 2, 1, 1],
    );
    Ok(())
}

#[test]
fn any_is_asked_and_told(rt: HostRuntime) -> Result<(), Fail> {
    let heap = rt.alloc();
    passes(&rt, &mut AnyAdviser::Steady(Steady::new(3)?), Side::Low, 0);
    passes(
        &rt,
        &mut AnyAdviser::Blaming(Blaming::new(heap, 3)?),
        Side::Low,
        2,
    );
    passes(
        &rt,
        &mut AnyAdviser::TurnedSteady(Turned::over(Steady::new(3)?)),
        Side::High,
        0,
    );
    passes(
        &rt,
        &mut AnyAdviser::TurnedBlaming(Turned::over(Blaming::new(heap, 3)?)),
        Side::High,
        2,
    );
    declines(
        &rt,
        &mut AnyAdviser::TurnedBlaming(Turned::over(Blaming::new(heap, 3)?)),
    );
    Ok(())
}

#[test]
fn steady_of_none_and_one(rt: HostRuntime) -> Result<(), Fail> {
    let mut none = Steady::new(0)?;
    assert_eq!(rt; ask_and_tell(&mut none, ends(&[], &[])), None);
    assert_eq!(rt; none.unknowns(), 0);
    let mut one = Steady::new(1)?;
    assert_eq!(rt;
        ask_and_tell(&mut one, ends(&[0], &[1])),
        Some((0, Side::Low))
    );
    Ok(())
}

#[test]
fn sizes(rt: HostRuntime) -> Result<(), Fail> {
    let mut none = Blaming::new(rt.alloc(), 0)?;
    assert_eq!(rt; ask_and_tell(&mut none, ends(&[], &[])), None);
    assert_eq!(rt; none.unknowns(), 0);
    let mut one = Blaming::new(rt.alloc(), 1)?;
    assert_eq!(rt;
        ask_and_tell(&mut one, ends(&[0], &[1])),
        Some((0, Side::Low))
    );
    let mut most = Blaming::new(rt.alloc(), 24)?;
    most.told(23);
    assert_eq!(rt; most.ask(ends(&[0; 24], &[1; 24])), Some((23, Side::Low)));
    assert_eq!(rt; Steady::new(24)?.unknowns(), 24);
    Ok(())
}

#[test]
fn too_many(rt: HostRuntime) -> Result<(), Fail> {
    assert_eq!(rt; Steady::new(25).err(), Some(Refusal::Shape));
    assert_eq!(rt;
        Blaming::new(rt.alloc(), 25).err(),
        Some(Unmade::Refused(Refusal::Shape))
    );
    Ok(())
}
