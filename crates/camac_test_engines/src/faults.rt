// Reads and writes of `camac check`, `plan` and `events` that fail, each in turn.

use camac_engines::{
    Outcome, PlanSource, ToolFault, engine_check, engine_events, engine_plan, status,
};
use camac_test_fixtures::fakes::{Broken, Narrow, WhenFull};
use camac_test_fixtures::texts::{
    FILE_ONE, FILE_TWO, LISTING_ONE, LISTING_TWO, SAMPLE, SAMPLE_LISTING, STRAIGHT_LINE, VERDICT,
};
use camac_word::Watched;
use std::alloc::Global;
use std::process::Abort;
use std::test::Fail;

/// A writer of so much room.
pub fn narrow(alloc: Global, room: usize, when_full: WhenFull) -> Watched<Narrow> {
    Watched::new(Narrow {
        taken: Vec::new(alloc),
        room,
        when_full,
    })
}

// After so many bytes the writer of `camac check` is full: these were written.
fn expect_check_full(
    rt: &(impl Abort + AllocGlobal),
    room: usize,
    when_full: WhenFull,
) -> Result<(), Fail> {
    let mut plan = PlanSource::<Watched<&[u8]>>::Sample;
    let mut script = Watched::new(STRAIGHT_LINE);
    let mut out = narrow(rt.alloc(), room, when_full);
    let answer = engine_check(rt.alloc(), &mut plan, &mut script, &mut out);
    assert!(rt; answer == Err(ToolFault::Write));
    assert!(rt; VERDICT.starts_with(out.into_inner().taken.as_slice()));
    Ok(())
}

#[test]
fn check_fails_at_each_write(rt: HostRuntime) -> Result<(), Fail> {
    for room in 0..VERDICT.len() {
        expect_check_full(&rt, room, WhenFull::Error)?;
        expect_check_full(&rt, room, WhenFull::Nothing)?;
    }
    Ok(())
}

#[test]
fn check_writes_a_byte_at_a_time(rt: HostRuntime) -> Result<(), Fail> {
    let mut plan = PlanSource::<Watched<&[u8]>>::Sample;
    let mut script = Watched::new(STRAIGHT_LINE);
    let mut out = narrow(rt.alloc(), VERDICT.len(), WhenFull::Error);
    let answer = engine_check(rt.alloc(), &mut plan, &mut script, &mut out);
    assert!(rt; answer == Ok(Outcome::Good));
    assert!(rt; out.into_inner().taken.as_slice() == VERDICT);
    Ok(())
}

#[test]
fn check_fails_at_each_read(rt: HostRuntime) -> Result<(), Fail> {
    for prefix in 0..STRAIGHT_LINE.len() {
        let mut plan = PlanSource::<Watched<&[u8]>>::Sample;
        let mut script = Watched::new(Broken {
            bytes: &STRAIGHT_LINE[..prefix],
        });
        let mut out = Watched::new(Vec::new(rt.alloc()));
        let answer = engine_check(rt.alloc(), &mut plan, &mut script, &mut out);
        assert!(rt; answer == Err(ToolFault::Read));
        assert!(rt; status(&answer) == 3);
        assert!(rt; out.into_inner().is_empty());
    }
    Ok(())
}

// After so many bytes the writer of `camac plan` is full: these were written.
fn expect_plan_full(
    rt: &(impl Abort + AllocGlobal),
    room: usize,
    when_full: WhenFull,
) -> Result<(), Fail> {
    let mut plan = PlanSource::<Watched<&[u8]>>::Sample;
    let mut out = narrow(rt.alloc(), room, when_full);
    let answer = engine_plan(rt.alloc(), &mut plan, &mut out);
    assert!(rt; answer == Err(ToolFault::Write));
    let taken = out.into_inner().taken;
    assert!(rt; taken.len() == room);
    assert!(rt; SAMPLE_LISTING.starts_with(taken.as_slice()));
    Ok(())
}

#[test]
fn plan_fails_at_each_write(rt: HostRuntime) -> Result<(), Fail> {
    for room in 0..SAMPLE_LISTING.len() {
        expect_plan_full(&rt, room, WhenFull::Error)?;
        expect_plan_full(&rt, room, WhenFull::Nothing)?;
    }
    Ok(())
}

#[test]
fn plan_writes_a_byte_at_a_time(rt: HostRuntime) -> Result<(), Fail> {
    let mut plan = PlanSource::<Watched<&[u8]>>::Sample;
    let mut out = narrow(rt.alloc(), SAMPLE_LISTING.len(), WhenFull::Error);
    let answer = engine_plan(rt.alloc(), &mut plan, &mut out);
    assert!(rt; answer == Ok(Outcome::Good));
    assert!(rt; out.into_inner().taken.as_slice() == SAMPLE_LISTING);
    Ok(())
}

#[test]
fn plan_fails_at_each_read(rt: HostRuntime) -> Result<(), Fail> {
    for prefix in 0..SAMPLE.len() {
        let mut plan = PlanSource::Text(Watched::new(Broken {
            bytes: &SAMPLE[..prefix],
        }));
        let mut out = Watched::new(Vec::new(rt.alloc()));
        let answer = engine_plan(rt.alloc(), &mut plan, &mut out);
        assert!(rt; answer == Err(ToolFault::Read));
        assert!(rt; status(&answer) == 3);
        assert!(rt; out.into_inner().is_empty());
    }
    Ok(())
}

// After so many bytes the writer of `camac events` is full: these were written.
fn expect_events_full(
    rt: &(impl Abort + AllocGlobal),
    file: &[u8],
    listing: &[u8],
    when_full: WhenFull,
) -> Result<(), Fail> {
    for room in 0..listing.len() {
        let mut input = Watched::new(file);
        let mut out = narrow(rt.alloc(), room, when_full);
        let answer = engine_events(rt.alloc(), &mut input, &mut out);
        assert!(rt; answer == Err(ToolFault::Write));
        assert!(rt; out.into_inner().taken.as_slice() == &listing[..room]);
    }
    Ok(())
}

#[test]
fn events_fails_at_each_write(rt: HostRuntime) -> Result<(), Fail> {
    expect_events_full(&rt, FILE_ONE, LISTING_ONE, WhenFull::Error)?;
    expect_events_full(&rt, FILE_ONE, LISTING_ONE, WhenFull::Nothing)?;
    expect_events_full(&rt, FILE_TWO, LISTING_TWO, WhenFull::Error)
}

#[test]
fn events_writes_a_byte_at_a_time(rt: HostRuntime) -> Result<(), Fail> {
    let mut input = Watched::new(FILE_TWO);
    let mut out = narrow(rt.alloc(), LISTING_TWO.len(), WhenFull::Error);
    let answer = engine_events(rt.alloc(), &mut input, &mut out);
    assert!(rt; answer == Ok(Outcome::Good));
    assert!(rt; out.into_inner().taken.as_slice() == LISTING_TWO);
    Ok(())
}

#[test]
fn events_fails_at_each_read(rt: HostRuntime) -> Result<(), Fail> {
    for prefix in 0..FILE_TWO.len() {
        let mut input = Watched::new(Broken {
            bytes: &FILE_TWO[..prefix],
        });
        let mut out = Watched::new(Vec::new(rt.alloc()));
        let answer = engine_events(rt.alloc(), &mut input, &mut out);
        assert!(rt; answer == Err(ToolFault::Read));
        assert!(rt; out.into_inner().is_empty());
    }
    Ok(())
}
