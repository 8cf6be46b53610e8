// A run's reads and writes that fail.

use crate::faults::narrow;
use camac_engines::{Outcome, PlanSource, ToolFault};
use camac_play::event_file_is_sent;
use camac_test_fixtures::fakes::{Broken, WhenFull};
use camac_test_fixtures::texts::{ANSWERS, FILE_TWO, LISTING, STRAIGHT_LINE};
use camac_tool_run::engine_run;
use camac_word::Watched;
use std::alloc::Global;
use std::process::Abort;
use std::test::Fail;

// The answer where the writers have so much room, and what they took.
fn run_into(
    alloc: Global,
    answers: &[u8],
    listing: usize,
    events: usize,
    when_full: WhenFull,
) -> (Result<Outcome, ToolFault>, Vec<u8>, Vec<u8>) {
    let mut plan = PlanSource::<Watched<&[u8]>>::Sample;
    let mut script = Watched::new(STRAIGHT_LINE);
    let mut answers = Watched::new(answers);
    let mut out = narrow(alloc, listing, when_full);
    let mut file = narrow(alloc, events, when_full);
    let answer = engine_run(
        alloc,
        &mut plan,
        &mut script,
        &mut answers,
        &mut out,
        &mut file,
    );
    (answer, out.into_inner().taken, file.into_inner().taken)
}

// A write of no room: these were written.
fn expect_full(
    rt: &(impl Abort + AllocGlobal),
    room: (usize, usize),
    lines: &[u8],
    file: &[u8],
) -> Result<(), Fail> {
    let (listing, events) = room;
    for when_full in [WhenFull::Error, WhenFull::Nothing] {
        let (answer, out, written) = run_into(rt.alloc(), ANSWERS, listing, events, when_full);
        assert!(rt; answer == Err(ToolFault::Write));
        assert!(rt; out.as_slice() == lines);
        assert!(rt; written.as_slice() == file);
    }
    Ok(())
}

#[test]
fn out_fails_after_20(rt: HostRuntime) -> Result<(), Fail> {
    expect_full(&rt, (20, 100), b"demand 000004 adc\ncy", b"CAMACEV2")
}

#[test]
fn events_fail_after_12(rt: HostRuntime) -> Result<(), Fail> {
    expect_full(
        &rt,
        (100, 12),
        b"demand 000004 adc\ncycle 1 5 0 0 in 123fff x1 q1 wait 2\n",
        b"CAMACEV2\xca\x4d\x00\x03",
    )
}

#[test]
fn events_fail_after_5(rt: HostRuntime) -> Result<(), Fail> {
    expect_full(&rt, (100, 5), b"", b"CAMAC")
}

#[test]
fn answers_fail_after_line_1(rt: HostRuntime) -> Result<(), Fail> {
    let mut plan = PlanSource::<Watched<&[u8]>>::Sample;
    let mut script = Watched::new(STRAIGHT_LINE);
    let mut answers = Watched::new(Broken {
        bytes: &ANSWERS[..20],
    });
    let mut out = Watched::new(Vec::new(rt.alloc()));
    let mut events = Watched::new(Vec::new(rt.alloc()));
    let answer = engine_run(
        rt.alloc(),
        &mut plan,
        &mut script,
        &mut answers,
        &mut out,
        &mut events,
    );
    assert!(rt; answer == Err(ToolFault::Read));
    assert!(rt; out.into_inner().as_slice() == b"demand 000004 adc\n".as_slice());
    assert!(rt; events.into_inner().as_slice() == b"CAMACEV2".as_slice());
    Ok(())
}

#[test]
fn writes_fail_each_in_turn(rt: HostRuntime) -> Result<(), Fail> {
    for room in 0..LISTING.len() {
        let (answer, out, _) = run_into(rt.alloc(), ANSWERS, room, 100, WhenFull::Error);
        assert!(rt; answer == Err(ToolFault::Write));
        assert!(rt; out.len() == room);
        assert!(rt; LISTING.starts_with(out.as_slice()));
    }
    for room in 0..FILE_TWO.len() {
        let (answer, _, file) = run_into(rt.alloc(), ANSWERS, 100, room, WhenFull::Nothing);
        assert!(rt; answer == Err(ToolFault::Write));
        assert!(rt; file.len() == room);
        assert!(rt; FILE_TWO.starts_with(file.as_slice()));
    }
    Ok(())
}

#[test]
fn writers_take_a_byte_at_a_time(rt: HostRuntime) -> Result<(), Fail> {
    let (answer, out, file) = run_into(rt.alloc(), ANSWERS, 70, 28, WhenFull::Error);
    assert!(rt; answer == Ok(Outcome::Good));
    assert!(rt; out.as_slice() == LISTING);
    assert!(rt; file.as_slice() == FILE_TWO);
    Ok(())
}

#[test]
fn law_can_be_called(rt: HostRuntime) -> Result<(), Fail> {
    event_file_is_sent();
    Ok(())
}
