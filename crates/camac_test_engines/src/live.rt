// What `camac drive @sample` asks for, and what it leaves where a reader or writer fails.

use crate::faults::narrow;
use camac_engines::{Outcome, PlanSource, ToolFault};
use camac_test_fixtures::fakes::{Broken, WhenFull};
use camac_test_fixtures::texts::{ANSWERS, FILE_TWO, NO_EVENTS, STRAIGHT_LINE};
use camac_tool_run::engine_drive;
use camac_word::Watched;
use std::alloc::Global;
use std::io::Read;
use std::test::Fail;

/// What the answers of the straight-line service are asked for by.
const REQUESTS: &[u8] = b"demand
cycle 1 5 0 0 in
demand
ended events 1
";

// What is answered of the straight-line script, the requests, and the event file.
fn drive<R: Read + Drop>(
    alloc: Global,
    answers: R,
) -> (Result<Outcome, ToolFault>, Vec<u8>, Vec<u8>) {
    let mut plan = PlanSource::<Watched<&[u8]>>::Sample;
    let mut script = Watched::new(STRAIGHT_LINE);
    let mut answers = Watched::new(answers);
    let mut requests = Watched::new(Vec::new(alloc));
    let mut events = Watched::new(Vec::new(alloc));
    let answer = engine_drive(
        alloc,
        &mut plan,
        &mut script,
        &mut answers,
        &mut requests,
        &mut events,
    );
    (answer, requests.into_inner(), events.into_inner())
}

// A read fails: all that the answers before it call for was sent, the open request too.
#[test]
fn live_answers_fail(rt: HostRuntime) -> Result<(), Fail> {
    for given in 0..40 {
        let (answer, sent, events) = drive(
            rt.alloc(),
            Broken {
                bytes: &ANSWERS[..given],
            },
        );
        assert!(rt; answer == Err(ToolFault::Read));
        let requests = if given < 20 {
            b"demand\n".as_slice()
        } else {
            b"demand\ncycle 1 5 0 0 in\n".as_slice()
        };
        assert!(rt; sent.as_slice() == requests);
        assert!(rt; events.as_slice() == NO_EVENTS);
    }
    Ok(())
}

// No answer is read before its request is written whole.
#[test]
fn live_requests_fail(rt: HostRuntime) -> Result<(), Fail> {
    for room in 0..REQUESTS.len() {
        let mut plan = PlanSource::<Watched<&[u8]>>::Sample;
        let mut script = Watched::new(STRAIGHT_LINE);
        let mut answers = Watched::new(ANSWERS);
        let mut requests = narrow(rt.alloc(), room, WhenFull::Error);
        let mut events = narrow(rt.alloc(), 100, WhenFull::Error);
        let answer = engine_drive(
            rt.alloc(),
            &mut plan,
            &mut script,
            &mut answers,
            &mut requests,
            &mut events,
        );
        assert!(rt; answer == Err(ToolFault::Write));
        assert!(rt; requests.into_inner().taken.as_slice() == &REQUESTS[..room]);
        let left = if room < 7 {
            40
        } else if room < 24 {
            20
        } else {
            0
        };
        assert!(rt; answers.into_inner().len() == left);
    }
    Ok(())
}
