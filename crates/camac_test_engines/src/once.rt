// A flush that fails is not made again, and is remembered.

use camac_test_fixtures::once::{Calls, OnceWriter};
use camac_word::Watched;
use std::alloc::Global;
use std::io::{ErrorKind, Write};
use std::test::Fail;

fn writer(alloc: Global, letter: u8, calls: &Calls) -> Watched<OnceWriter<'_>> {
    Watched::new(OnceWriter {
        letter,
        taken: Vec::new(alloc),
        calls,
    })
}

#[test]
fn flush_fails_once(rt: HostRuntime) -> Result<(), Fail> {
    for kind in [ErrorKind::Interrupted, ErrorKind::Other] {
        let calls = Calls::new(rt.alloc(), Some(0), kind);
        let mut out = writer(rt.alloc(), b'o', &calls);
        assert!(rt; out.flush().is_err());
        assert!(rt; out.failed());
        assert!(rt; out.flush().is_ok());
        assert!(rt; out.failed());
        assert!(rt; out.into_inner().taken.is_empty());
        assert!(rt; calls.made().as_slice() == b"oo".as_slice());
    }
    Ok(())
}
