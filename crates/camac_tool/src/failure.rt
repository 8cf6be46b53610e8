// Why a call on a file or a standard stream failed: what stands below the line of a fault.

ghost use Rattle.std.specs.Prelude.{◌≡◌, Bool, true};
ghost use Rattle.camac_tool.specs.Status.{EndsStopped, fault_status};
ghost use Rattle.camac_engines.specs.declared.fault.ToolFault.TheVariants.{Read as read-fault, Write as write-fault};

use arrayvec::ArrayString;
use camac_engines::{ToolFault, status};
use camac_tool_host::Device;
use std::cell::Cell;
use std::fmt::Write as TextWrite;
use std::io;
use std::io::{Eprint, Error, ErrorKind};
use std::marker::Brand;

/// What stands between the system's text of an error and its number, as the kit writes them.
const NUMBER: &str = " (os error ";

/// The status of a tool that is ended by SIGPIPE, as a shell tells it.
const CLOSED: u8 = 141;

/// The last call that failed, if any: the name of its file, and why. The readers and the writers of the program share it.
#[derive(Drop)]
pub struct Failure<'a>(Cell<Option<(&'a str, Error)>>);

impl<'a> Failure<'a> {
    pub fn none() -> Failure<'a> {
        Failure(Cell::new(None))
    }

    /// Remembers why a file of this name could not be opened or read.
    pub fn read(&self, name: &'a str, why: Error) -> ToolFault
        ensures { result ≡ read-fault }
    {
        self.0.set(Some((name, why)));
        ToolFault::Read
    }

    /// Remembers why a file of this name could not be made, written or waited for.
    pub fn write(&self, name: &'a str, why: Error) -> ToolFault
        ensures { result ≡ write-fault }
    {
        self.0.set(Some((name, why)));
        ToolFault::Write
    }

    /// Tells a fault on standard error, and which file it is of, and answers the exit status. Of a pipe that its reader closed nothing is told.
    pub fn tell<R: Eprint>(&self, rt: &R, fault: ToolFault) -> u8
        ensures { EndsStopped fault result }
    {
        let Some((name, why)) = self.0.get() else {
            let _ = eprintln!(rt; "{fault}");
            return fault_status(fault, false);
        };
        let status = fault_status(fault, why.kind() == ErrorKind::BrokenPipe);
        if status != CLOSED {
            let mut text = ArrayString::<128>::new();
            let _ = write!(text, "{why}");
            let text = text.as_str();
            let reason = text.rsplit_once(NUMBER).map_or(text, |(reason, _)| reason);
            let _ = eprintln!(rt; "{fault}\n  {name}: {reason}");
        }
        status
    }
}

// The exit status after a fault, and whether the last call that failed found its pipe closed.
fn fault_status(fault: ToolFault, is_closed: bool) -> u8
    ensures { result ≡ fault_status fault is_closed }
{
    match fault {
        ToolFault::Write if is_closed => CLOSED,
        _ => status(&Err(fault)),
    }
}

/// For the proof alone: whether a call of the host fails.
pub trait Failing {
    ghost fails: { Bool };
}

impl Failing for Brand {
    ghost fails = { true };
}

/// A writer of the program, under the name by which a fault tells of it.
#[derive(Drop)]
pub struct Named<'f, 'a, D: Drop> {
    pub device: D,
    name: &'a str,
    failure: &'f Failure<'a>,
}

impl<'f, 'a, D: Drop> Named<'f, 'a, D> {
    pub fn new(device: D, name: &'a str, failure: &'f Failure<'a>) -> Named<'f, 'a, D>
        ensures { result.device ≡ device }
    {
        Named {
            device,
            name,
            failure,
        }
    }

    /// Remembers why a call that writes it failed.
    pub fn write_fault(&self, why: Error) -> ToolFault
        ensures { result ≡ write-fault }
    {
        self.failure.write(self.name, why)
    }
}

impl<D: Device + Drop> Device for Named<'_, '_, D> {
    ghost contents = { λ n. D.contents n.device };

    ghost failed = { λ n. D.failed n.device };

    // A writer that takes nothing fails.
    fn write_some(&mut self, bytes: &[u8]) -> io::Result<usize> {
        let result = match self.device.write_some(bytes) {
            Ok(0) if !bytes.is_empty() => Err(Error::new(
                ErrorKind::WriteZero,
                "it takes no bytes",
            )),
            result => result,
        };
        if let Err(why) = &result {
            self.write_fault(*why);
        }
        result
    }

    fn hand_on(&mut self) -> io::Result<()> {
        let result = self.device.hand_on();
        if let Err(why) = &result {
            self.write_fault(*why);
        }
        result
    }

    fn has_failed(&self) -> bool {
        self.device.has_failed()
    }
}
