// The event file of a run. Nothing but an older event file is lost by it, and no run ends well before it is on the disk.

ghost use Rattle.std.specs.Prelude.{◌≡◌, ◌⊎◌, ◌↔◌, ℕ, Bool, true, false, List, Option, None, IfErr, IfOk, IsOk, IsOkAnd, OnErr, codes};
ghost use Rattle.camac_tool_host.specs.Apart.{Differs, DiffersFromOutputs, IsApart, IsApartFrom, IsNamed, IsTaken, Meets, PlanDiffers, PlanMeets, is_same, words_of};
ghost use Rattle.camac_tool.specs.Devices.{IsKept};
ghost use Rattle.camac_engines.specs.declared.fault.ToolFault.TheVariants.{Write as write-fault};

use crate::failure::{Failing, Failure, Named};
use crate::input::InputReader;
use camac_engines::ToolFault;
use camac_tool_host::{Device, FileId, Host, RunWords};
use std::io;
use std::io::Error;
use std::marker::{Brand, PhantomData};

/// The names under which the system has the files behind standard output and standard error.
const OUTPUT: &str = "/proc/self/fd/1";

const ERRORS: &str = "/proc/self/fd/2";

/// Refuses EVENTS where it is the same file as one of the inputs, as standard output or as standard error.
pub fn keep_apart<'a, H: Host, K: Failing>(
    host: &H,
    failure: &Failure<'a>,
    name: &'a str,
    plan: &Option<InputReader<'_, '_, 'a, H, K>>,
    script: &InputReader<'_, '_, 'a, H, K>,
    answers: &InputReader<'_, '_, 'a, H, K>,
) -> Result<(), ToolFault>
    ensures apart { IfOk result (λ _. IsApart (H.finds host.now) name.now (λ file.
        PlanDiffers (λ i. H.reads host.now i.input) plan.now file × Differs (H.reads host.now script.now.input) file × Differs (H.reads host.now answers.now.input) file)) }
    ensures fault { IfErr result (λ fault. fault ≡ write-fault) }
    ensures cause { OnErr result ((H.fails host.now ≡ true) ⊎ IsTaken (H.finds host.now) name.now (λ file.
        PlanMeets (λ i. H.reads host.now i.input) plan.now file ⊎ (Meets (H.reads host.now script.now.input) file ⊎ Meets (H.reads host.now answers.now.input) file))) }
{
    let file = match host.find(name) {
        Ok(Some(file)) => file,
        Ok(None) => return Ok(()),
        Err(why) => return Err(failure.write(name, why)),
    };
    let there = There {
        file,
        name,
        failure,
    };
    there.is_no_output(host)?;
    there.is_not(host, script)?;
    there.is_not(host, answers)?;
    match plan {
        Some(plan) => there.is_not(host, plan),
        None => Ok(()),
    }
}

// The file that is there under the name of EVENTS.
#[derive(Drop)]
struct There<'f, 'a> {
    file: FileId,
    name: &'a str,
    failure: &'f Failure<'a>,
}

impl<'a> There<'_, 'a> {
    fn is_no_output<H: Host>(&self, host: &H) -> Result<(), ToolFault>
        ensures outputs { IfOk result (λ _. DiffersFromOutputs (H.finds host.now) self.now.file) }
        ensures fault { IfErr result (λ fault. fault ≡ write-fault) }
        ensures cause { OnErr result ((H.fails host.now ≡ true)
            ⊎ (IsNamed (H.finds host.now) (codes "/proc/self/fd/1") self.now.file ⊎ IsNamed (H.finds host.now) (codes "/proc/self/fd/2") self.now.file)) }
    {
        self.differs(OUTPUT, host.id_at(OUTPUT), "it is standard output")?;
        self.differs(ERRORS, host.id_at(ERRORS), "it is standard error")
    }

    fn is_not<H: Host, K: Failing>(
        &self,
        host: &H,
        reader: &InputReader<'_, '_, 'a, H, K>,
    ) -> Result<(), ToolFault>
        ensures input { IfOk result (λ _. Differs (H.reads host.now reader.now.input) self.now.file) }
        ensures fault { IfErr result (λ fault. fault ≡ write-fault) }
        ensures cause { OnErr result ((H.fails host.now ≡ true) ⊎ Meets (H.reads host.now reader.now.input) self.now.file) }
    {
        self.differs(reader.name, host.id_of(&reader.input), "it is an input")
    }

    // Refuses the other file. One of which the system says nothing may be any file.
    fn differs(
        &self,
        name: &'a str,
        other: io::Result<FileId>,
        refusal: &'static str,
    ) -> Result<(), ToolFault>
        ensures other { IsOk result ↔ IsOkAnd other (λ other. is_same self.now.file other ≡ false) }
        ensures fault { IfErr result (λ fault. fault ≡ write-fault) }
    {
        match other {
            Ok(other) if self.file == other => {
                Err(self.failure.write(self.name, Error::other(refusal)))
            }
            Ok(_) => Ok(()),
            Err(why) => Err(self.failure.write(name, why)),
        }
    }
}

/// For the proof of a run alone: what EVENTS holds before it, and what of it is known to be on the disk.
pub trait Saving {
    ghost begun: { Option (List ℕ) };

    ghost saves: { Option (List ℕ) → Bool };
}

impl Saving for Brand {
    ghost begun = { None };

    ghost saves = { λ _. true };
}

/// EVENTS, which is made with its first byte. That is of the header, when the event file is begun.
#[derive(Drop)]
pub struct NewFile<'a, H: Host, K: Failing, S: Saving> {
    host: &'a H,
    words: RunWords<'a>,
    pub events: H::Events,
    failed: bool,
    of: PhantomData<(K, S)>,
    ghost apart: { ∥ IsApartFrom (H.finds host.now) (words_of words) ∥₁ },
    ghost saves: { (bytes : Option (List ℕ)) → H.saved host.now (words_of words) bytes ≡ S.saves bytes },
    ghost fails: { H.fails host.now ≡ K.fails },
    ghost cause: { failed ≡ true → K.fails ≡ true },
    ghost unmade: { H.made host.now (words_of words) events ≡ false → H.holds events ≡ S.begun },
}

impl<'a, H: Host, K: Failing, S: Saving> NewFile<'a, H, K, S> {
    pub fn named(host: &'a H, words: RunWords<'a>, events: H::Events) -> NewFile<'a, H, K, S>
        requires apart { IsApartFrom (H.finds host.now) (words_of words) }
        requires begun { H.holds events ≡ S.begun }
        requires saves { (bytes : Option (List ℕ)) → H.saved host.now (words_of words) bytes ≡ S.saves bytes }
        requires fails { H.fails host.now ≡ K.fails }
        ensures events { result.events ≡ events }
        ensures works { result.failed ≡ false }
    {
        NewFile {
            host,
            words,
            events,
            failed: false,
            of: PhantomData,
        }
    }
}

impl<H: Host, K: Failing, S: Saving> Device for NewFile<'_, H, K, S> {
    ghost contents = { λ n. H.holds n.events };

    ghost failed = { λ n. n.failed };

    fn write_some(&mut self, bytes: &[u8]) -> io::Result<usize> {
        if bytes.is_empty() {
            return Ok(0);
        }
        let result = self.host.put(&mut self.events, &self.words, bytes);
        let took_nothing = match &result {
            Ok(taken) => *taken == 0,
            Err(_) => true,
        };
        self.failed = self.failed || took_nothing;
        result
    }

    // Nothing is held back.
    fn hand_on(&mut self) -> io::Result<()> {
        Ok(())
    }

    fn has_failed(&self) -> bool {
        self.failed
    }
}

/// Waits until EVENTS is on its disk, where it was made.
pub fn settle<H: Host, K: Failing, S: Saving>(
    events: &Named<'_, '_, NewFile<'_, H, K, S>>,
) -> Result<(), ToolFault>
    ensures saved { IfOk result (λ _. IsKept S.begun S.saves (H.holds events.now.device.events)) }
    ensures fault { IfErr result (λ fault. fault ≡ write-fault) }
    ensures cause { OnErr result (K.fails ≡ true) }
{
    match events.device.host.sync(&events.device.events) {
        Ok(()) => Ok(()),
        Err(why) => Err(events.write_fault(why)),
    }
}
