// An input of the program, under the word that names it.

ghost use Rattle.std.specs.Prelude.{◌≡◌, true, IfOk, IfErr, OnErr};
ghost use Rattle.std.specs.Io.KnownBytes.{Keeps};
ghost use Rattle.camac_tool_host.specs.Apart.{Opens, OpensPlan, is_sample};
ghost use Rattle.camac_tool.specs.Input.{IsInputOf, IsSourceOf};
ghost use Rattle.camac_engines.specs.declared.fault.ToolFault.TheVariants.{Read as read-fault};

use crate::failure::{Failing, Failure};
use camac_answer::TextReader;
use camac_engines::{PlanSource, ToolFault};
use camac_tool_host::Host;
use std::io;
use std::marker::PhantomData;

/// An input of the host, and whether a call has failed so far.
#[derive(Drop)]
pub struct InputReader<'r, 'f, 'a, H: Host, K: Failing> {
    host: &'r H,
    pub input: H::Input,
    pub name: &'a str,
    failure: &'f Failure<'a>,
    failed: bool,
    of: PhantomData<K>,
    ghost fails: { H.fails host.now ≡ K.fails },
    ghost cause: { failed ≡ true → K.fails ≡ true },
}

impl<H: Host, K: Failing> TextReader for InputReader<'_, '_, '_, H, K> {
    ghost remaining = { λ i. H.left i.input };

    ghost failed = { λ i. i.failed };

    fn read_piece(&mut self, buf: &mut [u8]) -> io::Result<usize> {
        let result = self.host.read(&mut self.input, buf);
        if let Err(why) = &result {
            self.failure.read(self.name, *why);
        }
        self.failed = self.failed || result.is_err();
        result
    }
}

/// The input that a word names.
pub fn open<'r, 'f, 'a, H: Host, K: Failing>(
    host: &'r H,
    failure: &'f Failure<'a>,
    word: &'a str,
) -> Result<InputReader<'r, 'f, 'a, H, K>, ToolFault>
    requires { H.fails host.now ≡ K.fails }
    ensures bytes { IfOk result (λ reader. Keeps (H.bytes_of host.now word.now) (H.left reader.input)) }
    ensures file { IfOk result (λ reader. Opens (H.finds host.now) (H.reads host.now reader.input) word.now) }
    ensures fault { IfErr result (λ fault. fault ≡ read-fault) }
    ensures cause { OnErr result (K.fails ≡ true) }
{
    match host.open(word) {
        Ok(input) => Ok(InputReader {
            host,
            input,
            name: word,
            failure,
            failed: false,
            of: PhantomData,
        }),
        Err(why) => Err(failure.read(word, why)),
    }
}

/// The input that a plan is read from; the sample plan is read from none.
pub fn open_plan<'r, 'f, 'a, H: Host, K: Failing>(
    host: &'r H,
    failure: &'f Failure<'a>,
    word: &'a str,
) -> Result<Option<InputReader<'r, 'f, 'a, H, K>>, ToolFault>
    requires { H.fails host.now ≡ K.fails }
    ensures input { IfOk result (λ reader. IsInputOf (λ i. H.left i.input) (H.bytes_of host.now word.now) (is_sample word.now) reader) }
    ensures file { IfOk result (λ reader. OpensPlan (H.finds host.now) (λ i. H.reads host.now i.input) word.now reader) }
    ensures fault { IfErr result (λ fault. fault ≡ read-fault) }
    ensures cause { OnErr result (K.fails ≡ true) }
{
    if word == "@sample" {
        return Ok(None);
    }
    Ok(Some(open(host, failure, word)?))
}

/// The source of a plan.
pub fn source_of<I: Drop>(input: Option<I>) -> PlanSource<I>
    ensures { IsSourceOf input result }
{
    match input {
        None => PlanSource::Sample,
        Some(input) => PlanSource::Text(input),
    }
}
