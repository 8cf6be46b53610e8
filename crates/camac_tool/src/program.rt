// The program, from its words to its exit status.

ghost use Rattle.std.specs.Prelude.{◌≡◌, ◌⊎◌, ◌||◌, IfErr, IfOk, List, ℕ, Option, map, string_bytes, true, false};
ghost use Rattle.std.specs.Io.KnownBytes.{Keeps};
ghost use Rattle.clap.specs.Words.{kind_of};
ghost use Rattle.camac_tool_host.specs.Apart.{IsApartFrom, IsTakenBy, is_sample, words_of};
ghost use Rattle.camac_tool.specs.Input.{IsInputOf};
ghost use Rattle.camac_tool.specs.Jobs.{DoesJob, DoesRun, Drives, EventsTell, ExplainsRule, HandsOn, IsSettled, PlanTells, Replies, Responds, ScriptTells};
ghost use Rattle.camac_tool.specs.Causes.{CanBeUnread, CanFail, RunCanFail, held_fault};
ghost use Rattle.camac_tool.specs.Devices.{IsKept, outputs};
ghost use Rattle.camac_tool.specs.Status.{Ends, EndsAs, EndsJob, EndsMisuse, EndsUsage};
ghost use Rattle.camac_tool.specs.declared.launch.ArgumentsFault.TheVariants.{Memory, NotText};
ghost use Rattle.camac_engines.specs.Engine.{is_write_fault};
ghost use Rattle.camac_engines.specs.declared.fault.ToolFault.TheVariants.{Read as read-fault, Write as write-fault};
ghost use Rattle.camac_engines.specs.Reading.{is_read_fault};
ghost use Rattle.camac_word.specs.Watched.{inner_of, has_failed};

use crate::devices::run_on_devices;
use crate::failure::{Failing, Failure, Named};
use crate::input::{InputReader, open, open_plan, source_of};
use crate::launch::ArgumentsFault;
use crate::target::{NewFile, Saving, keep_apart, settle};
use camac_engines::{
    Ask, Outcome, PlanAsk, Responded, ToolFault, Turns, answer, answer_plan, engine_events,
    engine_explain_rule, engine_response, status,
};
use camac_event::TextWriter;
use camac_explain_rule::Rule;
use camac_play::Telling;
use camac_response::{Misuse, read_settings};
use camac_tool_host::{Device, Earlier, Gathered, Host, Live, RunWords, Whole};
use camac_tool_run::run_over;
use camac_tool_words::{Job, JobFault, read_words, setting_error};
use camac_word::{Watched, WriteFault};
use clap::Error;
use clap::error::ErrorKind;
use std::io::{Eprint, Write};
use std::marker::{Brand, PhantomData};

/// The status of a usage fault.
const USAGE: u8 = 2;

const STANDARD_OUTPUT: &str = "standard output";

/// The commands of the Python package that the program does not have.
const OF_PACKAGE: [&str; 11] = [
    "annotate", "csv", "diff", "draw", "export", "fmt", "lsp", "report", "simulate", "survey",
    "watch",
];

/// The options of `camac-check` that `check` does not have.
const OF_CHECK: [&str; 5] = ["--strict", "--write", "--keeps", "--json", "--format"];

/// Does what the words after the program's name ask for. Returns the exit status: 0 or 1 by the outcome, 2 where the words ask for nothing
/// that is there, 3 for a fault, and 141 where a pipe was written that its reader closed. What a job tells goes to `out`, which is returned,
/// and of which it is told whether a call has failed. `events` is the EVENTS of a run, which is returned, too. Help and version go to standard
/// output, and end with 0. A fault is a line on standard error, and below it its file and the reason.
pub fn exit_status<R: Host + Eprint + AllocGlobal, W: Write + Drop>(
    rt: &R,
    words: &[String],
    out: W,
    events: R::Events,
) -> (u8, Watched<W>, R::Events)
    ensures { Ends (R.bytes_of rt.now) (R.finds rt.now) (R.saved rt.now) (R.fails rt.now) (map string_bytes words.now) (outputs W.contents R.holds out events) (outputs W.contents R.holds (inner_of result.1) result.2) (has_failed result.1) result.0 }
{
    serve_words::<Brand, R, Watched<W>>(rt, words, Watched::new(out), events)
}

fn serve_words<K: Failing, R: Host + Eprint + AllocGlobal, D: Device + Drop>(
    rt: &R,
    words: &[String],
    out: D,
    events: R::Events,
) -> (u8, D, R::Events)
    requires { R.fails rt.now ≡ K.fails }
    ensures { Ends (R.bytes_of rt.now) (R.finds rt.now) (R.saved rt.now) (R.fails rt.now) (map string_bytes words.now) (outputs D.contents R.holds out events) (outputs D.contents R.holds result.1 result.2) (D.failed result.1) result.0 }
{
    let failure = Failure::none();
    let tool = Tool::<'_, '_, '_, R, K> {
        rt,
        failure: &failure,
        of: PhantomData,
    };
    let _places = match rt.hold_places() {
        Ok(places) => places,
        Err(why) => return (failure.tell(rt, failure.read("/", why)), out, events),
    };
    match read_words(rt.alloc(), words) {
        Ok(job) => tool.serve(job, out, events),
        Err(JobFault::InTwice) => (tool.misused("fault @in twice"), out, events),
        Err(JobFault::Usage(error)) => (tool.print_usage(error, words), out, events),
    }
}

/// The exit status where the arguments cannot be read, after one line on standard error: 2 where they are no text, 3 where memory ran out.
pub fn unread_status<R: Eprint>(rt: &R, fault: ArgumentsFault) -> u8
    ensures not_text { fault ≡ NotText → result ≡ 2 }
    ensures memory { fault ≡ Memory → result ≡ 3 }
{
    let _ = eprintln!(rt; "{fault}");
    match fault {
        ArgumentsFault::NotText => USAGE,
        ArgumentsFault::Memory => status(&Err(ToolFault::Memory)),
    }
}

/// What became of a job.
#[derive(Drop)]
pub enum Done<'a> {
    /// An engine answered it.
    Answered(Outcome),
    /// Words of `response` are wrong, and nothing was written.
    Misused(Misuse<'a>),
    /// The word has the form of a code, and is none.
    NoCode(&'a str),
}

/// What is asked of inputs, where nothing is run.
#[derive(Drop)]
pub enum Question<'a> {
    Plan(PlanAsk, &'a str),
    Script(Ask<'a>, &'a str, &'a str),
    /// What is known at a line and a column, in turns.
    Known(u32, u32, Vec<u32>, &'a str, &'a str),
    Response(&'a str, &'a str, Vec<&'a str>, Vec<&'a str>),
}

// What the functions of a job share.
#[derive(Drop)]
struct Tool<'r, 'f, 'a, R: Host, K: Failing> {
    rt: &'r R,
    failure: &'f Failure<'a>,
    of: PhantomData<K>,
    ghost fails: { R.fails rt.now ≡ K.fails },
}

impl<'r, 'f, 'a, R: Host + Eprint + AllocGlobal, K: Failing> Tool<'r, 'f, 'a, R, K> {
    fn serve<D: Device + Drop>(&self, job: Job<'a>, out: D, events: R::Events) -> (u8, D, R::Events)
        ensures { EndsJob (R.bytes_of self.now.rt.now) (R.finds self.now.rt.now) (R.saved self.now.rt.now) (R.fails self.now.rt.now) job.entry (outputs D.contents R.holds out events) (outputs D.contents R.holds result.1 result.2) (D.failed result.1) result.0 }
    {
        let is_swapped = is_swapped(&job);
        let out = Named::new(out, STANDARD_OUTPUT, self.failure);
        let (done, out, events) = self.do_job(job, out, events);
        if is_swapped && let Ok(Done::Answered(Outcome::Refused)) = &done {
            let _ = eprintln!(self.rt; "  PLAN comes first, then SCRIPT");
        }
        (self.finished(done), out.device, events)
    }

    fn do_job<D: Device + Drop>(
        &self,
        job: Job<'a>,
        out: D,
        events: R::Events,
    ) -> (Result<Done<'a>, ToolFault>, D, R::Events)
        ensures does { DoesJob (R.bytes_of self.now.rt.now) (R.finds self.now.rt.now) (R.saved self.now.rt.now) job.entry (outputs D.contents R.holds out events) (outputs D.contents R.holds result.1 result.2) result.0 }
        ensures cause { is_write_fault result.0 ≡ true → CanFail (R.finds self.now.rt.now) (R.fails self.now.rt.now) job.entry (D.failed result.1) }
        ensures unread { is_read_fault result.0 ≡ true → CanBeUnread (R.fails self.now.rt.now) job.entry }
    {
        let (done, out) = match job {
            Job::Plan(plan) => self.gather(Question::Plan(PlanAsk::Lines, plan), out),
            Job::Commands(plan) => self.gather(Question::Plan(PlanAsk::Commands, plan), out),
            Job::ExplainPlan(plan) => self.gather(Question::Plan(PlanAsk::Explain, plan), out),
            Job::ExplainRule(code) => self.explain_rule(code, out),
            Job::Check(plan, script) => self.ask(Ask::Check, plan, script, out),
            Job::Explain(plan, script) => self.ask(Ask::Explain, plan, script, out),
            Job::ExplainBounds(plan, script) => self.ask(Ask::ExplainBounds, plan, script, out),
            Job::ExplainAt(line, column, turns, plan, script) => {
                self.gather(Question::Known(line, column, turns, plan, script), out)
            }
            Job::Bounds(plan, script) => self.ask(Ask::Bounds, plan, script, out),
            Job::Costs(plan, script) => self.ask(Ask::Costs, plan, script, out),
            Job::Tell(plan, script) => self.ask(Ask::Tell, plan, script, out),
            Job::Response(plan, script, every, within) => {
                self.gather(Question::Response(plan, script, every, within), out)
            }
            Job::Events(file) => self.list_events(file, out),
            Job::Run(plan, script, answers, name) => {
                let words = RunWords::new(plan, script, answers, name, Earlier::Emptied);
                return self.run::<Brand, D>(words, out, events);
            }
            Job::Drive(plan, script, name) => {
                let words = RunWords::new(plan, script, "@in", name, Earlier::Refused);
                return self.drive::<Brand, D>(words, out, events);
            }
        };
        (done, out, events)
    }

    fn ask<D: Device + Drop>(
        &self,
        ask: Ask<'a>,
        plan: &'a str,
        script: &'a str,
        out: D,
    ) -> (Result<Done<'a>, ToolFault>, D)
        ensures told { HandsOn (ScriptTells (R.bytes_of self.now.rt.now) plan.now script.now ask.entry) (D.contents out) (D.contents result.1) result.0 }
        ensures cause { is_write_fault result.0 ≡ true → D.failed result.1 ≡ true }
        ensures unread { is_read_fault result.0 ≡ true → R.fails self.now.rt.now ≡ true }
    {
        self.gather(Question::Script(ask, plan, script), out)
    }

    // What is told is held until all of it is known, so that no fault but one of the output comes after its first byte.
    fn gather<D: Device + Drop>(
        &self,
        question: Question<'a>,
        out: D,
    ) -> (Result<Done<'a>, ToolFault>, D)
        ensures told { HandsOn (Replies (R.bytes_of self.now.rt.now) question.entry) (D.contents out) (D.contents result.1) result.0 }
        ensures cause { is_write_fault result.0 ≡ true → D.failed result.1 ≡ true }
        ensures unread { is_read_fault result.0 ≡ true → R.fails self.now.rt.now ≡ true }
    {
        let mut text = Watched::new(Vec::new(self.rt.alloc()));
        let done = match self.reply(question, &mut text) {
            Ok(done) => done,
            Err(fault) => return (Err(held_fault(fault)), out),
        };
        let mut whole = Whole(out);
        let written = whole.put_text(&text.into_inner());
        let Whole(mut out) = whole;
        if written.is_err() || out.hand_on().is_err() {
            return (Err(ToolFault::Write), out);
        }
        (Ok(done), out)
    }

    fn reply<W: Write>(
        &self,
        question: Question<'a>,
        out: &mut Watched<W>,
    ) -> Result<Done<'a>, ToolFault>
        ensures told { Replies (R.bytes_of self.now.rt.now) question.entry (W.contents (inner_of out.old)) (W.contents (inner_of out.new)) result }
        ensures unread { is_read_fault result ≡ true → R.fails self.now.rt.now ≡ true }
    {
        match question {
            Question::Plan(ask, plan) => self.ask_plan(ask, plan, out),
            Question::Script(ask, plan, script) => self.ask_script(ask, plan, script, out),
            Question::Known(line, column, turns, plan, script) => {
                let turns = Turns::of(&turns);
                let ask = Ask::ExplainAt {
                    line,
                    column,
                    turns,
                };
                self.ask_script(ask, plan, script, out)
            }
            Question::Response(plan, script, every, within) => {
                self.respond(plan, script, &every, &within, out)
            }
        }
    }

    fn ask_plan<W: Write>(
        &self,
        ask: PlanAsk,
        plan: &'a str,
        out: &mut Watched<W>,
    ) -> Result<Done<'a>, ToolFault>
        ensures told { PlanTells (R.bytes_of self.now.rt.now) plan.now ask (W.contents (inner_of out.old)) (W.contents (inner_of out.new)) result }
        ensures unread { is_read_fault result ≡ true → R.fails self.now.rt.now ≡ true }
    {
        let mut plan = source_of(open_plan::<R, K>(self.rt, self.failure, plan)?);
        let outcome = answer_plan(self.rt.alloc(), ask, &mut plan, out)?;
        Ok(Done::Answered(outcome))
    }

    fn ask_script<W: Write>(
        &self,
        ask: Ask<'_>,
        plan: &'a str,
        script: &'a str,
        out: &mut Watched<W>,
    ) -> Result<Done<'a>, ToolFault>
        ensures told { ScriptTells (R.bytes_of self.now.rt.now) plan.now script.now ask.entry (W.contents (inner_of out.old)) (W.contents (inner_of out.new)) result }
        ensures unread { is_read_fault result ≡ true → R.fails self.now.rt.now ≡ true }
    {
        let mut plan = source_of(open_plan::<R, K>(self.rt, self.failure, plan)?);
        let mut script = open::<R, K>(self.rt, self.failure, script)?;
        let outcome = answer(self.rt.alloc(), ask, &mut plan, &mut script, out)?;
        Ok(Done::Answered(outcome))
    }

    // Words that are wrong are told before a file is opened.
    fn respond<W: Write>(
        &self,
        plan: &'a str,
        script: &'a str,
        every: &[&'a str],
        within: &[&'a str],
        out: &mut Watched<W>,
    ) -> Result<Done<'a>, ToolFault>
        ensures told { Responds (R.bytes_of self.now.rt.now) plan.now script.now (map (λ w. w.now) every.now) (map (λ w. w.now) within.now) (W.contents (inner_of out.old)) (W.contents (inner_of out.new)) result }
        ensures unread { is_read_fault result ≡ true → R.fails self.now.rt.now ≡ true }
    {
        let settings = match read_settings(self.rt.alloc(), every, within)? {
            Ok(settings) => settings,
            Err(misuse) => return Ok(Done::Misused(misuse)),
        };
        let mut plan = source_of(open_plan::<R, K>(self.rt, self.failure, plan)?);
        let mut script = open::<R, K>(self.rt, self.failure, script)?;
        match engine_response(self.rt.alloc(), &settings, &mut plan, &mut script, out)? {
            Responded::Told(outcome) => Ok(Done::Answered(outcome)),
            Responded::Misused(misuse) => Ok(Done::Misused(misuse)),
        }
    }

    // The lines of a file may be many. They go out while they are made, and are gathered; what is held at a fault is lost.
    fn list_events<D: Device + Drop>(
        &self,
        file: &'a str,
        out: D,
    ) -> (Result<Done<'a>, ToolFault>, D)
        ensures told { HandsOn (EventsTell (R.bytes_of self.now.rt.now) file.now) (D.contents out) (D.contents result.1) result.0 }
        ensures cause { is_write_fault result.0 ≡ true → D.failed result.1 ≡ true }
        ensures unread { is_read_fault result.0 ≡ true → R.fails self.now.rt.now ≡ true }
    {
        let mut out = match Gathered::new(self.rt.alloc(), out) {
            Ok(out) => out,
            Err(out) => return (Err(ToolFault::Memory), out),
        };
        let done = self.write_events(file, &mut out);
        match done {
            Ok(done) => match out.flush() {
                Ok(()) => (Ok(done), out.into_inner()),
                Err(_) => (Err(ToolFault::Write), out.into_inner()),
            },
            Err(fault) => (Err(fault), out.into_inner()),
        }
    }

    fn write_events<W: TextWriter>(&self, file: &'a str, out: &mut W) -> Result<Done<'a>, ToolFault>
        ensures told { EventsTell (R.bytes_of self.now.rt.now) file.now (W.contents out.old) (W.contents out.new) result }
        ensures failed { W.failed out.new ≡ (W.failed out.old || is_write_fault result) }
        ensures unread { is_read_fault result ≡ true → R.fails self.now.rt.now ≡ true }
    {
        let mut input = open::<R, K>(self.rt, self.failure, file)?;
        let outcome = engine_events(self.rt.alloc(), &mut input, out)?;
        Ok(Done::Answered(outcome))
    }

    // The text of a rule goes out in one write.
    fn explain_rule<D: Device + Drop>(
        &self,
        code: &'a str,
        out: D,
    ) -> (Result<Done<'a>, ToolFault>, D)
        ensures told { ExplainsRule code.now (D.contents out) (D.contents result.1) result.0 }
        ensures cause { is_write_fault result.0 ≡ true → D.failed result.1 ≡ true }
        ensures no_read { is_read_fault result.0 ≡ false }
    {
        let Some(rule) = Rule::of_code(code) else {
            return (Ok(Done::NoCode(code)), out);
        };
        let mut text = Watched::new(Vec::new(self.rt.alloc()));
        let outcome = match engine_explain_rule(self.rt.alloc(), rule, &mut text) {
            Ok(outcome) => outcome,
            Err(fault) => return (Err(held_fault(fault)), out),
        };
        let mut whole = Whole(out);
        match whole.put_text(&text.into_inner()) {
            Ok(()) => (Ok(Done::Answered(outcome)), whole.0),
            Err(WriteFault) => (Err(ToolFault::Write), whole.0),
        }
    }

    fn run<S: Saving, D: Device + Drop>(
        &self,
        words: RunWords<'a>,
        out: D,
        events: R::Events,
    ) -> (Result<Done<'a>, ToolFault>, D, R::Events)
        requires begun { R.holds events ≡ S.begun }
        requires saves { (bytes : Option (List ℕ)) → R.saved self.now.rt.now (words_of words) bytes ≡ S.saves bytes }
        ensures does { DoesRun (R.bytes_of self.now.rt.now) (R.finds self.now.rt.now) (words_of words.entry) S.saves (outputs D.contents R.holds out events) (outputs D.contents R.holds result.1 result.2) result.0 }
        ensures cause { is_write_fault result.0 ≡ true → RunCanFail (R.finds self.now.rt.now) (R.fails self.now.rt.now) (words_of words.entry) (D.failed result.1) }
        ensures unread { is_read_fault result.0 ≡ true → R.fails self.now.rt.now ≡ true }
    {
        let (plan, mut script, lines) = match self.open_run(&words) {
            Ok(inputs) => inputs,
            Err(fault) => return (Err(fault), out, events),
        };
        let (answers, name) = (words.answers, words.events);
        let file = NewFile::<'_, R, K, S>::named(self.rt, words, events);
        let ran = run_on_devices(
            self.rt.alloc(),
            &mut source_of(plan),
            &mut script,
            lines,
            out,
            Named::new(file, name, self.failure),
        );
        if let Some(line) = &ran.refused {
            line.tell(self.rt, answers);
        }
        let done = settled(ran.outcome, &ran.records);
        (done, ran.listing, ran.records.device.events)
    }

    // A request goes out in one write to a writer that keeps nothing back, and no answer is read ahead of its request.
    fn drive<S: Saving, D: Device + Drop>(
        &self,
        words: RunWords<'a>,
        out: D,
        events: R::Events,
    ) -> (Result<Done<'a>, ToolFault>, D, R::Events)
        requires begun { R.holds events ≡ S.begun }
        requires saves { (bytes : Option (List ℕ)) → R.saved self.now.rt.now (words_of words) bytes ≡ S.saves bytes }
        ensures does { Drives (R.bytes_of self.now.rt.now) (R.finds self.now.rt.now) (words_of words.entry) S.saves (outputs D.contents R.holds out events) (outputs D.contents R.holds result.1 result.2) result.0 }
        ensures cause { is_write_fault result.0 ≡ true → RunCanFail (R.finds self.now.rt.now) (R.fails self.now.rt.now) (words_of words.entry) (D.failed result.1) }
        ensures unread { is_read_fault result.0 ≡ true → R.fails self.now.rt.now ≡ true }
    {
        let (plan, mut script, answers) = match self.open_run(&words) {
            Ok(inputs) => inputs,
            Err(fault) => return (Err(fault), out, events),
        };
        let name = words.events;
        let file = NewFile::<'_, R, K, S>::named(self.rt, words, events);
        let mut io = Live {
            answers,
            requests: Whole(out),
            records: Whole(Named::new(file, name, self.failure)),
        };
        let outcome = run_over(
            self.rt.alloc(),
            Telling::Requests,
            &mut source_of(plan),
            &mut script,
            &mut io,
        );
        let Live {
            requests,
            records,
            ..
        } = io;
        let done = settled(outcome, &records.0);
        (done, requests.0, records.0.device.events)
    }

    // The plan, the script and the answers of a run, none of which is EVENTS.
    fn open_run(
        &self,
        words: &RunWords<'a>,
    ) -> Result<
        (
            Option<InputReader<'r, 'f, 'a, R, K>>,
            InputReader<'r, 'f, 'a, R, K>,
            InputReader<'r, 'f, 'a, R, K>,
        ),
        ToolFault,
    >
        ensures plan { IfOk result (λ inputs. IsInputOf (λ i. R.left i.input) (R.bytes_of self.now.rt.now words.now.plan.now) (is_sample words.now.plan.now) inputs.0) }
        ensures script { IfOk result (λ inputs. Keeps (R.bytes_of self.now.rt.now words.now.script.now) (R.left inputs.1.input)) }
        ensures answers { IfOk result (λ inputs. Keeps (R.bytes_of self.now.rt.now words.now.answers.now) (R.left inputs.2.input)) }
        ensures apart { IfOk result (λ _. IsApartFrom (R.finds self.now.rt.now) (words_of words.now)) }
        ensures fault { IfErr result (λ fault. (fault ≡ read-fault) ⊎ (fault ≡ write-fault)) }
        ensures cause { is_write_fault result ≡ true → (R.fails self.now.rt.now ≡ true) ⊎ IsTakenBy (R.finds self.now.rt.now) (words_of words.now) }
        ensures unread { is_read_fault result ≡ true → R.fails self.now.rt.now ≡ true }
    {
        let plan = open_plan(self.rt, self.failure, words.plan)?;
        let script = open(self.rt, self.failure, words.script)?;
        let answers = open(self.rt, self.failure, words.answers)?;
        keep_apart(
            self.rt,
            self.failure,
            words.events,
            &plan,
            &script,
            &answers,
        )?;
        Ok((plan, script, answers))
    }

    // What standard error does not take is lost: there is no other place to tell it.

    fn finished(&self, done: Result<Done<'_>, ToolFault>) -> u8
        ensures { EndsAs done.entry result }
    {
        match done {
            Ok(Done::Answered(outcome)) => status(&Ok(outcome)),
            Ok(Done::Misused(misuse)) => self.misused_words(misuse),
            Ok(Done::NoCode(code)) => {
                let _ = eprintln!(self.rt; "fault {code}: no such code");
                USAGE
            }
            Err(fault) => self.failure.tell(self.rt, fault),
        }
    }

    #[tactic(auto, using(crate::proofs::Ended::memory_ends))]
    fn misused_words(&self, misuse: Misuse<'_>) -> u8
        ensures { EndsMisuse misuse.entry result }
    {
        let Misuse::Form(option, word) = misuse else {
            let _ = eprintln!(self.rt; "{misuse}");
            return USAGE;
        };
        match setting_error(self.rt.alloc(), option, word) {
            Ok(error) => self.print_usage(error, &[]),
            Err(_) => self.failure.tell(self.rt, ToolFault::Memory),
        }
    }

    fn misused(&self, why: &str) -> u8
        ensures { result ≡ 2 }
    {
        let _ = eprintln!(self.rt; "{why}");
        USAGE
    }

    // The text of `clap`: help, version, or why the words name no job.
    fn print_usage(&self, error: Error, words: &[String]) -> u8
        ensures { EndsUsage (R.fails self.now.rt.now) (kind_of error) result }
    {
        if let ErrorKind::InvalidSubcommand | ErrorKind::UnknownArgument = error.kind()
            && let Some((program, rest)) = meant_by(words)
        {
            let _ = eprintln!(self.rt; "error: camac has no such command; write '{program}{rest}'");
            return USAGE;
        }
        if error.kind() == ErrorKind::OutOfMemory {
            return self.failure.tell(self.rt, ToolFault::Memory);
        }
        if error.use_stderr() {
            let _ = self.rt.eprint(&error);
            return USAGE;
        }
        match self.rt.print_text(&error) {
            Ok(()) => 0,
            Err(why) => self
                .failure
                .tell(self.rt, self.failure.write(STANDARD_OUTPUT, why)),
        }
    }
}

// Whether a name says that a script stands in the place of the plan, or a plan in that of the script. `explain` tells it by what they hold.
fn is_swapped(job: &Job<'_>) -> bool {
    match job {
        Job::Check(plan, script)
        | Job::Bounds(plan, script)
        | Job::Costs(plan, script)
        | Job::Response(plan, script, _, _)
        | Job::Run(plan, script, _, _)
        | Job::Drive(plan, script, _) => plan.ends_with(".script") || script.ends_with(".toml"),
        _ => false,
    }
}

// The command that the words mean where `clap` knows none of this name or with this option.
fn meant_by(words: &[String]) -> Option<(&'static str, &str)> {
    let (first, rest) = words.split_first()?;
    let first = first.as_str();
    if first == "version" {
        Some(("camac ", "--version"))
    } else if first.ends_with(".toml") {
        Some(("camac ", "check PLAN SCRIPT"))
    } else if OF_PACKAGE.contains(&first) {
        Some(("python3 -m camac ", first))
    } else if rest.iter().any(|word| OF_CHECK.contains(&word.as_str())) {
        Some(("camac-check", " PLAN SCRIPT"))
    } else {
        None
    }
}

// The fault of an engine that writes to memory, where a write fails only if that runs out.
fn held_fault(fault: ToolFault) -> ToolFault
    ensures { result ≡ held_fault fault }
{
    match fault {
        ToolFault::Write => ToolFault::Memory,
        fault => fault,
    }
}

// Of a run that came to its end the event file is waited for.
fn settled<'a, R: Host, K: Failing, S: Saving>(
    outcome: Result<Outcome, ToolFault>,
    events: &Named<'_, '_, NewFile<'_, R, K, S>>,
) -> Result<Done<'a>, ToolFault>
    ensures ended { IsSettled outcome result }
    ensures saved { IfOk result (λ _. IsKept S.begun S.saves (R.holds events.now.device.events)) }
    ensures cause { is_write_fault result ≡ true → (is_write_fault outcome ≡ true) ⊎ (K.fails ≡ true) }
    ensures read { is_read_fault result ≡ true → is_read_fault outcome ≡ true }
{
    let outcome = outcome?;
    settle(events)?;
    Ok(Done::Answered(outcome))
}
