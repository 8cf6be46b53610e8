// What help says. Nothing is proved of these texts: tests/program_test.py compares the program's help with its pages.

/// The version of the program, as `camac --version` tells it.
pub const VERSION: &str = "0.2.0";

pub const PROGRAM: &str = "Checks and runs CAMAC readout scripts";

pub const PLAN_COMMAND: &str = "Lists what a plan says";

pub const CHECK_COMMAND: &str =
    "Accepts a script with its bounds, or refuses it with a rule and a line";

pub const EXPLAIN_COMMAND: &str =
    "Says where and why a plan or script is refused, and how to fix it";

pub const BOUNDS_COMMAND: &str =
    "Prints the headings of a script with the least numbers that are accepted";

pub const COSTS_COMMAND: &str =
    "Prints the share of each statement in the bounds of an accepted script";

pub const TELL_COMMAND: &str =
    "Prints what check and costs print with all places, or each refusal explained";

pub const RESPONSE_COMMAND: &str =
    "Prints the most cycles from each look-at-me to the end of its service";

pub const RUN_COMMAND: &str =
    "Plays an accepted script against a list of answers, and writes its events";

pub const DRIVE_COMMAND: &str =
    "Runs an accepted script live: asks for each operation, and reads its answer";

pub const EVENTS_COMMAND: &str = "Lists an event file";

pub const PLAN: &str = "A plan: a TOML file, or @sample, the built-in plan, or @in, standard input";

pub const PLAN_OR_CODE: &str =
    "A plan: a TOML file, or @sample, or @in, standard input; or a code as E12 or w3";

pub const COMMANDS: &str = "Lists the commands of each type, too";

pub const AT: &str = "Prints what is known before the statement there";

pub const TURN: &str = "The turn of the 'each' around it that is meant";

pub const EXPLAIN_BOUNDS: &str = "Explains what bounds refuses";

pub const SCRIPT: &str = "A script: a file, or @in, standard input";

pub const EVERY: &str = "Its look-at-mes come at least this many cycles apart";

pub const WITHIN: &str = "Asks whether it has ended this many cycles after its look-at-me";

pub const PLAN_OF_DRIVE: &str = "A plan: a TOML file, or @sample, the built-in plan";

pub const SCRIPT_OF_DRIVE: &str = "A script: a file";

pub const ANSWERS: &str =
    "Answers, a line for each operation (see below): a file, or @in, standard input";

pub const EVENTS: &str =
    "The event file to write: an older one is replaced once the first answer is good";

pub const EVENTS_OF_DRIVE: &str =
    "The event file to write: free or empty, opened once plan and script are accepted";

pub const FILE: &str = "An event file, at most 16777216 bytes: a file, or @in, standard input";

pub const AFTER_PROGRAM: &str =
    "Status: 0 accepted, or done; 1 refused; 2 usage; 3 a file or memory failed;
141 the reader of a pipe is gone.

Examples:
  camac plan plan.toml
  camac check plan.toml readout.script
  camac check @sample @in < readout.script
  camac explain plan.toml readout.script
  camac bounds plan.toml readout.script
  camac costs plan.toml readout.script
  camac tell plan.toml readout.script
  camac response plan.toml readout.script --every adc=200
  camac run plan.toml readout.script answers.txt run.events
  camac drive plan.toml readout.script run.events
  camac events run.events

'camac help run' shows the form of answers.";

pub const AFTER_PLAN: &str =
    "Prints the buffer, the module types, the crates and their stations, or the first fault.
With --commands each type's commands follow it: function, sub-addresses, the
width in bits if data move, or 'probe', and 'clears' if it clears the LAM.

Examples:
  camac plan plan.toml
  camac plan plan.toml --commands
  camac plan @sample
  camac plan @in < plan.toml";

pub const AFTER_CHECK: &str =
    "Prints 'accepted' and the bounds of each service (status 0), or 'refused' with
the rule and the line (status 1). At most one of the two can be @in.

Examples:
  camac check plan.toml readout.script
  camac check @sample @in < readout.script";

pub const AFTER_EXPLAIN: &str =
    "Prints what check prints; without a script what plan prints. After a refusal it
goes on with the line of the script or the place in the plan, what is wrong
there, why the rule is there, and how to fix it. Then it prints a line 'also
refused' for each further fault of linking, or else for each further procedure and
service that is refused. Status as check. At most one of the two can be @in.

With --bounds it explains what bounds refuses, and else prints what bounds prints.

Given a code, of a refusal or a warning, it prints why the rule is there and each way
to fix it, and of a plan or script an example. It reads no file. A lone word of a
letter and digits is a code, so give a plan with such a name as ./E12.

With --at it prints what the checker knows before the statement at that place:
'reached', then a line for each variable with its range, for each register that is
set with its crates, stations and sub-addresses, and for each locked crate; or
'not reached' (status 0). If no statement is there, it says so (status 1). In a
'for' with 'each' that is what holds in all turns; with --turn N what is known in
the turn in which its variable is N. For nested loops --turn can stand several
times, the outermost loop first.

Examples:
  camac explain E12
  camac explain --at 6:3 plan.toml readout.script
  camac explain --at 6:3 --turn 2 plan.toml readout.script
  camac explain --bounds plan.toml readout.script
  camac explain plan.toml
  camac explain plan.toml readout.script
  camac explain @sample @in < readout.script";

pub const AFTER_BOUNDS: &str =
    "Prints the heading of each procedure and service with the numbers that its body
needs (status 0), or 'refused' with the rule and the line (status 1). It
ignores the numbers in the script's own headings. At most one of the two can be
@in.

Examples:
  camac bounds plan.toml readout.script
  camac bounds @sample @in < readout.script";

pub const AFTER_COSTS: &str =
    "Prints a line for each procedure and service with its bounds, and one for each
of its statements: how often it can be made, what one time can cost, and its
share of the bounds (status 0); or 'refused' with the rule and the line (status
1). At most one of the two can be @in.

Examples:
  camac costs plan.toml readout.script
  camac costs @sample @in < readout.script";

pub const AFTER_TELL: &str =
    "Prints, for programs, all that is known of a script at once: the lines of check and
then those of costs, with 'column N' behind the line of each statement (status 0).
Or it prints each refusal, of linking, or else the first of each procedure and
service, and after it what explain says of one (status 1):
  refused CODE line N column N: RULE
Columns are from 1, in bytes. At most one of the two can be @in.

Examples:
  camac tell plan.toml readout.script
  camac tell @sample @in < readout.script";

pub const AFTER_RESPONSE: &str =
    "Prints a line for each service, in the order of their bits, or 'refused' with the
rule and the line (status 1):
  service NAME gl G cycles C every T start S end E longest L
  C  the most dataway cycles that the service takes
  T  the rate given by --every; 'once' without one: then the line holds if
     each such service up to its bit is called at most once while look-at-mes up
     to this bit are answered without a pause
  S  the most cycles from its look-at-me until it begins
  E  the most cycles from its look-at-me until it has ended
  L  within this many cycles all look-at-mes up to its bit are answered
A dash: there is no such number. With --within the line has 'end E of W', and the
status is 1 if E is above W, or a dash. It is 1, too, if lines 'unkept NAME line L:'
say that the script leaves a look-at-me up, clears or hides it: there are no numbers
from the bit of NAME on. At most one of the two files can be @in.

Examples:
  camac response plan.toml readout.script
  camac response plan.toml readout.script --every adc=200 --every tick=5000
  camac response plan.toml readout.script --every adc=200 --within adc=150";

pub const AFTER_RUN: &str = "Each answer is a line of 19 bytes, 'x q word wait gl':
  x     X of the reply, 0 or 1
  q     Q of the reply, 0 or 1
  word  the word that a read gives, six hexadecimal digits
  wait  cycles of auxiliary controllers before ours, one hexadecimal digit
  gl    the graded-L pattern of the crates, six hexadecimal digits
A demand uses only gl, a lock only wait. A cycle of a module uses all but gl; one
of a crate's controller uses wait, and gl if it reads or tests that.

The run is simulated: nothing is sent to any hardware. Status 0 at the end of
the answers; 1 if the script or an answer is refused, or a wait is not
permitted. At most one of the three inputs can be @in.

Examples:
  camac run plan.toml readout.script answers.txt run.events
  camac run @sample readout.script @in run.events < answers.txt";

pub const AFTER_DRIVE: &str =
    "Writes a request to standard output before it reads the answer from standard input:
  demand                   make a graded-L operation
  cycle C N A F in         make a dataway cycle that reads
  cycle C N A F out WORD   make one that writes the word, six hexadecimal digits
  cycle C N A F none       make one that moves no data
  lock C                   lock auxiliary controllers out of the crate
  unlock C                 let them in again: no answer is read for it
Answers are lines as for 'camac run'. At the end of the input, at a wait that is
not permitted and at a bad answer the last line says how the run ended. A run
that stops inside a lock writes no unlock: the driver releases what it holds.

Examples:
  camac drive plan.toml readout.script run.events
  camac drive @sample readout.script run.events";

pub const AFTER_EVENTS: &str =
    "Prints a line for each event with its words in hexadecimal, and their number;
or the first wrong field and its byte (status 1).

Examples:
  camac events run.events
  camac events @in < run.events";
