// The lines of a live run.

ghost use Rattle.std.specs.Prelude.{◌≡◌, ◌≤◌, ◌+◌, ◌++◌, length};
ghost use Rattle.camac_branch.specs.Address.{address};
ghost use Rattle.camac_report.specs.Items.{unlock_texts, asked_text, request_text};

use crate::item::unlocks_in;
use camac_branch::Command;
use camac_func::DataMove;
use camac_lines::{LONGEST_LINE, Line};
use camac_run::Wanted;
use camac_word::CrateNo;

/// The request for an operation: `demand`, `cycle` with its command and what it moves, or `lock` with its crate.
pub fn request_line(wanted: Wanted) -> Line
    ensures { result ≡ request_text wanted }
{
    let mut line = Line::new();
    push_request(&mut line, wanted);
    line
}

/// A line `unlock` for each crate, at most seven, whose lockout is released, all in one text.
pub fn unlocks_line(unlocks: &[CrateNo]) -> Line
    requires { length unlocks.now ≤ 7 }
    ensures { result ≡ unlock_texts unlocks.now }
{
    let mut bytes = [0; LONGEST_LINE];
    let end = unlocks_in(&mut bytes, 0, unlocks);
    let mut lines = Line::new();
    lines.push_bytes(&bytes[..end]);
    lines
}

fn push_request(line: &mut Line, wanted: Wanted)
    requires room { length line.old ≤ 40 }
    ensures { line.new ≡ line.old ++ request_text wanted }
{
    match wanted {
        Wanted::Demand => line.push_str("demand\n"),
        Wanted::Cycle(command) => {
            line.push_command(&command);
            push_asked(line, command.mv);
            line.push_str("\n");
        }
        Wanted::Lock(c) => {
            line.push_str("lock ");
            line.push_small(c.get() as u8);
            line.push_str("\n");
        }
    }
}

// Puts what a cycle moves at the end.
fn push_asked(line: &mut Line, moves: DataMove)
    requires { length line.old ≤ 100 }
    ensures text { line.new ≡ line.old ++ asked_text moves }
    ensures short { length line.new ≤ length line.old + 10 }
{
    match moves {
        DataMove::In => line.push_str("in"),
        DataMove::Out(word) => {
            line.push_str("out ");
            line.push_word(word);
        }
        DataMove::None => line.push_str("none"),
    }
}
