// The last line of a run.

ghost use Rattle.std.specs.Prelude.{◌≡◌, ◌≤◌, ◌+◌, ◌++◌, length, codes, decimal};
ghost use Rattle.camac_report.specs.Items.{end_text};
ghost use Rattle.camac_run.specs.Ends.{stop_in};

use camac_branch::Overrun;
use camac_lines::Line;
use camac_run::End;

/// The last line of a run: how it ended, and how many events it left.
pub fn end_line(end: End, events: u32) -> Line
    ensures { result ≡ end_text (stop_in end) events }
{
    let mut line = Line::new();
    match end {
        End::Ended => line.push_str("ended "),
        End::Short => line.push_str("short "),
        End::Overrun(overrun) => push_overrun(&mut line, overrun),
    }
    line.push_str("events ");
    line.push_number(events);
    line.push_str("\n");
    line
}

// The crate that took too long, and its wait.
fn push_overrun(line: &mut Line, overrun: Overrun)
    requires { length line.old ≤ 40 }
    ensures text { line.new ≡ line.old ++ codes "overrun " ++ decimal overrun.c ++ codes " wait " ++ decimal overrun.wait ++ codes " " }
    ensures short { length line.new ≤ length line.old + 40 }
{
    line.push_str("overrun ");
    line.push_number(overrun.c.get());
    line.push_str(" wait ");
    line.push_number(overrun.wait);
    line.push_str(" ");
}
