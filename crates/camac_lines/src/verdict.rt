// The lines of a verdict.

ghost use Rattle.std.specs.Prelude.{◌≡◌, ◌<◌, ◌≤◌, ◌||◌, ◌++◌, length, is_err, slice_get, Some, map};
ghost use Rattle.camac_branch.specs.Plan.{Layout};
ghost use Rattle.camac_model.specs.Fine.{Bounds as BoundsFound};
ghost use Rattle.camac_lang.specs.Tree.{Service as ServiceTree};
ghost use Rattle.camac_lang.specs.View.{lam_of, service_of};
ghost use Rattle.camac_names.specs.Link.{service_bit};
ghost use Rattle.camac_lines.specs.Verdict.{lam_name, service_line, service_text, verdict_text};
ghost use Rattle.camac_word.specs.Watched.{inner_of, has_failed};
ghost use Rattle.camac_word.specs.Writing.{Writes};

use crate::line::Line;
use camac_lang::{Lam, Service};
use camac_rules::{Bounds, Checked};
use camac_word::{GlBit, Watched, WriteFault};
use std::io::Write;

/// Writes the verdict on a script that was accepted: a line `accepted`, and of each service in text order a line of its name, its GL
/// bit, and its bounds beside the numbers of its heading. After a write fault a prefix of this was written.
pub fn write_verdict<W: Write>(out: &mut Watched<W>, checked: &Checked) -> Result<(), WriteFault>
    ensures text { Writes (W.contents (inner_of out.old)) (W.contents (inner_of out.new)) result
        (verdict_text checked.now.plan checked.now.script checked.now.bounds) }
    ensures failed { has_failed out.new ≡ (has_failed out.old || is_err result) }
{
    out.write_text(b"accepted\n")?;
    'services: for i in 0..checked.services() {
        out.write_text(line_of_service(checked, i).as_bytes())?;
    }
    Ok(())
}

fn line_of_service(checked: &Checked, i: usize) -> Line
    requires { i < length checked.now.script.services }
    ensures { (v : ServiceTree) (k : BoundsFound) → slice_get checked.now.script.services i ≡ Some v → slice_get checked.now.bounds i ≡ Some k
        → result ≡ service_text checked.now.plan checked.now.script.lams v k }
{
    let script = checked.script();
    let service = &script.services()[i];
    let name = lam_name(script.lams(), service.lam);
    laid_out(name, checked.gl(i), service, checked.bounds(i))
}

/// The name of a LAM by its number, nothing where there is none.
pub fn lam_name(lams: &[Lam], lam: usize) -> &[u8]
    ensures name { result.now ≡ lam_name (map lam_of lams.now) lam }
    ensures short { length result.now ≤ 32 }
{
    match lams.get(lam) {
        Some(lam) => lam.name.as_bytes(),
        None => &[],
    }
}

fn laid_out(name: &[u8], bit: GlBit, service: &Service, bounds: Bounds) -> Line
    requires { length name.now ≤ 32 }
    ensures { result ≡ service_line name.now bit (service_of service.now) bounds }
{
    let mut line = Line::new();
    line.push_str("service ");
    line.push_bytes(name);
    line.push_str(" gl ");
    line.push_number(bit.get());
    line.push_str(" cycles ");
    line.push_number(bounds.cycles);
    line.push_str(" of ");
    line.push_number(service.cycles);
    line.push_str(" words ");
    line.push_number(bounds.words);
    line.push_str(" of ");
    line.push_number(service.words);
    line.push_str(" steps ");
    line.push_number(bounds.steps);
    line.push_str("\n");
    line
}
