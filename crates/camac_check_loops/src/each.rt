// How a `for` with `each` begins.

ghost use Rattle.std.specs.Prelude.{◌≡◌, ◌+◌, ◌-◌, IfOk};
ghost use Rattle.camac_check_known.specs.Gives.{Gives};
ghost use Rattle.camac_rules.specs.Each.{each_begins};

use camac_check_known::{Around, CheckFault, required};
use camac_lang::{Spot, limits};
use camac_rules::{Case, CheckRule};

/// The variable of a `for` with `each`, and the numbers from which and up to which it counts.
#[derive(Clone, Copy)]
pub struct EachHead {
    pub spot: Spot,
    pub variable: usize,
    pub first: u32,
    pub last: u32,
}

/// How many turns a `for` with `each` has, if it may begin. E17 and E10, in this order. There is no E4, since its numbers are of 32 bits.
#[tactic(auto, using(crate::proofs::Counts::numbers_fit), unfolding(camac_rules::specs::Refusal::go_on, camac_rules::specs::Refusal::required))]
pub fn each_begins(around: &Around, head: EachHead) -> Result<u32, CheckFault>
    ensures rule { Gives (λ n. n) result (each_begins around.now head.spot head.variable head.first head.last) }
    ensures turns { IfOk result (λ n. n ≡ head.last + 1 - head.first) }
{
    let spot = head.spot;
    let case = Case::Counted {
        body: around.body(),
        variable: head.variable,
    };
    let may = around.may_write(head.variable);
    required(may, CheckRule::LoopVariableAssigned, spot, case)?;
    let needed = (u64::from(head.last) + 1).saturating_sub(u64::from(head.first));
    let allowed = limits::TURNS;
    let few = needed <= u64::from(allowed);
    required(
        few,
        CheckRule::TooManyTurns,
        spot,
        Case::Turns { needed, allowed },
    )?;
    Ok(needed as u32)
}
