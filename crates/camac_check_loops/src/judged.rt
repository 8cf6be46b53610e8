// How much the `each` loops of a body judge. All is read from the text.

ghost use Rattle.std.specs.Prelude.{◌≡◌, ◌-◌, ◌^◌, ℕ, min};
ghost use Rattle.camac_check_known.specs.Gives.{Gives};
ghost use Rattle.camac_lang.specs.View.{statement_of, statements_of};
ghost use Rattle.camac_rules.specs.EachLimit.{judged, block_judged, count, count_block};
ghost use Rattle.camac_check_loops.specs.Counting.{counted};

use camac_check_known::CheckFault;
use camac_lang::{Spot, Stmt};
use camac_rules::{Body, Case, CheckRule};

/// The most that the `each` loops of a procedure or service may judge.
const JUDGED: u32 = 65_536;

/// Counts on over the outermost `each` loops of a block. E10 at the first that passes the limit.
#[cycle(count)]
#[tactic(auto, unfolding(camac_rules::specs::Refusal::go_on))]
pub fn count_block(place: Body, block: &[Stmt], before: u64) -> Result<u64, CheckFault>
    ensures { Gives (λ n. n) result (count_block place (statements_of block.now) before) }
{
    let mut sum = before;
    'statements: for statement in block {
        sum = count(place, statement, sum)?;
    }
    Ok(sum)
}

#[cycle(count)]
#[tactic(auto, unfolding(camac_rules::specs::Refusal::go_on))]
fn count(place: Body, statement: &Stmt, before: u64) -> Result<u64, CheckFault>
    ensures { Gives (λ n. n) result (count place (statement_of statement.now) before) }
{
    match statement {
        Stmt::ForEach {
            spot,
            first,
            last,
            body,
            ..
        } => {
            let turns = (u64::from(*last) + 1).saturating_sub(u64::from(*first));
            let all = turns.saturating_mul(block_judged(body).saturating_add(1));
            within_limit(place, *spot, before.saturating_add(all))
        }
        Stmt::If { then, .. } => count_block(place, then, before),
        Stmt::IfElse {
            then,
            otherwise,
            ..
        } => {
            let sum = count_block(place, then, before)?;
            count_block(place, otherwise, sum)
        }
        Stmt::For { body, .. } | Stmt::While { body, .. } | Stmt::Lock { body, .. } => {
            count_block(place, body, before)
        }
        Stmt::Action(_) => Ok(before),
    }
}

// E10 at this spot where so much is judged up to here, 2^64 - 1 where it is more.
fn within_limit(place: Body, spot: Spot, needed: u64) -> Result<u64, CheckFault>
    ensures { (n : ℕ) → needed ≡ min n (2 ^ 64 - 1) → Gives (λ m. m) result (counted place spot n) }
{
    if needed <= u64::from(JUDGED) {
        return Ok(needed);
    }
    let case = Case::Judged {
        body: place,
        needed,
        allowed: JUDGED,
    };
    Err(CheckFault::broken(CheckRule::TooManyTurns, spot, case))
}

// What is judged where a block is judged once, 2^64 - 1 where it is more.
#[cycle(judged)]
fn block_judged(block: &[Stmt]) -> u64
    ensures { result ≡ min (block_judged (statements_of block.now)) (2 ^ 64 - 1) }
{
    let mut sum = 0_u64;
    'statements: for statement in block {
        sum = sum.saturating_add(judged(statement));
    }
    sum
}

#[cycle(judged)]
fn judged(statement: &Stmt) -> u64
    ensures { result ≡ min (judged (statement_of statement.now)) (2 ^ 64 - 1) }
{
    match statement {
        Stmt::ForEach {
            first,
            last,
            body,
            ..
        } => {
            let turns = (u64::from(*last) + 1).saturating_sub(u64::from(*first));
            turns
                .saturating_mul(block_judged(body).saturating_add(1))
                .saturating_add(1)
        }
        Stmt::If { then, .. } => block_judged(then).saturating_add(1),
        Stmt::IfElse {
            then,
            otherwise,
            ..
        } => block_judged(then)
            .saturating_add(block_judged(otherwise))
            .saturating_add(1),
        Stmt::For { body, .. } | Stmt::While { body, .. } | Stmt::Lock { body, .. } => {
            block_judged(body).saturating_add(1)
        }
        Stmt::Action(_) => 1,
    }
}
