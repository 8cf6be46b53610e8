// What statements may refer to.

ghost use Rattle.std.specs.Prelude.{◌≡◌, ◌≤◌, length, map};
ghost use Rattle.camac_lang.specs.View.{procedure_of};
ghost use Rattle.camac_rules.specs.Capped.{capped};
ghost use Rattle.camac_check_simple.specs.Gives.{by_code, by_rules, code_before, rules_before, whole_of};

use camac_branch::Plan;
use camac_check_known::Around;
use camac_lang::{Lam, Procedure, Script, Table};

/// The plan, and the tables, the LAMs and the procedures before of the script, which statements name by their numbers.
#[derive(Clone, Copy)]
pub struct Context<'a> {
    pub plan: &'a Plan,
    pub tables: &'a [Table],
    pub lams: &'a [Lam],
    pub procedures: &'a [Procedure],
}

impl<'a> Context<'a> {
    /// All that a script declares.
    pub fn of(plan: &'a Plan, script: &'a Script) -> Self
        ensures rules { by_rules result ≡ whole_of (λ k. k) plan.now script.now }
        ensures code { by_code result ≡ whole_of capped plan.now script.now }
        ensures procedures { map procedure_of result.procedures.now ≡ script.now.procedures }
    {
        Context {
            plan,
            tables: script.tables(),
            lams: script.lams(),
            procedures: script.procedures(),
        }
    }

    /// What a body may refer to that stands after so many of the procedures.
    pub fn after(&self, procedures: usize) -> Self
        requires { procedures ≤ length self.now.procedures.now }
        ensures rules { by_rules result ≡ rules_before self.now procedures }
        ensures code { by_code result ≡ code_before self.now procedures }
    {
        Context {
            procedures: &self.procedures[..procedures],
            ..*self
        }
    }
}

/// Where a statement stands: what it may refer to, and what stands around it.
#[derive(Clone, Copy)]
pub struct Place<'a> {
    pub context: &'a Context<'a>,
    pub around: &'a Around,
}
