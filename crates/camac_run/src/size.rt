// Of how many bits the words are that a cycle moves.

ghost use Rattle.std.specs.Prelude.{◌≡◌};
ghost use Rattle.camac_lang.specs.View.{action_of, statement_of};
ghost use Rattle.camac_run.specs.Size.{size_of};

use camac_lang::{Action, Stmt, WordSize};

/// That of a statement's cycle.
pub fn size_of(statement: &Stmt) -> WordSize
    ensures { result ≡ size_of (statement_of statement.now) }
{
    match statement {
        Stmt::Action(action) => size_of_action(action),
        _ => WordSize::Full,
    }
}

/// That of an action's.
pub fn size_of_action(action: &Action) -> WordSize
    ensures { result ≡ size_of (action_of action.now) }
{
    match action {
        Action::Single(single) => single.size,
        _ => WordSize::Full,
    }
}
