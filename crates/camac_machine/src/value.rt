// The value of an expression.

ghost use Rattle.std.specs.Prelude.{◌≡◌, length, true, Some, IsSome};
ghost use Rattle.camac_lang.specs.Expressions.{refers};
ghost use Rattle.camac_lang.specs.View.{expression_of, term_of};
ghost use Rattle.camac_model.specs.Value.{value};
ghost use Rattle.camac_machine.specs.Store.{variables_in};

use camac_lang::{Expr, Form, Term};

/// The value of an expression that has one.
#[inline(always)]
pub fn value_of(e: &Expr, variables: &[u32]) -> u32
    requires declared { refers (length variables.now) (expression_of e.now) ≡ true }
    requires has_value { IsSome (value (expression_of e.now) (variables_in variables.now)) }
    ensures { value (expression_of e.now) (variables_in variables.now) ≡ Some result }
{
    value_in(e.term(), variables)
}

// A number or a variable takes no call.
#[cycle(value_in)]
#[inline(always)]
fn value_in(e: Term<'_>, variables: &[u32]) -> u32
    requires declared { refers (length variables.now) (term_of e) ≡ true }
    requires has_value { IsSome (value (term_of e) (variables_in variables.now)) }
    ensures { value (term_of e.entry) (variables_in variables.now) ≡ Some result }
{
    match e.form() {
        Form::Number(n) => n,
        Form::Variable(x) => variables[x],
        _ => computed(e, variables),
    }
}

// The value by way of its operands.
#[cycle(value_in)]
fn computed(e: Term<'_>, variables: &[u32]) -> u32
    requires declared { refers (length variables.now) (term_of e) ≡ true }
    requires has_value { IsSome (value (term_of e) (variables_in variables.now)) }
    ensures { value (term_of e.entry) (variables_in variables.now) ≡ Some result }
{
    match e.form() {
        Form::Number(n) => n,
        Form::Variable(x) => variables[x],
        Form::Group(e) => value_in(e, variables),
        Form::Add(a, b) => value_in(a, variables) + value_in(b, variables),
        Form::Subtract(a, b) => value_in(a, variables) - value_in(b, variables),
        Form::Multiply(a, b) => value_in(a, variables) * value_in(b, variables),
        Form::Divide(e, divisor) => value_in(e, variables) / divisor.get(),
        Form::Remainder(e, divisor) => value_in(e, variables) % divisor.get(),
    }
}
