// What is told of each service of a script by the rows of its body, with what is told of each procedure before it.

ghost use Rattle.std.specs.Prelude.{◌≡◌, ◌++◌, [], IfOk, List, OnOk, map, slice_get, unwrap_or};
ghost use Rattle.camac_lang.specs.Tree.{Block};
ghost use Rattle.camac_lang.specs.View.{item_of, procedure_of, service_of, statements_of};
ghost use Rattle.camac_rules.specs.Accept.{sections};
ghost use Rattle.camac_check_costs.specs.Bodies.{sections_of};
ghost use Rattle.camac_check_rows.specs.declared.row.Row.{Row};
ghost use Rattle.camac_commands.specs.Commands.{told_over};

use camac_check_costs::BodyCosts;
use camac_check_rows::Row;
use camac_lang::{Item, Procedure, Service, Stmt};
use camac_rules::Checked;
use std::alloc::{AllocError, Global};

/// What is asked of a body.
pub trait Asked {
    type Answer: Copy;

    /// The answer, with those of the procedures before it, by their numbers.
    ghost told: { Self → List Self.Answer → Block → List Row → Self.Answer };

    /// The answer for a body by its rows.
    fn of_body(&self, called: &[Self::Answer], body: &[Stmt], rows: &[Row]) -> Self::Answer
        ensures { result ≡ told self.now called.now (statements_of body.now) rows.now };
}

/// The answer of each service, by these rows of the bodies. The error is want of memory.
pub fn told_over<Q: Asked>(
    alloc: Global,
    asked: &Q,
    checked: &Checked,
    costs: &[BodyCosts],
) -> Result<Vec<Q::Answer>, AllocError>
    ensures { IfOk result (λ v. v.items ≡ told_over (Q.told asked.now) [] (sections_of checked.now.script) costs.now) }
{
    let script = checked.script();
    let mut called = Vec::new(alloc);
    let mut served = Vec::new(alloc);
    push_bodies(
        asked,
        script.order(),
        script.procedures(),
        script.services(),
        costs,
        &mut called,
        &mut served,
    )?;
    Ok(served)
}

// Puts that of the services of these declarations at the end, after the procedures that are called so far.
fn push_bodies<Q: Asked>(
    asked: &Q,
    items: &[Item],
    procedures: &[Procedure],
    services: &[Service],
    costs: &[BodyCosts],
    called: &mut Vec<Q::Answer>,
    served: &mut Vec<Q::Answer>,
) -> Result<(), AllocError>
    ensures { OnOk result (served.new.items ≡ served.old.items ++ told_over (Q.told asked.now) called.old.items
        (sections (map item_of items.now) (map procedure_of procedures.now) (map service_of services.now)) costs.now) }
{
    match items {
        [] => Ok(()),
        [Item::Procedure, rest @ ..] => match procedures {
            [] => push_bodies(asked, rest, procedures, services, costs, called, served),
            [procedure, others @ ..] => match costs {
                [] => Ok(()),
                [body, more @ ..] => {
                    let told = asked.of_body(called, &procedure.body, body.rows());
                    called.push(told)?;
                    push_bodies(asked, rest, others, services, more, called, served)
                }
            },
        },
        [Item::Service, rest @ ..] => match services {
            [] => push_bodies(asked, rest, procedures, services, costs, called, served),
            [service, others @ ..] => match costs {
                [] => Ok(()),
                [body, more @ ..] => {
                    let told = asked.of_body(called, &service.body, body.rows());
                    served.push(told)?;
                    push_bodies(asked, rest, procedures, others, more, called, served)
                }
            },
        },
        [_, rest @ ..] => push_bodies(asked, rest, procedures, services, costs, called, served),
    }
}

/// That of the body of this number.
pub fn told_at<A: Copy>(told: &[A], number: usize, otherwise: A) -> A
    ensures { result ≡ unwrap_or (slice_get told.now number) otherwise }
{
    match told.get(number) {
        Some(answer) => *answer,
        None => otherwise,
    }
}
