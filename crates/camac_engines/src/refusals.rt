// All that is refused of a script for a plan.

ghost use Rattle.std.specs.Prelude.{◌≡◌, ◌++◌, IfOk, OnOk, flat_map};
ghost use Rattle.std.specs.List.{list_any};
ghost use Rattle.camac_engines.specs.Refusals.{also_line, check_finding, column_from_one, findings_of, further_finding, is_missing, is_told_by, link_finding, placed_refusal, same_place};

use camac_branch::Plan;
use camac_check::{CheckFault, refusals};
use camac_explain::{Finding, column_of};
use camac_lang::{Script, Spot};
use camac_lines::{Line, refusal_line, refusal_line_at};
use camac_names::{LinkCase, LinkFault, LinkRule, link_faults};
use std::alloc::{AllocError, Global};

/// All that is refused of a script, in text order: by linking, or else by the checker.
pub fn findings_of(alloc: Global, script: &Script, plan: &Plan) -> Result<Vec<Finding>, AllocError>
    ensures { IfOk result (λ v. v.items ≡ findings_of plan.now script.now) }
{
    let faults = link_faults(alloc, script, plan)?;
    match faults.as_slice() {
        [] => {
            let faults = refusals(alloc, script, plan)?;
            check_findings(alloc, &faults)
        }
        [first, further @ ..] => link_findings(alloc, &faults, first, further),
    }
}

// The first of these faults, and of those after it each that no fault of a LAM tells already.
fn link_findings(
    alloc: Global,
    faults: &[LinkFault],
    first: &LinkFault,
    further: &[LinkFault],
) -> Result<Vec<Finding>, AllocError>
    ensures { IfOk result (λ v. v.items ≡ link_finding first.now ++ flat_map (further_finding faults.now) further.now) }
{
    let mut findings = Vec::new(alloc);
    push_link(&mut findings, first)?;
    'faults: for fault in further {
        if !is_told_by(faults, fault) {
            push_link(&mut findings, fault)?;
        }
    }
    Ok(findings)
}

fn push_link(findings: &mut Vec<Finding>, fault: &LinkFault) -> Result<(), AllocError>
    ensures { OnOk result (findings.new.items ≡ findings.old.items ++ link_finding fault.now) }
{
    if let LinkFault::Broken { rule, spot, case } = *fault {
        findings.push(Finding::Link { rule, spot, case })?;
    }
    Ok(())
}

// Whether a service has no bit since its LAM's station has no module, which the LAM's own fault says.
fn is_told_by(faults: &[LinkFault], fault: &LinkFault) -> bool
    ensures { result ≡ is_told_by faults.now fault.now }
{
    match *fault {
        LinkFault::Broken {
            rule: LinkRule::StationWithoutBit,
            case,
            ..
        } => has_missing(faults, case),
        _ => false,
    }
}

fn has_missing(faults: &[LinkFault], place: LinkCase) -> bool
    ensures { result ≡ list_any (is_missing place) faults.now }
{
    let [fault, rest @ ..] = faults else {
        return false;
    };
    is_missing(place, fault) || has_missing(rest, place)
}

fn is_missing(place: LinkCase, fault: &LinkFault) -> bool
    ensures { result ≡ is_missing place fault.now }
{
    match *fault {
        LinkFault::Broken {
            rule: LinkRule::LamNotInstalled,
            case,
            ..
        } => is_same_place(place, case),
        _ => false,
    }
}

fn is_same_place(place: LinkCase, other: LinkCase) -> bool
    ensures { result ≡ same_place place other }
{
    match (place, other) {
        (
            LinkCase::Place { crate_no, station },
            LinkCase::Place {
                crate_no: c,
                station: n,
            },
        ) => { crate_no == c && station == n }
        _ => false,
    }
}

fn check_findings(alloc: Global, faults: &[CheckFault]) -> Result<Vec<Finding>, AllocError>
    ensures { IfOk result (λ v. v.items ≡ flat_map check_finding faults.now) }
{
    let mut findings = Vec::new(alloc);
    'faults: for fault in faults {
        if let CheckFault::Broken { rule, spot, case } = *fault {
            findings.push(Finding::Check { rule, spot, case })?;
        }
    }
    Ok(findings)
}

/// Puts a line at the end for each of these findings in a script's text.
pub fn push_also(lines: &mut Vec<u8>, text: &[u8], findings: &[Finding]) -> Result<(), AllocError>
    ensures { OnOk result (lines.new.items ≡ lines.old.items ++ flat_map (also_line text.now) findings.now) }
{
    'findings: for finding in findings {
        lines.extend_from_slice(b"also ")?;
        lines.extend_from_slice(placed_refusal(text, *finding).as_bytes())?;
    }
    Ok(())
}

/// The line of a refusal, with the column of its spot.
pub fn placed_refusal(text: &[u8], finding: Finding) -> Line
    ensures { result ≡ placed_refusal text.now finding }
{
    match finding {
        Finding::Plan(_) => refusal_line(finding.refusal()),
        Finding::Text { spot, .. } | Finding::Link { spot, .. } | Finding::Check { spot, .. } => {
            refusal_line_at(finding.refusal(), column_from_one(text, spot))
        }
    }
}

fn column_from_one(text: &[u8], spot: Spot) -> usize
    ensures { result ≡ column_from_one text.now spot }
{
    column_of(text, spot).saturating_add(1)
}
