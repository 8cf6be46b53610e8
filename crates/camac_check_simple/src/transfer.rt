// The rules of transfers.

ghost use Rattle.std.specs.Prelude.{◌≡◌, ◌≤◌, ◌&&◌, IfOk, map};
ghost use Rattle.camac_lang.specs.View.{expression_of, table_of};
ghost use Rattle.camac_rules.specs.Cases.{crates_of};
ghost use Rattle.camac_rules.specs.Refusal.{required};
ghost use Rattle.camac_rules.specs.declared.case.Case.TheVariants.{Width};
ghost use Rattle.camac_rules.specs.declared.rule.CheckRule.TheVariants.{StationNotInstalled, CommandNotDeclared, ValueTooWide};
ghost use Rattle.camac_rules.specs.Transfers.{has_sub_addresses, past_sub_addresses, undeclared_by, words_fit, words_sent, greatest_of, scan_verdict, scan_rule, block_class, event_words, block_region, block_verdict, q_stop_rule, q_repeat_cycles, q_repeat_rule};
ghost use Rattle.camac_rules.specs.Windows.{window_of, is_installed, missing_over, is_declared};
ghost use Rattle.camac_check_simple.specs.Gives.{Gives, by_code, leaving};

use crate::context::Place;
use crate::cycle::{addresses_of, may_write, moves};
use crate::table::{count_sent, greatest_sent, has_words, words_fit};
use crate::window::{Window, has_sub_addresses, is_one_crate};
use camac_branch::Plan;
use camac_check_known::{
    CheckFault, Costs, Facts, Region, between, command_widths, cycle_cost, numbers_of, range_of,
    required,
};
use camac_func::FunctionClass;
use camac_lang::{AddressScan, BlockTransfer, Expr, Spot, Table};
use camac_range::Range;
use camac_rules::{Case, CheckRule};
use camac_word::Function;
use std::alloc::AllocError;

/// Checks an address scan between two registers.
#[tactic(auto, unfolding(camac_rules::specs::Refusal::go_on))]
pub fn scan(place: &Place, transfer: &AddressScan, known: &mut Facts) -> Result<Costs, CheckFault>
    ensures { Gives (leaving known.new) result (scan_rule (by_code place.now.context.now) place.now.around.now transfer.now.spot transfer.now.function transfer.now.first transfer.now.last (expression_of transfer.now.max) transfer.now.tally known.old) }
{
    let spot = transfer.spot;
    let f = transfer.function;
    let most = range_of(spot, &transfer.max, known.ranges())?;
    may_write(place.around, transfer.tally, spot)?;
    let g = addresses_of(place.around, known, transfer.first, spot)?;
    let h = addresses_of(place.around, known, transfer.last, spot)?;
    required(
        is_one_crate(g, h),
        CheckRule::ScanCratesDiffer,
        spot,
        crates_of(g, h),
    )?;
    installed(place.context.plan, g, h, spot)?;
    declared(place.context.plan, f, g, h, spot)?;
    moves(f, FunctionClass::Read, spot)?;
    Ok(scan_findings(place, g, h, most.hi(), transfer.tally, known)?)
}

// The crates of two registers.
fn crates_of(g: Region, h: Region) -> Case
    ensures { result ≡ crates_of g.crates h.crates }
{
    Case::Crates {
        first: numbers_of(g.crates()),
        last: numbers_of(h.crates()),
    }
}

// E1 where a station between two registers is not installed.
#[tactic(auto, unfolding(camac_rules::specs::Refusal::required))]
fn installed(plan: &Plan, g: Region, h: Region, spot: Spot) -> Result<(), CheckFault>
    ensures { Gives (λ u. tt) result (required (is_installed plan.now (window_of g h)) StationNotInstalled spot (missing_over plan.now (window_of g h))) }
{
    let window = Window::between(g, h);
    if window.is_installed(plan) {
        return Ok(());
    }
    let case = window.missing(plan);
    Err(CheckFault::broken(CheckRule::StationNotInstalled, spot, case))
}

// E2 where an address between two registers has not the command.
#[tactic(auto, unfolding(camac_rules::specs::Refusal::required))]
fn declared(plan: &Plan, f: Function, g: Region, h: Region, spot: Spot) -> Result<(), CheckFault>
    ensures { Gives (λ u. tt) result (required (has_sub_addresses g && (has_sub_addresses h && is_declared plan.now f (window_of g h))) CommandNotDeclared spot (undeclared_by plan.now f g h)) }
{
    if is_declared(plan, f, g, h) {
        return Ok(());
    }
    let case = undeclared_by(plan, f, g, h);
    Err(CheckFault::broken(CheckRule::CommandNotDeclared, spot, case))
}

// The first address between two registers that has not the command.
fn undeclared_by(plan: &Plan, f: Function, g: Region, h: Region) -> Case
    ensures { result ≡ undeclared_by plan.now f g h }
{
    if !has_sub_addresses(g) {
        return past_sub_addresses(f, g);
    }
    if !has_sub_addresses(h) {
        return past_sub_addresses(f, h);
    }
    Window::between(g, h).undeclared(plan, f)
}

// The first address of a register past the last sub-address.
fn past_sub_addresses(f: Function, g: Region) -> Case
    ensures { result ≡ past_sub_addresses f g }
{
    Case::NoCommand {
        function: f.get(),
        crate_no: g.crates().lo(),
        station: g.stations().lo(),
        sub_address: g.sub_addresses().lo().max(16),
    }
}

// Whether a command is declared all over the window between two registers.
fn is_declared(plan: &Plan, f: Function, g: Region, h: Region) -> bool
    ensures { result ≡ (has_sub_addresses g && (has_sub_addresses h && is_declared plan.now f (window_of g h))) }
{
    has_sub_addresses(g) && has_sub_addresses(h) && Window::between(g, h).is_declared(plan, f)
}

// What a scan of at most so many words between two registers leaves and costs.
fn scan_findings(
    place: &Place,
    g: Region,
    h: Region,
    most: u32,
    tally: usize,
    known: &mut Facts,
) -> Result<Costs, AllocError>
    ensures { IfOk result (λ c. leaving known.new c ≡ scan_verdict (by_code place.now.context.now) place.now.around.now (window_of g h) most tally known.old) }
{
    let window = Window::between(g, h);
    let kept = window.kept(most);
    let each = cycle_cost(
        place.context.plan,
        place.around,
        Range::only(window.crate_no()),
    );
    known.put_range(tally, between(0, kept))?;
    Ok(Costs::of_transfer(window.cycles(most), each, u64::from(kept)))
}

/// Checks a block transfer up to the first Q=0.
#[tactic(auto, unfolding(camac_rules::specs::Refusal::go_on))]
pub fn q_stop(
    place: &Place,
    transfer: &BlockTransfer,
    known: &mut Facts,
) -> Result<Costs, CheckFault>
    ensures { Gives (leaving known.new) result (q_stop_rule (by_code place.now.context.now) place.now.around.now transfer.now.spot transfer.now.function transfer.now.register transfer.now.table (expression_of transfer.now.max) transfer.now.tally known.old) }
{
    let most = range_of(transfer.spot, &transfer.max, known.ranges())?.hi();
    let g = block_region(place, transfer, most, known)?;
    Ok(block_findings(place, transfer, most, most, g, known)?)
}

/// Checks a block transfer that repeats cycles with Q=0.
#[tactic(auto, unfolding(camac_rules::specs::Refusal::go_on))]
pub fn q_repeat(
    place: &Place,
    transfer: &BlockTransfer,
    limit: &Expr,
    known: &mut Facts,
) -> Result<Costs, CheckFault>
    ensures { Gives (leaving known.new) result (q_repeat_rule (by_code place.now.context.now) place.now.around.now transfer.now.spot transfer.now.function transfer.now.register transfer.now.table (expression_of transfer.now.max) (expression_of limit.now) transfer.now.tally known.old) }
{
    let most = range_of(transfer.spot, &transfer.max, known.ranges())?.hi();
    let cycles = range_of(transfer.spot, limit, known.ranges())?.hi();
    let g = block_region(place, transfer, most, known)?;
    let kept = most.min(cycles);
    Ok(block_findings(
        place,
        transfer,
        q_repeat_cycles(most, cycles),
        kept,
        g,
        known,
    )?)
}

fn q_repeat_cycles(most: u32, limit: u32) -> u32
    ensures { result ≡ q_repeat_cycles most limit }
{
    if most == 0 { 0 } else { limit }
}

// The addresses of a block transfer of at most so many words.
#[tactic(auto, unfolding(camac_rules::specs::Refusal::go_on))]
fn block_region(
    place: &Place,
    transfer: &BlockTransfer,
    most: u32,
    known: &Facts,
) -> Result<Region, CheckFault>
    ensures { Gives (λ g. g) result (block_region (by_code place.now.context.now) place.now.around.now transfer.now.spot transfer.now.function transfer.now.register transfer.now.table most transfer.now.tally known.now) }
{
    let spot = transfer.spot;
    let tables = place.context.tables;
    may_write(place.around, transfer.tally, spot)?;
    let g = addresses_of(place.around, known, transfer.register, spot)?;
    let widths = command_widths(place.context.plan, spot, transfer.function, g)?;
    moves(transfer.function, block_class(transfer.table), spot)?;
    required(
        has_words(tables, transfer.table, most),
        CheckRule::CountAboveTable,
        spot,
        Case::Count {
            count: most,
            words: count_sent(tables, transfer.table),
        },
    )?;
    words_fit_at(tables, transfer.table, widths.lo(), spot)?;
    Ok(g)
}

// E5 where a word of the table is too wide.
#[tactic(auto, unfolding(camac_rules::specs::Refusal::required))]
fn words_fit_at(
    tables: &[Table],
    table: Option<usize>,
    width: u32,
    spot: Spot,
) -> Result<(), CheckFault>
    requires { width ≤ 24 }
    ensures { Gives (λ u. tt) result (required (words_fit (map (λ t. t.words) (map table_of tables.now)) table width) ValueTooWide spot (Width (greatest_of (words_sent (map (λ t. t.words) (map table_of tables.now)) table)) width)) }
{
    if words_fit(tables, table, width) {
        return Ok(());
    }
    Err(CheckFault::broken(
        CheckRule::ValueTooWide,
        spot,
        Case::Width {
            greatest: greatest_sent(tables, table),
            bits: width,
        },
    ))
}

// A block transfer writes where it names a table, else it reads.
fn block_class(table: Option<usize>) -> FunctionClass
    ensures { result ≡ block_class table }
{
    match table {
        None => FunctionClass::Read,
        Some(_) => FunctionClass::Write,
    }
}

// What a block transfer of at most so many cycles, that keeps at most so many words, leaves and costs.
fn block_findings(
    place: &Place,
    transfer: &BlockTransfer,
    cycles: u32,
    kept: u32,
    g: Region,
    known: &mut Facts,
) -> Result<Costs, AllocError>
    ensures { IfOk result (λ c. leaving known.new c ≡ block_verdict (by_code place.now.context.now) place.now.around.now transfer.now.table cycles kept transfer.now.tally g known.old) }
{
    let each = cycle_cost(place.context.plan, place.around, g.crates());
    let words = event_words(transfer.table, kept);
    known.put_range(transfer.tally, between(0, kept))?;
    Ok(Costs::of_transfer(u64::from(cycles), each, words))
}

// A read puts what it keeps into the event.
fn event_words(table: Option<usize>, kept: u32) -> u64
    ensures { result ≡ event_words table kept }
{
    match table {
        None => u64::from(kept),
        Some(_) => 0,
    }
}
