// The blocks that statements surely make.

ghost use Rattle.std.specs.Prelude.{◌≡◌, [], IfSome, is_some, nat_eq};
ghost use Rattle.camac_lang.specs.View.{q_repeat_of, q_stop_of, scan_of};
ghost use Rattle.camac_model.specs.Meaning.{Context};
ghost use Rattle.camac_run.specs.Sure.{MakesBlock};
ghost use Rattle.camac_run.specs.Transfer.{IsBegun, left_by, next_by};

use crate::sure::{at_place, command_at, note, value_of};
use crate::transfer::{ReadBlock, TransferMode, is_by, window};
use camac_esone::Address;
use camac_func::DataMove;
use camac_lang::{AddressScan, BlockTransfer, Expr};
use camac_word::Function;

/// `cfmad`.
pub fn scan_block(
    scan: &AddressScan,
    variables: &mut [Option<u32>],
    registers: &[Option<Address>],
) -> Option<ReadBlock>
    ensures { IfSome result (λ b. (c : Context) → MakesBlock c variables.old registers.now (scan_of scan.now) (left_by b) variables.new) }
{
    let first = at_place(registers, scan.first)?;
    let last = at_place(registers, scan.last)?;
    let max = value_of(&scan.max, variables)?;
    if !is_same_crate(&first, &last) {
        return None;
    }
    note(variables, scan.tally, None);
    let cycles = window(&first, &last);
    begun(TransferMode::Scan, first, last, scan.function, cycles, max)
}

/// `cfubc`.
pub fn q_stop_block(
    block: &BlockTransfer,
    variables: &mut [Option<u32>],
    registers: &[Option<Address>],
) -> Option<ReadBlock>
    ensures { IfSome result (λ b. (c : Context) → MakesBlock c variables.old registers.now (q_stop_of block.now) (left_by b) variables.new) }
{
    if block.table.is_some() {
        return None;
    }
    let at = at_place(registers, block.register)?;
    let max = value_of(&block.max, variables)?;
    note(variables, block.tally, None);
    begun(TransferMode::QStop, at, at, block.function, max, max)
}

/// `cfubr`.
pub fn q_repeat_block(
    block: &BlockTransfer,
    limit: &Expr,
    variables: &mut [Option<u32>],
    registers: &[Option<Address>],
) -> Option<ReadBlock>
    ensures { IfSome result (λ b. (c : Context) → MakesBlock c variables.old registers.now (q_repeat_of block.now limit.now) (left_by b) variables.new) }
{
    if block.table.is_some() {
        return None;
    }
    let at = at_place(registers, block.register)?;
    let max = value_of(&block.max, variables)?;
    let limit = value_of(limit, variables)?;
    note(variables, block.tally, None);
    begun(TransferMode::QRepeat, at, at, block.function, limit, max)
}

fn is_same_crate(first: &Address, last: &Address) -> bool
    ensures { result ≡ nat_eq first.now.crate_no last.now.crate_no }
{
    first.c == last.c
}

// A transfer that reads, before its first cycle, if it has one.
fn begun(
    mode: TransferMode,
    first: Address,
    last: Address,
    f: Function,
    cycles: u32,
    words: u32,
) -> Option<ReadBlock>
    ensures { IfSome result (IsBegun mode first last f cycles words) }
{
    if !has_cycle(mode, &first, &last, cycles, words) {
        return None;
    }
    Some(ReadBlock {
        mode,
        first: command_at(first, f, DataMove::In)?,
        last,
        cycles,
        words,
    })
}

// Whether a transfer has a cycle.
fn has_cycle(mode: TransferMode, first: &Address, last: &Address, cycles: u32, words: u32) -> bool
    ensures { result ≡ is_some (next_by mode first.now last.now cycles words []) }
{
    match mode {
        TransferMode::QStop => cycles > 0,
        TransferMode::QRepeat => words > 0 && cycles > 0,
        TransferMode::Scan => words > 0 && is_by(last, first),
    }
}
