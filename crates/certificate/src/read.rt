//! The reading of a chain.
ghost use Rattle.std.specs.Prelude.{◌≡◌, ◌+◌, ◌<◌, ◌^◌, Err, IfOk, IsOk};
ghost use Rattle.certificate.specs.Counted.{IsCounted};
ghost use Rattle.certificate.specs.Grammar.{end_at, fault_at, parts, read};
ghost use Rattle.certificate.specs.Open.{Answers, Refuses, chain_with};
ghost use Rattle.certificate.specs.declared.refusal.ChainRefusal.TheVariants as refused;

use crate::cut::cut;
use crate::fault::{first_fault, unended};
use crate::line::line_of;
use crate::reading::Reading;
use crate::refusal::ChainRefusal;
use admit_core::{Chain, ChainFault, ChainReason, Sequence};
use std::alloc::Global;

/// The refusal of a row.
fn fault_at(row: u64, reason: ChainReason) -> ChainRefusal
    ensures { result ≡ refused.Fault (fault_at row reason) }
{
    ChainRefusal::Fault(ChainFault { row, reason })
}

/// Ends the chain at an `end` line, where nothing follows it.
fn end_chain(alloc: Global, reading: Reading, row: u64, after: &[u8]) -> Result<Chain, ChainRefusal>
    requires { row + 1 < 2 ^ 64 }
    ensures { Answers (λ chain. chain) result
        (chain_with reading (end_at row (parts 10 after.now))) }
{
    if !after.is_empty() {
        return Err(fault_at(row + 1, ChainReason::AfterEnd));
    }
    let days = Sequence::from_vec(reading.finish(alloc, row)?);
    Ok(Chain { days })
}

/// The chain that a text writes, or its first fault, unless memory runs out before it is found.
fn read_lines(alloc: Global, bytes: &[u8]) -> Result<Chain, ChainRefusal>
    ensures { Answers (λ chain. chain) result (read bytes.now) }
{
    let mut reading = Reading::new(alloc);
    let mut rest = bytes;
    let mut row = 1;
    'lines: while let Some((text, after)) = cut(rest, b'\n') {
        let Some(line) = line_of(alloc, row, text)? else {
            return Err(fault_at(row, ChainReason::NotLine));
        };
        let kind = line.kind();
        if kind.is_end() {
            return end_chain(alloc, reading, row, after);
        }
        if let Some(reason) = reading.misplaced(kind) {
            return Err(fault_at(row, reason));
        }
        reading.add(alloc, row, line)?;
        rest = after;
        row += 1;
    }
    Err(fault_at(row, unended(rest)))
}

/// Why no chain came of a text for which memory ran out: its first fault, if it has one.
fn refusal_of(bytes: &[u8]) -> ChainRefusal
    ensures exact { Refuses result (read bytes.now) }
    ensures told { result ≡ refused.OutOfMemory → IsOk (read bytes.now) }
{
    match first_fault(bytes) {
        Some(fault) => ChainRefusal::Fault(fault),
        None => ChainRefusal::OutOfMemory,
    }
}

/// The chain that a text writes, or its first fault, which is told also where memory ran out for
/// what stands before it. It takes time by the length of the text.
pub fn read_chain(alloc: Global, bytes: &[u8]) -> Result<Chain, ChainRefusal>
    ensures exact { Answers (λ chain. chain) result (read bytes.now) }
    ensures counted { IfOk result IsCounted }
    ensures told { result ≡ Err refused.OutOfMemory → IsOk (read bytes.now) }
{
    match read_lines(alloc, bytes) {
        Ok(chain) => Ok(chain),
        Err(ChainRefusal::Fault(fault)) => Err(ChainRefusal::Fault(fault)),
        Err(ChainRefusal::OutOfMemory) => Err(refusal_of(bytes)),
    }
}
