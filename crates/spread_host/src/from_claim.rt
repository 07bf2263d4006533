//! A claim of a journal's fills and month totals, held against what the rule gives.
ghost use Rattle.std.specs.Prelude.{◌≢◌, Err, IfErr, OnOk};
ghost use Rattle.spread_host.specs.Claims.{IsRight, IsAuditFault};
ghost use Rattle.spread_host.specs.declared.from_claim.AuditFault.{AuditFault};
ghost use Rattle.spread_host_faults.specs.declared.fault.HostFault.{HostFault};

use crate::from_journal::apply_text;
use spread_host_faults::HostFault;
use spread_rules::Rulebook;
use std::alloc::Allocator;
use text_day::{Difference, first_difference, text_of_fills};

/// Why a claim was not confirmed.
#[derive(Drop)]
pub enum AuditFault<A: Allocator> {
    /// The journal could not be checked.
    Host(HostFault),
    /// The claim is not what the rule gives the journal.
    Differs(Difference<A>),
}

/// Reads a journal text, applies its entries, and looks whether the claim is the lines of their fills and of the months, and
/// nothing else: byte for byte what `check` writes. Ok exactly where it is.
///
/// Faults: Host, as `check` answers it of the journal; Differs, with the first line that is another.
pub fn audit<A: Allocator + Copy>(
    alloc: A,
    rulebook: &Rulebook,
    text: &[u8],
    claim: &[u8],
) -> Result<(), AuditFault<A>>
    ensures right { OnOk result (IsRight rulebook.now text.now claim.now) }
    ensures fault { IfErr result (IsAuditFault rulebook.now text.now claim.now) }
    // Nothing is written here.
    ensures never_write { result ≢ Err (AuditFault.Host HostFault.Write) }
{
    let applied = match apply_text(alloc, rulebook, text) {
        Ok(applied) => applied,
        Err(fault) => return Err(AuditFault::Host(fault)),
    };
    let no_memory = HostFault::NoMemory(applied.journal.len() as u64 + 1);
    let Ok(right) = text_of_fills(alloc, rulebook, &applied.fills) else {
        return Err(AuditFault::Host(no_memory));
    };
    if claim == right.as_slice() {
        return Ok(());
    }
    match first_difference(alloc, claim, &right) {
        Ok(difference) => Err(AuditFault::Differs(difference)),
        Err(_) => Err(AuditFault::Host(no_memory)),
    }
}
