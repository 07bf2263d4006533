//! Entries applied one after another and reported: what each session is sent.
ghost use Rattle.std.specs.Prelude.{◌≡◌, ◌≢◌, ℕ, ◌<◌, ◌≤◌, ◌+◌, ◌-◌, ◌^◌, [], ◌∷◌, ◌++◌, IfOk, IfErr, OnOk, OnErr, List, length, slice_set};
ghost use Rattle.spread_rules_ids.specs.declared.limits.TheConstants.{SESSIONS};
ghost use Rattle.spread_rules.specs.declared.event.Entry.{Entry};
ghost use Rattle.spread_rules.specs.Journal.{FitsEntry};
ghost use Rattle.spread_report_outbound.specs.Sessions.{bytes_of};
ghost use Rattle.spread_report_outbound.specs.code.Sessions.{session_text, texts_of};
ghost use Rattle.apply_desk.specs.code.Applied.{IsApplyFault};
ghost use Rattle.apply_desk.specs.Sending.{fault_at, HasReported, HasReportedBehind, IsReporting, SendsTheSame, sending_rules, stamp_of};
ghost use Rattle.apply_market.specs.declared.fault.ApplyFault.TheVariants.{NoMemory};

use apply_market::{ApplyFault, MatchedJournal};
use spread_report::{Desk, DeskFault};
use spread_rules::{Entry, Fill, Rulebook};
use spread_rules_ids::{Id, limits};
use std::alloc::{AllocError, Allocator};
use std::marker::Model;

/// What came of a journal's entries: all fills in order, and for each of sixteen sessions the bytes that it is sent.
#[derive(Drop)]
pub struct FillsAndMessages<A: Allocator> {
    pub fills: Vec<Fill, A>,
    pub out: Vec<Vec<u8, A>, A>,
}

/// Entries applied in order, and what each of sixteen sessions is sent by them, but for what was handed on.
#[derive(Drop)]
pub struct ReportedEntries<'r, A: Allocator + Copy> {
    rulebook: &'r Rulebook,
    applied: MatchedJournal<'r, A>,
    desk: Desk,
    out: Vec<Vec<u8, A>, A>,
}

impl<'r, A: Allocator + Copy> Model for ReportedEntries<'r, A> {
    ghost use Rattle.std.specs.Prelude.{◌≡◌};
    ghost use Rattle.spread_report_outbound.specs.code.Sessions.{texts_of};
    ghost use Rattle.apply_market.specs.Application.{rules_of};
    ghost use Rattle.apply_desk.specs.Sending.{Sending};

    ghost Value = { Sending };

    ghost view = { λ r. record {
      applied = r.applied;
      desk = r.desk;
      texts = texts_of r.out.items;
    } };

    ghost invariant = { λ r. rules_of r.applied ≡ r.rulebook.now };
}

/// What the desk met at the entry of that place.
fn fault_at(place: u64, fault: DeskFault) -> ApplyFault
    ensures { result ≡ fault_at place fault }
{
    match fault {
        DeskFault::NoMemory => ApplyFault::NoMemory(place),
        DeskFault::NumbersSpent => ApplyFault::NumbersSpent(place),
    }
}

/// Sixteen empty lists.
fn new_lists<A: Allocator + Copy>(alloc: A) -> Result<Vec<Vec<u8, A>, A>, AllocError>
    ensures count { IfOk result (λ lists. length lists.items ≡ SESSIONS) }
    ensures empty { IfOk result (λ lists. (s : ℕ) → bytes_of lists.items s ≡ []) }
{
    let mut lists = Vec::new(alloc);
    for i in 0..limits::SESSIONS {
        lists.push(Vec::new(alloc))?;
    }
    Ok(lists)
}

impl<'r, A: Allocator + Copy> ReportedEntries<'r, A> {
    /// Before the first entry. All messages bear this stamp.
    pub fn new(alloc: A, rulebook: &'r Rulebook, stamp: Id) -> Result<Self, ApplyFault>
        ensures start { IfOk result (HasReported []) }
        ensures rules { IfOk result (λ r. sending_rules r ≡ rulebook.now) }
        ensures stamp { IfOk result (λ r. stamp_of r ≡ stamp) }
        ensures fault { IfErr result (λ f. f ≡ NoMemory 0) }
    {
        ReportedEntries::with_capacity(alloc, rulebook, stamp, 0)
    }

    /// Before the first entry, with room for the ids and statuses of so many. All messages bear this stamp.
    pub fn with_capacity(
        alloc: A,
        rulebook: &'r Rulebook,
        stamp: Id,
        entries: usize,
    ) -> Result<Self, ApplyFault>
        ensures start { IfOk result (HasReported []) }
        ensures rules { IfOk result (λ r. sending_rules r ≡ rulebook.now) }
        ensures stamp { IfOk result (λ r. stamp_of r ≡ stamp) }
        ensures fault { IfErr result (λ f. f ≡ NoMemory 0) }
    {
        let out = match new_lists(alloc) {
            Ok(lists) => lists,
            Err(_) => return Err(ApplyFault::NoMemory(0)),
        };
        let applied = match MatchedJournal::with_capacity(alloc, rulebook, entries) {
            Ok(applied) => applied,
            Err(fault) => return Err(fault),
        };
        Ok(ReportedEntries {
            rulebook,
            applied,
            desk: Desk::new(stamp),
            out,
        })
    }

    /// Applies the next entry, and appends to each session's bytes the messages that the entry sends it. After a fault
    /// the desk and each session's bytes are as before, and no entry more is to be applied.
    pub fn apply(&mut self, entry: &Entry) -> Result<(), ApplyFault>
        requires fits { FitsEntry entry.now }
        requires reported { IsReporting self.old }
        requires room { self.old.applied.count < 2 ^ 64 - 1 }
        ensures next { OnOk result ((before : ℕ → List ℕ) (entries : List Entry)
            → HasReportedBehind before entries self.old
            → HasReportedBehind before (entries ++ entry.now ∷ []) self.new) }
        ensures rules { sending_rules self.new ≡ sending_rules self.old }
        ensures stamp { stamp_of self.new ≡ stamp_of self.old }
        ensures fault { IfErr result (λ f. (before : ℕ → List ℕ) (entries : List Entry)
            → HasReportedBehind before entries self.old
            → IsApplyFault (sending_rules self.old) (entries ++ entry.now ∷ []) f) }
        ensures desk_kept { OnErr result (self.new.desk ≡ self.old.desk) }
        ensures texts_kept { OnErr result (SendsTheSame self.old self.new) }
    {
        let outcome = self.applied.apply(entry)?;
        let place = self.applied.count();
        let fills = self.applied.last_fills();
        let out = self.out.as_mut_slice();
        if let Err(fault) = self
            .desk
            .outgoing(self.rulebook, place, entry, &outcome, fills, out)
        {
            return Err(fault_at(place, fault));
        }
        Ok(())
    }

    /// How many entries were applied.
    pub fn count(&self) -> u64
        ensures { result ≡ self.now.applied.count }
    {
        self.applied.count()
    }

    /// What that session was sent and was not handed on.
    pub fn bytes(&self, session: usize) -> &[u8]
        requires { session < length self.now.texts }
        ensures { result.now ≡ session_text self.now.texts session }
    {
        self.out[session].as_slice()
    }

    /// The first session from this one on that was sent something that was not handed on, or where none below the bound
    /// was, the bound.
    pub fn next_sent(&self, from: usize, bound: usize) -> usize
        requires { (from ≤ bound) × (bound ≤ length self.now.texts) }
        ensures within { (from ≤ result) × (result ≤ bound) }
        ensures skipped { (s : ℕ) → from ≤ s → s < result → session_text self.now.texts s ≡ [] }
        ensures found { result < bound → session_text self.now.texts result ≢ [] }
    {
        let mut session = from;
        while session < bound && self.bytes(session).is_empty() {
            session += 1;
        }
        session
    }

    /// Empties the list of that session, whose bytes were handed on; the list's memory stays for the entries to come.
    pub fn clear(&mut self, session: usize)
        requires { session < length self.old.texts }
        ensures applied { self.new.applied ≡ self.old.applied }
        ensures desk { self.new.desk ≡ self.old.desk }
        ensures texts { self.new.texts ≡ slice_set self.old.texts session [] }
    {
        self.out[session].clear();
    }

    /// All fills, and what each session was sent and was not handed on.
    pub fn into_parts(self) -> FillsAndMessages<A>
        ensures fills { result.fills.items ≡ self.entry.applied.fills }
        ensures texts { texts_of result.out.items ≡ self.entry.texts }
    {
        FillsAndMessages {
            fills: self.applied.into_fills(),
            out: self.out,
        }
    }
}
