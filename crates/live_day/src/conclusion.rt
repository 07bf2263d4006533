//! A day from the joined parts of its threads.
ghost use Rattle.std.specs.Prelude.{◌≡◌, ◌≢◌, ◌≤◌, ◌<◌, ◌+◌, ℕ, Some, length, true, false, IfOk, IfErr, IfSome, IfNone, IsErrOf, vec_len};
ghost use Rattle.std.specs.List.{list_any};
ghost use Rattle.spread_rules_ids.specs.declared.limits.TheConstants.{MAX_JOURNAL_ENTRIES};
ghost use Rattle.spread_report_outbound.specs.Sessions.{bytes_of};
ghost use Rattle.apply_desk.specs.Sending.{sending_rules, stamp_of};
ghost use Rattle.live_day.specs.Streams.{IsDayOfSessions, IsThreadsFault};
ghost use Rattle.apply_market.specs.declared.fault.ApplyFault.{ApplyFault};
ghost use Rattle.live_day.specs.code.Concluding.{AreJoined, IsFaultOfEnds, IsToldBehind, IsWhole};
ghost use Rattle.live_day.specs.code.Making.{of_apply};
ghost use Rattle.live_matching.specs.declared.step.MatchEnd.TheVariants as matched_end;
ghost use Rattle.live_matching.specs.code.Posting.{posted_at};
ghost use Rattle.live_sessions.specs.declared.sequencing.SequenceEnd.TheVariants as sequence_end;
ghost use Rattle.live_writers.specs.code.Writing.{AreJoinedPairs, written_at};

use crate::fault::{ThreadsFault, of_apply};
use apply_desk::FillsAndMessages;
use gate_link::{Poster, agree, finished};
use live_matching::{MatchEnd, Matched, PostedEntries};
use live_sessions::{GivenStreams, SequenceEnd, Sequenced};
use live_writers::Written;
use spread_rules::Entry;
use std::alloc::Allocator;

/// The journal of all sessions, its fills, and what each of sixteen sessions is sent.
#[derive(Drop)]
pub struct SessionsDay<A: Allocator> {
    pub journal: Vec<Entry, A>,
    pub applied: FillsAndMessages<A>,
}

/// Whether some writer found no memory.
fn any_refused<A: Allocator>(written: &[Written<A>]) -> bool
    ensures { result ≡ list_any (λ one. one.refused) written.now }
{
    written.iter().any(|one| one.refused)
}

/// Whether each writer took its end mark. Then each has what was given to it.
fn all_finished<A: Allocator>(posters: &mut [Poster<A>], written: &mut [Written<A>]) -> bool
    requires { AreJoinedPairs posters.old written.old }
    ensures count { length written.new ≡ length written.old }
    ensures finished { result ≡ true → (s : ℕ) → s < length written.old
        → written_at written.new s ≡ posted_at posters.old s }
{
    for s in 0..written.len() {
        let one = &mut written[s];
        if !finished(&mut posters[s], &mut one.writer) {
            return false;
        }
    }
    true
}

/// These lists, of which the first are the writers'.
fn with_written<A: Allocator>(
    out: Vec<Vec<u8, A>, A>,
    written: Vec<Written<A>, A>,
) -> Vec<Vec<u8, A>, A>
    requires { vec_len written ≤ vec_len out }
    ensures count { vec_len result ≡ vec_len out }
    ensures writers { (s : ℕ) → s < vec_len written
        → bytes_of result.items s ≡ written_at written.items s }
    ensures others { (s : ℕ) → vec_len written ≤ s
        → bytes_of result.items s ≡ bytes_of out.items s }
{
    let mut out = out;
    let mut s = 0usize;
    for one in written {
        let Written { writer, .. } = one;
        out[s] = writer.into_bytes();
        s += 1;
    }
    out
}

/// The fault with the least number, by how the sequencer and the matching thread ended, whether a
/// writer found no memory, and whether the end mark of the entries was taken. Where no memory was
/// found, this is the place.
fn first_fault(
    sequenced: SequenceEnd,
    matched: MatchEnd,
    refused: bool,
    agreed: bool,
    place: u64,
) -> Option<ThreadsFault>
    ensures fault { IfSome result (IsFaultOfEnds sequenced matched place) }
    ensures full { sequenced ≡ sequence_end.JournalFull
        → result ≡ Some ThreadsFault.JournalFull }
    ensures refused { sequenced ≢ sequence_end.JournalFull → refused ≡ true
        → result ≡ Some (ThreadsFault.NoMemory place) }
    ensures matched { (f : ApplyFault) → sequenced ≢ sequence_end.JournalFull
        → refused ≡ false → matched ≡ matched_end.Fault f → result ≡ Some (of_apply f) }
    ensures whole { IfNone result
        ((sequenced ≡ sequence_end.Whole) × (matched ≡ matched_end.Whole) × (agreed ≡ true)) }
{
    if let SequenceEnd::JournalFull = sequenced {
        return Some(ThreadsFault::JournalFull);
    }
    if refused {
        return Some(ThreadsFault::NoMemory(place));
    }
    if let MatchEnd::Fault(fault) = matched {
        return Some(of_apply(fault));
    }
    // No thread stops but for a fault of its own or of another.
    match (sequenced, matched) {
        (SequenceEnd::Whole, MatchEnd::Whole) if agreed => None,
        _ => Some(ThreadsFault::NoMemory(place)),
    }
}

/// The fault with the least number, if there is any. Else each part has ended, and has what the others gave it.
fn fault_of<A: Allocator + Copy>(
    sequenced: &mut Sequenced<A>,
    matched: &mut Matched<'_, A>,
    written: &mut [Written<A>],
    streams: &GivenStreams<A>,
    room: usize,
) -> Option<ThreadsFault>
    requires joined { AreJoined room streams.now.value.items sequenced.old matched.old written.old }
    requires few { room ≤ MAX_JOURNAL_ENTRIES }
    ensures journal { sequenced.new.journal ≡ sequenced.old.journal }
    ensures reported { matched.new.posted.reported ≡ matched.old.posted.reported }
    ensures count { length written.new ≡ length written.old }
    ensures fault { IfSome result (λ f. (ring : ℕ)
        → IsThreadsFault (sending_rules matched.old.posted.reported) streams.now.value.items ring
        room f) }
    ensures full { sequenced.old.end ≡ sequence_end.JournalFull
        → result ≡ Some ThreadsFault.JournalFull }
    ensures refused { sequenced.old.end ≢ sequence_end.JournalFull
        → list_any (λ one. one.refused) written.old ≡ true
        → result ≡ Some (ThreadsFault.NoMemory (matched.old.worked + 1)) }
    ensures place { IfSome result (IsToldBehind matched.old.worked matched.old.end) }
    ensures whole { IfNone result
        (IsWhole streams.now.value.items sequenced.old.journal.items matched.old.posted written.new) }
{
    let agreed = agree(&mut sequenced.feeder, &mut matched.matcher);
    let refused = any_refused(written);
    // Where the matching thread found no memory, its place is the same.
    let place = matched.worked + 1;
    if let Some(fault) = first_fault(sequenced.end, matched.end, refused, agreed, place) {
        return Some(fault);
    }
    if !all_finished(matched.posted.posters.as_mut_slice(), written) {
        return Some(ThreadsFault::NoMemory(place));
    }
    None
}

/// The day, or of the faults that arose the one with the least number.
pub fn conclude<A: Allocator + Copy>(
    sequenced: Sequenced<A>,
    matched: Matched<'_, A>,
    written: Vec<Written<A>, A>,
    streams: &GivenStreams<A>,
    room: usize,
) -> Result<SessionsDay<A>, ThreadsFault>
    requires joined { AreJoined room streams.now.value.items sequenced matched written.items }
    requires few { room ≤ MAX_JOURNAL_ENTRIES }
    ensures size { IfOk result (λ day. length day.journal.items ≤ room) }
    ensures day { IfOk result (IsDayOfSessions (sending_rules matched.entry.posted.reported)
        (stamp_of matched.entry.posted.reported) streams.now.value.items) }
    ensures fault { IfErr result (λ f. (ring : ℕ)
        → IsThreadsFault (sending_rules matched.entry.posted.reported)
        streams.now.value.items ring room f) }
    ensures full { sequenced.end ≡ sequence_end.JournalFull
        → IsErrOf result ThreadsFault.JournalFull }
    ensures refused { sequenced.end ≢ sequence_end.JournalFull
        → list_any (λ one. one.refused) written.items ≡ true
        → IsErrOf result (ThreadsFault.NoMemory (matched.entry.worked + 1)) }
    ensures place { IfErr result (IsToldBehind matched.entry.worked matched.entry.end) }
{
    let mut sequenced = sequenced;
    let mut matched = matched;
    let mut written = written;
    let fault = fault_of(
        &mut sequenced,
        &mut matched,
        written.as_mut_slice(),
        streams,
        room,
    );
    let Sequenced { journal, .. } = sequenced;
    let Matched { posted, .. } = matched;
    let FillsAndMessages { fills, out } = posted.reported.into_parts();
    if let Some(fault) = fault {
        return Err(fault);
    }
    let out = with_written(out, written);
    Ok(SessionsDay {
        journal,
        applied: FillsAndMessages { fills, out },
    })
}
