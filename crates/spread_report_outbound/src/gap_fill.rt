//! Gap fills, which use no number.
ghost use Rattle.std.specs.Prelude.{◌≡◌, ◌<◌, ◌^◌, ◌∷◌, [], OnErr};
ghost use Rattle.spread_report_outbound.specs.code.Sessions.{KeepsBytes};
ghost use Rattle.spread_report_outbound.specs.Steps.{gap_fill};
ghost use Rattle.spread_report_outbound.specs.code.Addressed as addressed;
ghost use Rattle.spread_report_outbound.specs.code.Sending.{Sends};

use crate::fault::DeskFault;
use crate::outbox::Outbox;
use fix_wire::{Field, Head, Value, write_message};
use fix_wire_frames::{msg_types, tags};
use spread_report_fields::{number_field, text_field};
use spread_rules_ids::Id;
use spread_rules_ids::limits::SESSIONS;
use std::alloc::Allocator;

impl<A: Allocator> Outbox<'_, A> {
    /// Appends a gap fill (SequenceReset with GapFillFlag, FIX 4.2) to the session's list, where the numbers that were asked for
    /// begin below the next one; 0 as the last of them is no end. It uses no number. After an error nothing has changed.
    pub fn fill_gap(&mut self, session: u8, first: u32, last: u32) -> Result<(), DeskFault>
        requires { session < SESSIONS }
        ensures sent { Sends self.old self.new
            (record { to = session; step = gap_fill first last } ∷ []) result }
        ensures unchanged_on_err { OnErr result (self.new.outbound.now ≡ self.old.outbound.now) }
        ensures lists_kept { OnErr result (KeepsBytes self.old.lists.now self.new.lists.now) }
    {
        let outbound = &*self.outbound;
        let lists = &mut *self.lists;
        let at = session as usize;
        match outbound.comp_ids[at] {
            None => Ok(()),
            Some(ids) => {
                let next = outbound.numbers[at];
                let number = u64::from(first);
                if number >= next {
                    return Ok(());
                }
                let head = Head {
                    kind: msg_types::SEQUENCE_RESET,
                    number,
                    duplicate: true,
                    sender: ids.host,
                    target: ids.client,
                    stamp: outbound.stamp,
                };
                let new_number = new_seq_no(next, u64::from(last));
                let fields = [
                    number_field!(tags::NEW_SEQ_NO, new_number),
                    text_field!(tags::GAP_FILL_FLAG, Id::of(b"Y")),
                ];
                write_message(&mut lists[at], &head, &fields)?;
                Ok(())
            }
        }
    }
}

/// NewSeqNo (tag 36): the number at which a gap fill lets numbering go on.
fn new_seq_no(next: u64, last: u64) -> u64
    requires { last < 2 ^ 32 }
    ensures { result ≡ addressed.new_seq_no next last }
{
    if last == 0 || next < last + 2 {
        next
    } else {
        last + 1
    }
}
