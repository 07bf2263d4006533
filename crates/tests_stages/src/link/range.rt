//! Entries whose session, numbers and reason are at either end of their range, and one beyond.
use crate::expect::holds;
use gate_link_stages::fits_entry;
use spread_rules::{Entry, Event};

fn fits(session: u8, event: Event) -> bool {
    fits_entry(&Entry { session, event })
}

fn fits_gap(first: u32) -> bool {
    fits(0, Event::Gap { first })
}

fn fits_resend(first: u32, last: u32) -> bool {
    fits(0, Event::Resend { first, last })
}

fn fits_reject(number: u32, reason: u8) -> bool {
    fits(0, Event::Reject { number, reason })
}

fn fits_close(reason: u8) -> bool {
    fits(0, Event::Close { reason })
}

#[test]
fn entries_in_range(rt: HostRuntime) {
    holds(&rt, fits(15, Event::Close { reason: 1 }));
    holds(&rt, !fits(16, Event::Close { reason: 1 }));
    holds(&rt, fits_close(5));
    holds(&rt, !fits_close(0));
    holds(&rt, !fits_close(6));
}

/// A message's number has at most nine digits. A resend's last one is 0 where it asks for all that follow.
#[test]
fn numbers_in_range(rt: HostRuntime) {
    holds(&rt, fits_gap(1));
    holds(&rt, fits_gap(999_999_999));
    holds(&rt, !fits_gap(0));
    holds(&rt, !fits_gap(1_000_000_000));
    holds(&rt, fits_resend(5, 0));
    holds(&rt, fits_resend(5, 5));
    holds(&rt, !fits_resend(5, 4));
}

/// SessionRejectReason, of which the profile has five.
#[test]
fn reasons_in_range(rt: HostRuntime) {
    holds(&rt, fits_reject(1, 1));
    holds(&rt, fits_reject(1, 11));
    holds(&rt, !fits_reject(1, 2));
    holds(&rt, !fits_reject(0, 1));
}
