//! The phases by their names.
ghost use Rattle.std.specs.Prelude.{◌≤◌, length, OnOk};
ghost use Rattle.spread_rules_ids.specs.declared.limits.TheConstants.{SESSIONS};

use crate::sending::time_report;
use bench_phases::{AtOnce, BenchFault, Measured, time_judge, time_match, time_scan, time_threads};
use spread_rules_ids::limits::SESSIONS;
use std::alloc::AllocGlobal;
use std::thread::Threads;
use std::time::{Clock, CpuClock};

/// A phase over a rulebook and a journal.
fn measure_journal(
    rt: &(impl CpuClock + AllocGlobal),
    phase: &str,
    files: &[Vec<u8>],
) -> Result<Measured, BenchFault> {
    let [rules, journal] = files else {
        return Err(BenchFault::Phase);
    };
    match phase {
        "match" => time_match(rt, rules, journal),
        "report" => time_report(rt, rules, journal),
        _ => Err(BenchFault::Phase),
    }
}

/// Measures a phase over the bytes of these files: `scan`, `judge`, `threads` and `slices` take the streams of 1 to 16
/// sessions, `match` and `report` a rulebook and a journal. A phase is run three times, those in threads once, and the
/// least time counts.
pub fn measure<R: Clock + CpuClock + AllocGlobal + Threads + Sync>(
    rt: &R,
    phase: &str,
    files: &[Vec<u8>],
) -> Result<Measured, BenchFault>
    ensures files { OnOk result ((1 ≤ length files.now) × (length files.now ≤ SESSIONS)) }
{
    if files.is_empty() || files.len() > SESSIONS {
        return Err(BenchFault::Phase);
    }
    match phase {
        "scan" => time_scan(rt, files),
        "judge" => time_judge(rt, files),
        "threads" => time_threads(rt, files, AtOnce::One),
        "slices" => time_threads(rt, files, AtOnce::Slice),
        _ => measure_journal(rt, phase, files),
    }
}
