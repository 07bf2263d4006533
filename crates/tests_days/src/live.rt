//! Days in threads: `run_day` over real threads and rings.
mod days;
mod headline;
mod no_memory;
mod printing;
mod stages;
mod watch;
