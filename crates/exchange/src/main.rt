//! The program `exchange`: its words, what they ask for, and how it ends.
#![tactic(auto)]

use exchange_commands::run;
use exchange_faults::tell;
use exchange_words::{read_words, refuse, words_of};
use std::process::ExitCode;

fn main(rt: HostRuntime) -> ExitCode {
    let words = match words_of(&rt) {
        Ok(words) => words,
        Err(refused) => return ExitCode::from(refuse(&rt, refused)),
    };
    match read_words(rt.alloc(), words.as_slice()) {
        Ok(request) => match run(&rt, &request) {
            Ok(()) => ExitCode::SUCCESS,
            Err(fault) => ExitCode::from(tell(&rt, fault)),
        },
        Err(refused) => ExitCode::from(refuse(&rt, refused)),
    }
}
