//! What the command line asks for.
use crate::parser::exchange_command;
use clap::error::ErrorKind;
use clap::{ArgMatches, Error};
use std::alloc::{AllocError, AllocGlobal, Global};
use std::env::Env;
use std::{env, io};

/// What the command line asks for. Each name of a file is as it was typed.
#[derive(Drop)]
pub enum Request<'a> {
    /// Day lines from standard input.
    Replay {
        rules: &'a str,
        stamp: &'a str,
        journal_only: bool,
    },
    /// A file of raw bytes for each session, session 0 first.
    Live {
        rules: &'a str,
        sessions: Vec<&'a str>,
        stamp: &'a str,
        ring: u32,
        entries: u32,
    },
    /// A journal text under a rulebook.
    Journal {
        rules: &'a str,
        journal: &'a str,
        task: Task<'a>,
    },
    /// A phase is measured over files.
    Bench {
        phase: &'a str,
        files: Vec<&'a str>,
    },
}

/// What is done with a journal text.
#[derive(Clone, Copy)]
pub enum Task<'a> {
    /// The journal is worked again.
    Check,
    /// The journal is held against the lines of fills and months that somebody claims for it.
    Audit { claim: &'a str },
    /// The entry of this place is explained.
    Explain { place: u32 },
    /// Its day is drawn.
    Draw,
}

/// Why the command line asks for nothing.
#[derive(Drop)]
pub enum Refused {
    NoMemory,
    /// The parser's text, help among it.
    Words(Error),
}

impl From<AllocError> for Refused {
    fn from(_error: AllocError) -> Refused {
        Refused::NoMemory
    }
}

impl From<Error> for Refused {
    fn from(error: Error) -> Refused {
        match error.kind() {
            ErrorKind::OutOfMemory => Refused::NoMemory,
            _ => Refused::Words(error),
        }
    }
}

fn text_of<'a>(found: &ArgMatches<'a>, name: &str) -> &'a str {
    found.get_str(name).unwrap_or("")
}

fn number_of(found: &ArgMatches, name: &str) -> u32 {
    found.get_one(name).unwrap_or(0)
}

/// What this command does with a journal text.
fn task_of<'a>(command: &str, found: &ArgMatches<'a>) -> Task<'a> {
    match command {
        "check" => Task::Check,
        "audit" => Task::Audit {
            claim: text_of(found, "CLAIM"),
        },
        "explain" => Task::Explain {
            place: number_of(found, "PLACE"),
        },
        _ => Task::Draw,
    }
}

/// A journal text, and what this command does with it.
fn journal_request<'a>(command: &str, found: &ArgMatches<'a>) -> Request<'a> {
    Request::Journal {
        rules: text_of(found, "RULES"),
        journal: text_of(found, "JOURNAL"),
        task: task_of(command, found),
    }
}

fn live_request<'a>(alloc: Global, found: &ArgMatches<'a>) -> Result<Request<'a>, AllocError> {
    let sessions = found.get_strs("SESSION").unwrap_or(&[]).to_vec(alloc)?;
    Ok(Request::Live {
        rules: text_of(found, "RULES"),
        sessions,
        stamp: text_of(found, "stamp"),
        ring: number_of(found, "ring"),
        entries: number_of(found, "entries"),
    })
}

fn bench_request<'a>(alloc: Global, found: &ArgMatches<'a>) -> Result<Request<'a>, AllocError> {
    let files = found.get_strs("FILE").unwrap_or(&[]).to_vec(alloc)?;
    Ok(Request::Bench {
        phase: text_of(found, "PHASE"),
        files,
    })
}

fn replay_request<'a>(found: &ArgMatches<'a>) -> Request<'a> {
    Request::Replay {
        rules: text_of(found, "RULES"),
        stamp: text_of(found, "stamp"),
        journal_only: found.get_flag("journal-only"),
    }
}

/// What the parser found.
fn request_of<'a>(alloc: Global, matches: &ArgMatches<'a>) -> Result<Request<'a>, AllocError> {
    match matches.subcommand() {
        Some(("replay", found)) => Ok(replay_request(found)),
        Some(("live", found)) => live_request(alloc, found),
        Some(("bench", found)) => bench_request(alloc, found),
        Some((command, found)) => Ok(journal_request(command, found)),
        // The parser has asked for a command by now.
        None => Err(AllocError),
    }
}

/// What these words ask for; the first is the program's name.
pub fn read_words<'a>(alloc: Global, words: &'a [String]) -> Result<Request<'a>, Refused> {
    let matches = exchange_command(alloc)?.try_get_matches_from(words)?;
    let request = request_of(alloc, &matches);
    drop(matches);
    Ok(request?)
}

/// Why the program's words could not be taken over from the system.
fn refusal_of(alloc: Global, error: &io::Error) -> Result<Refused, AllocError> {
    match error.kind() {
        io::ErrorKind::InvalidData => {
            let mut command = exchange_command(alloc)?;
            let text = "invalid UTF-8 was detected in one or more arguments";
            let error = command.error(ErrorKind::InvalidValue, text);
            drop(command);
            Ok(Refused::Words(error?))
        }
        _ => Ok(Refused::NoMemory),
    }
}

/// The program's words, its own name first.
pub fn words_of(rt: &(impl Env + AllocGlobal)) -> Result<Vec<String>, Refused> {
    match env::args(rt) {
        Ok(words) => Ok(words.collect(rt.alloc())?),
        Err(error) => Err(refusal_of(rt.alloc(), &error)?),
    }
}

/// Says why there is nothing to run, and gives the status: 6 without memory, 2 where the words ask for nothing, 0 where
/// they ask for help.
pub fn refuse(rt: &(impl Print + Eprint), refused: Refused) -> u8 {
    match refused {
        Refused::NoMemory => {
            let _ = eprintln!(rt; "exchange: no memory");
            6
        }
        Refused::Words(error) => {
            let _ = error.print(rt);
            if error.use_stderr() { 2 } else { 0 }
        }
    }
}
