//! The parser of the program's words.
use crate::texts::{COMMANDS, CommandText, Form, Value, Word};
use clap::builder::ValueParser;
use clap::{Arg, ArgAction, Command};
use std::alloc::{AllocError, Global};

const VERSION: &str = "0.1.0";

/// What reads a value of that kind.
fn parser_of<'a>(value: Value) -> ValueParser<'a> {
    match value {
        Value::Text => ValueParser::string(),
        Value::Number => ValueParser::unsigned(0, 4_294_967_295),
    }
}

/// What is done with what is given for a word.
fn action_of(form: Form) -> ArgAction {
    match form {
        Form::Needed(_) | Form::Option { .. } => ArgAction::Set,
        Form::List => ArgAction::Append,
        Form::Flag => ArgAction::SetTrue,
    }
}

/// A word as the parser takes it.
fn word_of<'a>(alloc: Global, word: Word) -> Arg<'a> {
    let arg = Arg::new(alloc, word.name)
        .help(word.help)
        .action(action_of(word.form));
    match word.form {
        Form::Needed(value) => arg.required(true).value_parser(parser_of(value)),
        Form::List => arg.required(true).num_args(1..),
        Form::Option {
            value,
            value_name,
            default,
        } => arg
            .long(word.name)
            .value_name(value_name)
            .default_value(default)
            .value_parser(parser_of(value)),
        Form::Flag => arg.long(word.name),
    }
}

/// Words as the parser takes them.
fn args_of<'a>(alloc: Global, words: &[Word]) -> Result<Vec<Arg<'a>>, AllocError> {
    let mut args = Vec::new(alloc);
    for word in words {
        args.push(word_of(alloc, *word))?;
    }
    Ok(args)
}

/// A command as the parser takes it.
fn command_of<'a>(alloc: Global, text: &CommandText) -> Result<Command<'a>, AllocError> {
    let words = args_of(alloc, text.words)?;
    Command::new(alloc, text.name).about(text.about).args(words)
}

/// The commands as the parser takes them.
fn commands<'a>(alloc: Global) -> Result<Vec<Command<'a>>, AllocError> {
    let mut commands = Vec::new(alloc);
    for text in COMMANDS {
        commands.push(command_of(alloc, text)?)?;
    }
    Ok(commands)
}

/// The program's words.
pub fn exchange_command<'a>(alloc: Global) -> Result<Command<'a>, AllocError> {
    let commands = commands(alloc)?;
    Command::new(alloc, "exchange")
        .about(
            "A matching host for futures months and calendar spreads, reached by FIX 4.2 messages",
        )
        .version(VERSION)
        .subcommand_required(true)
        .subcommands(commands)
}
