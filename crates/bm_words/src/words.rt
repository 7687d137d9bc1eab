//! Reads the words.
ghost use Rattle.std.specs.Prelude.{◌≡◌, ◌≤◌, IfErr, IfOk, IfSome, IsSome, Some, drop, is_some};
ghost use Rattle.std.specs.Prelude.{map, option_map, string_bytes, true};
ghost use Rattle.clap.specs.Words.{app_of, subcommand_of, subcommand_rows_of, takes};
ghost use Rattle.clap.specs.Words.{with_subcommand};
ghost use Rattle.bm_words.specs.Inside.Command.{beamer, with_check, with_connections, with_files};
ghost use Rattle.bm_words.specs.Form.{HasCount, asked, asked_by, check_of, connections_of};
ghost use Rattle.bm_words.specs.Form.{form_in, named, names_of, play_of};

use crate::count::count_in;
use crate::form::{Verb, is_check, is_load, verb_in};
use clap::error::ErrorKind;
use clap::{Arg, ArgMatches, Command};
use std::alloc::{AllocError, Global};

/// What the words ask for.
#[derive(Drop)]
pub enum Form<'a> {
    /// The replay of a capture, with or without a script.
    Replay(Names<'a>),
    /// The run of a capture in threads, with a script.
    Run {
        capture: &'a str,
        script: &'a str,
    },
    /// The run of a generated load of this many connections, 1 to 20,000.
    Load {
        connections: u32,
    },
    /// The check of a printed report against a capture and a script.
    Check {
        trace: &'a str,
        capture: &'a str,
        script: &'a str,
    },
    /// The streams of a capture's replay, with or without a script.
    Streams(Names<'a>),
}

/// The file names of a capture, and maybe of a script.
#[derive(Drop)]
pub struct Names<'a> {
    pub capture: &'a str,
    pub script: Option<&'a str>,
}

/// What the words ask for: `replay CAPTURE [SCRIPT]`, `run CAPTURE SCRIPT`, `load N`, `check TRACE
/// CAPTURE SCRIPT` or `streams CAPTURE [SCRIPT]`; None if they fit no form. A name isn't empty and
/// doesn't begin with `-`. N is 1 to 20,000, in decimal without a sign or a leading zero. The words
/// are without the program's own name. `AllocError` where memory was refused.
pub fn read_words<'a>(alloc: Global, words: &'a [String]) -> Result<Option<Form<'a>>, AllocError>
    ensures form { IfOk result (λ form. option_map asked form ≡ form_in words.entry.now) }
    ensures range { IfOk result (λ form. IfSome form (λ f. HasCount (asked f))) }
    // Words that fit no form take no memory.
    ensures memory { IfErr result (λ _. IsSome (form_in words.entry.now)) }
{
    if is_load(words) {
        let connections = read_connections(alloc, words)?;
        return Ok(Some(Form::Load { connections }));
    }
    if is_check(words) {
        let check = read_check(alloc, words)?;
        return Ok(Some(check));
    }
    let Some(verb) = verb_in(words) else {
        return Ok(None);
    };
    let names = read_names(alloc, words)?;
    Ok(Some(with_names(verb, names)))
}

/// What a command asks for, with these names.
fn with_names<'a>(verb: Verb, names: Names<'a>) -> Form<'a>
    requires { is_some (asked_by verb (named names)) ≡ true }
    ensures asked { Some (asked result) ≡ asked_by verb (named names.entry) }
    ensures range { HasCount (asked result) }
{
    let Names { capture, script } = names;
    match (verb, script) {
        (Verb::Replay, script) => Form::Replay(Names { capture, script }),
        (Verb::Streams, script) => Form::Streams(Names { capture, script }),
        (Verb::Run, Some(script)) => Form::Run { capture, script },
        (Verb::Run, None) => unreachable!(),
    }
}

/// The names after the command, if the words play a capture.
fn read_names<'a>(alloc: Global, words: &'a [String]) -> Result<Names<'a>, AllocError>
    requires { is_some (play_of (map string_bytes words.now)) ≡ true }
    ensures { IfOk result
        (λ names. Some (named names) ≡ names_of (drop 1 (map string_bytes words.entry.now))) }
{
    let matches = matches_in(alloc, words)?;
    let Some((_, found)) = matches.subcommand() else {
        unreachable!()
    };
    let Some(capture) = found.get_str("capture") else {
        unreachable!()
    };
    Ok(Names {
        capture,
        script: found.get_str("script"),
    })
}

/// The connections of a load, if the words ask for one.
fn read_connections(alloc: Global, words: &[String]) -> Result<u32, AllocError>
    requires { is_some (connections_of (map string_bytes words.now)) ≡ true }
    ensures connections { IfOk result (λ n. Some n ≡ connections_of (map string_bytes words.now)) }
    ensures range { IfOk result (λ n. (1 ≤ n) × (n ≤ 20000)) }
{
    let matches = matches_in(alloc, words)?;
    let Some((_, found)) = matches.subcommand() else {
        unreachable!()
    };
    let Some(number) = found.get_str("connections") else {
        unreachable!()
    };
    let Some(count) = count_in(number) else {
        unreachable!()
    };
    Ok(count)
}

/// The check of a report, if the words ask for one.
fn read_check<'a>(alloc: Global, words: &'a [String]) -> Result<Form<'a>, AllocError>
    requires { is_some (check_of (map string_bytes words.now)) ≡ true }
    ensures asked { IfOk result
        (λ form. Some (asked form) ≡ check_of (map string_bytes words.entry.now)) }
    ensures range { IfOk result (λ form. HasCount (asked form)) }
{
    let matches = matches_in(alloc, words)?;
    let Some((_, found)) = matches.subcommand() else {
        unreachable!()
    };
    let Some(trace) = found.get_str("trace") else {
        unreachable!()
    };
    let Some(capture) = found.get_str("capture") else {
        unreachable!()
    };
    let Some(script) = found.get_str("script") else {
        unreachable!()
    };
    Ok(Form::Check {
        trace,
        capture,
        script,
    })
}

/// The matches of the command that reads the words, for words that it accepts.
fn matches_in<'a>(alloc: Global, words: &'a [String]) -> Result<ArgMatches<'a>, AllocError>
    requires { takes beamer (map string_bytes words.now) ≡ true }
    ensures { IfOk result (λ matches.
        subcommand_rows_of matches ≡ subcommand_of beamer (map string_bytes words.entry.now)) }
{
    let command = command(alloc)?;
    match command.try_get_matches_from(words) {
        Ok(matches) => Ok(matches),
        Err(e) if e.kind() == ErrorKind::OutOfMemory => Err(AllocError),
        // The words are accepted.
        Err(_) => unreachable!(),
    }
}

/// The command that reads the words.
fn command<'a>(alloc: Global) -> Result<Command<'a>, AllocError>
    ensures { IfOk result (λ command. app_of command ≡ beamer) }
{
    let bare = Command::new(alloc, "beamer")
        .no_binary_name(true)
        .disable_help_subcommand(true);
    let replay = with_files(alloc, bare, "replay")?;
    let run = with_files(alloc, replay, "run")?;
    let streams = with_files(alloc, run, "streams")?;
    let load = with_connections(alloc, streams)?;
    with_check(alloc, load)
}

/// The command with another subcommand, of this name, that takes a capture and a script.
fn with_files<'a>(
    alloc: Global,
    command: Command<'a>,
    name: &'a str,
) -> Result<Command<'a>, AllocError>
    ensures { IfOk result (λ more.
        app_of more ≡ with_subcommand (app_of command.entry) (with_files name.entry.now).top) }
{
    let files = Command::new(alloc, name)
        .arg(Arg::new(alloc, "capture"))?
        .arg(Arg::new(alloc, "script"))?;
    let more = command.subcommand(files)?;
    Ok(more)
}

/// The command with another subcommand, `load`, that takes a number.
fn with_connections<'a>(alloc: Global, command: Command<'a>) -> Result<Command<'a>, AllocError>
    ensures { IfOk result (λ more.
        app_of more ≡ with_subcommand (app_of command.entry) with_connections.top) }
{
    let load = Command::new(alloc, "load").arg(Arg::new(alloc, "connections"))?;
    let more = command.subcommand(load)?;
    Ok(more)
}

/// The command with another subcommand, `check`, that takes a trace, a capture and a script.
fn with_check<'a>(alloc: Global, command: Command<'a>) -> Result<Command<'a>, AllocError>
    ensures { IfOk result (λ more.
        app_of more ≡ with_subcommand (app_of command.entry) with_check.top) }
{
    let check = Command::new(alloc, "check")
        .arg(Arg::new(alloc, "trace"))?
        .arg(Arg::new(alloc, "capture"))?
        .arg(Arg::new(alloc, "script"))?;
    let more = command.subcommand(check)?;
    Ok(more)
}
