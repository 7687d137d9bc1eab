//! The command with which the words begin, if they fit a form.
ghost use Rattle.std.specs.Prelude.{◌≡◌, IfSome, None, is_some, map, string_bytes};
ghost use Rattle.bm_words.specs.Form.{check_of, connections_of, is_name, play_of, verb_of};
ghost use Rattle.bm_words.specs.Inside.Form.{IsVerbIn};

use crate::count::count_in;

/// A command that plays a capture.
#[derive(Clone, Copy, PartialEq, Eq)]
pub(crate) enum Verb {
    /// `replay CAPTURE [SCRIPT]`
    Replay,
    /// `run CAPTURE SCRIPT`
    Run,
    /// `streams CAPTURE [SCRIPT]`
    Streams,
}

/// Whether the words are `load N`.
pub(crate) fn is_load(words: &[String]) -> bool
    ensures { result ≡ is_some (connections_of (map string_bytes words.now)) }
{
    match words {
        [word, number] => word.as_str() == "load" && count_in(number.as_str()).is_some(),
        _ => false,
    }
}

/// Whether the words are `check TRACE CAPTURE SCRIPT`.
pub(crate) fn is_check(words: &[String]) -> bool
    ensures { result ≡ is_some (check_of (map string_bytes words.now)) }
{
    match words {
        [word, trace, capture, script] => {
            word.as_str() == "check"
                && is_name(trace.as_str())
                && is_name(capture.as_str())
                && is_name(script.as_str())
        }
        _ => false,
    }
}

/// The command of the words, if they play a capture.
pub(crate) fn verb_in(words: &[String]) -> Option<Verb>
    ensures none { result ≡ None → play_of (map string_bytes words.now) ≡ None }
    ensures some { IfSome result (IsVerbIn (map string_bytes words.now)) }
{
    match words {
        [word, capture] if is_name(capture.as_str()) => match command_named(word.as_str()) {
            Some(Verb::Replay) => Some(Verb::Replay),
            Some(Verb::Streams) => Some(Verb::Streams),
            _ => None,
        },
        [word, capture, script] if is_name(capture.as_str()) && is_name(script.as_str()) => {
            command_named(word.as_str())
        }
        _ => None,
    }
}

/// The command with this name.
fn command_named(word: &str) -> Option<Verb>
    ensures { result ≡ verb_of word.now }
{
    match word {
        "replay" => Some(Verb::Replay),
        "run" => Some(Verb::Run),
        "streams" => Some(Verb::Streams),
        _ => None,
    }
}

/// Whether the word may name a file: it isn't empty and doesn't begin with `-`.
fn is_name(word: &str) -> bool
    ensures { result ≡ is_name word.now }
{
    match word.as_bytes() {
        [] => false,
        [first, ..] => *first != b'-',
    }
}
