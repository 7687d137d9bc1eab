//! What the words ask for.
ghost use Rattle.std.specs.Prelude.{◌≡◌, ◌∷◌, [], map, option_map, string_bytes};
ghost use Rattle.bm_words.specs.Form as forms;
ghost use Rattle.bm_connections_words.specs.Words.{asked};
ghost use Rattle.bm_connections_words.specs.Words as spec;

use crate::endpoint::are_digits;
use crate::options::{Options, is_name, read_options};
use bm_words::Names;

/// What the words ask for.
#[derive(Drop)]
pub enum Form<'a> {
    /// The connections of a replay of the named capture and script, by these options.
    Connections {
        names: Names<'a>,
        options: Options<'a>,
    },
    /// The lifetime of the named script; with `--for`, also whether connections that live `seconds`
    /// are safe.
    Lifetime {
        script: &'a str,
        seconds: Option<u32>,
    },
    /// `--help`
    Help,
    /// `--version`
    Version,
}

/// What the words ask for; None if they fit no form. The words are without the program's own name.
pub fn read_words<'a>(words: &'a [String]) -> Option<Form<'a>>
    ensures { option_map asked result ≡ spec.form_in words.entry.now }
{
    match words {
        [] => None,
        [word] => read_word(word.as_str()),
        [first, second, options @ ..] => read_form(first.as_str(), second.as_str(), options),
    }
}

/// What one word asks for.
fn read_word<'a>(word: &'a str) -> Option<Form<'a>>
    ensures { option_map asked result ≡ spec.of_word word.entry.now }
{
    match word {
        "--help" => Some(Form::Help),
        "--version" => Some(Form::Version),
        _ => None,
    }
}

/// What the words ask for, by the first two of them and the others.
fn read_form<'a>(first: &'a str, second: &'a str, options: &'a [String]) -> Option<Form<'a>>
    ensures { option_map asked result
        ≡ spec.form_of (first.entry.now ∷ second.entry.now ∷ map string_bytes options.entry.now) }
{
    if first == "--lifetime" {
        return with_script(second, read_life(options)?);
    }
    let names = read_names(first, second)?;
    let options = read_options(options)?;
    Some(Form::Connections { names, options })
}

/// The names, if these are names of a capture and a script.
fn read_names<'a>(capture: &'a str, script: &'a str) -> Option<Names<'a>>
    ensures { option_map forms.named result ≡ spec.names_in capture.entry.now script.entry.now }
{
    if is_name(capture) && is_name(script) {
        Some(Names {
            capture,
            script: Some(script),
        })
    } else {
        None
    }
}

/// What is asked for, if this is the name of a script.
fn with_script<'a>(script: &'a str, seconds: Option<u32>) -> Option<Form<'a>>
    ensures { option_map asked result ≡ spec.with_script script.entry.now seconds }
{
    if is_name(script) {
        Some(Form::Lifetime { script, seconds })
    } else {
        None
    }
}

/// How long connections are to live, in seconds, by the options: none, or `--for` and a number.
fn read_life(options: &[String]) -> Option<Option<u32>>
    ensures { result ≡ spec.life_of (map string_bytes options.now) }
{
    match options {
        [] => Some(None),
        [word, number] => read_for(word.as_str(), number.as_str()),
        _ => None,
    }
}

fn read_for(word: &str, number: &str) -> Option<Option<u32>>
    ensures { result ≡ spec.life_of (word.now ∷ number.now ∷ []) }
{
    if word == "--for" {
        let seconds = read_seconds(number)?;
        return Some(Some(seconds));
    }
    None
}

/// The number in the word: 1 to 4,294,967,295, in decimal without a sign or a leading zero.
fn read_seconds(word: &str) -> Option<u32>
    ensures { result ≡ spec.seconds_of word.now }
{
    if !is_numeral(word.as_bytes()) {
        return None;
    }
    word.parse::<u32>().ok()
}

/// Whether these are decimal digits, and the first isn't 0.
fn is_numeral(octets: &[u8]) -> bool
    ensures { result ≡ forms.is_numeral octets.now }
{
    match octets {
        [] => false,
        [first, ..] => *first != b'0' && are_digits(octets),
    }
}
