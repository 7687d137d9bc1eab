//! Appending words and numbers to a line, faster than `write!` does.
ghost use Rattle.std.specs.Prelude.{◌≡◌, ◌<◌, ◌+◌, ◌∷◌, ◌++◌, [], OnOk, decimal};
ghost use Rattle.std.specs.Prelude.{string_bytes};
ghost use Rattle.bm_trace.specs.Words as words;

use crate::words::{cause_word, process_text, why_word};
use bm_base::{Hop, Taken};
use bm_core::{Cause, Verdict};
use itoa::Buffer;
use std::alloc::AllocError;

/// Appends a digit.
#[inline(always)]
fn push_digit(line: &mut String, digit: u64) -> Result<(), AllocError>
    requires { digit < 10 }
    ensures { OnOk result (string_bytes line.new ≡ string_bytes line.old ++ (48 + digit) ∷ []) }
{
    line.push(char::from(b'0' + digit as u8))?;
    Ok(())
}

/// Appends a number below 100.
#[inline(always)]
fn push_first(line: &mut String, number: u64) -> Result<(), AllocError>
    requires { number < 100 }
    ensures { OnOk result (string_bytes line.new ≡ string_bytes line.old ++ decimal number) }
{
    if number < 10 {
        return push_digit(line, number);
    }
    push_digit(line, number / 10)?;
    push_digit(line, number % 10)
}

/// Appends a number of any size.
#[inline(never)]
fn push_long(line: &mut String, number: u64) -> Result<(), AllocError>
    ensures { OnOk result (string_bytes line.new ≡ string_bytes line.old ++ decimal number) }
{
    line.push_str(Buffer::new().format(number))?;
    Ok(())
}

/// Appends a number. Up to two digits need no buffer and no copy. It isn't inlined: here a push is,
/// and in a caller with many `?` it isn't.
#[inline(never)]
pub(crate) fn push_digits(line: &mut String, number: u64) -> Result<(), AllocError>
    ensures { OnOk result (string_bytes line.new ≡ string_bytes line.old ++ decimal number) }
{
    if number < 100 {
        push_first(line, number)
    } else {
        push_long(line, number)
    }
}

/// Appends a space and a number.
pub(crate) fn push_number(line: &mut String, number: u64) -> Result<(), AllocError>
    ensures { OnOk result
        (string_bytes line.new ≡ string_bytes line.old ++ words.spaced (decimal number ∷ [])) }
{
    line.push(' ')?;
    push_digits(line, number)
}

/// Appends a text and a number. A few long appends are faster than many of a word or a space. Where
/// it is called with a literal, the text's length is known, and no call copies it.
pub(crate) fn push_named(line: &mut String, text: &str, number: u64) -> Result<(), AllocError>
    ensures { OnOk result
        (string_bytes line.new ≡ string_bytes line.old ++ (text.now ++ decimal number)) }
{
    line.push_str(text)?;
    push_digits(line, number)
}

/// Appends the word of a hop between two spaces, and a number.
pub(crate) fn push_hop(line: &mut String, hop: Hop, number: u64) -> Result<(), AllocError>
    ensures { OnOk result (string_bytes line.new
        ≡ string_bytes line.old ++ ((32 ∷ words.hop_word hop ++ 32 ∷ []) ++ decimal number)) }
{
    match hop {
        Hop::Direct => push_named(line, " direct ", number),
        Hop::Chained => push_named(line, " chained ", number),
        Hop::Twice => push_named(line, " twice ", number),
    }
}

/// Appends a text and a word.
fn push_words(line: &mut String, text: &str, word: &str) -> Result<(), AllocError>
    ensures { OnOk result
        (string_bytes line.new ≡ string_bytes line.old ++ (text.now ++ word.now)) }
{
    line.push_str(text)?;
    line.push_str(word)?;
    Ok(())
}

/// Appends the words of a verdict, each after a space.
#[tactic(auto, using(crate::proofs::Spacing::named_is))]
pub(crate) fn push_verdict(line: &mut String, verdict: Verdict) -> Result<(), AllocError>
    ensures { OnOk result (string_bytes line.new
        ≡ string_bytes line.old ++ words.spaced (words.verdict_words verdict)) }
{
    match verdict {
        Verdict::Accept => line.push_str(" accept")?,
        Verdict::Process(Taken::Advance) => line.push_str(" process advance")?,
        Verdict::Process(taken) => line.push_str(process_text(taken))?,
        Verdict::Forward(server) => push_named(line, " forward ", u64::from(server.0))?,
        Verdict::Reset(why) => push_words(line, " reset ", why_word(why))?,
        Verdict::Drop(why) => push_words(line, " drop ", why_word(why))?,
    }
    Ok(())
}

/// Ends a line with the words of a cause, if there is one.
pub(crate) fn end_line(line: &mut String, cause: Option<Cause>) -> Result<(), AllocError>
    ensures { OnOk result (string_bytes line.new
        ≡ string_bytes line.old ++ (words.spaced (words.because_words cause) ++ 10 ∷ [])) }
{
    if let Some(cause) = cause {
        push_words(line, " because ", cause_word(cause))?;
    }
    line.push('\n')?;
    Ok(())
}
