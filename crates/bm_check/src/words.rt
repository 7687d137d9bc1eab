//! The words of a line.
ghost use Rattle.std.specs.Prelude.{◌≡◌, ◌<◌, ◌≤◌, ◌^◌, ℕ, ◌∷◌, List, Some, decimal, length};
ghost use Rattle.std.specs.Prelude.{slice_index, take, true};
ghost use Rattle.bm_trace.specs.Inside.Reading as reading;
ghost use Rattle.bm_trace.specs.Inside.Reading.{ends_word, is_word, same_text};
ghost use Rattle.bm_trace.specs.Words as words;
ghost use Rattle.bm_check.specs.Inside.Reading.{text_of};

use bm_base::{Hop, Taken};
use bm_core::{Cause, Why};
use bm_trace::Endpoint;
use std::net::SocketAddrV4;
use std::str::from_utf8;

fn is_stop(octet: u8) -> bool
    ensures { result ≡ ends_word octet }
{
    octet == 32 || octet == 10
}

/// The length of the first word.
fn word_length(text: &[u8]) -> usize
    ensures within { result ≤ length text.now }
    ensures word { is_word (take result text.now) ≡ true }
    ensures stops { result < length text.now
        → ends_word (slice_index text.now result) ≡ true }
{
    let mut place = 0;
    while place < text.len() && !is_stop(text[place]) {
        place += 1;
    }
    place
}

/// The first word, up to a space or a line feed, and what stands after that.
pub(crate) fn cut(text: &[u8]) -> (&[u8], &[u8])
    ensures { (w : List ℕ) (ws : List (List ℕ)) → is_word w ≡ true → text.now ≡ text_of (w ∷ ws)
        → (result.0.now ≡ w) × (result.1.now ≡ text_of ws) }
{
    let place = word_length(text);
    if place < text.len() {
        (&text[..place], &text[place + 1..])
    } else {
        (text, &[])
    }
}

/// A number that the word may be: if it is one of at most 64 bits, that number.
pub(crate) fn value_of(word: &[u8]) -> Option<u64>
    ensures { (n : ℕ) → n < 2 ^ 64 → word.now ≡ decimal n → result ≡ Some n }
{
    match from_utf8(word) {
        Ok(text) => text.parse::<u64>().ok(),
        Err(_) => None,
    }
}

/// The same for a number of at most 32 bits.
pub(crate) fn number_32(word: &[u8]) -> Option<u32>
    ensures { (n : ℕ) → n < 2 ^ 32 → word.now ≡ decimal n → result ≡ Some n }
{
    u32::try_from(value_of(word)?).ok()
}

/// The same for a number of at most 16 bits.
pub(crate) fn number_16(word: &[u8]) -> Option<u16>
    ensures { (n : ℕ) → n < 2 ^ 16 → word.now ≡ decimal n → result ≡ Some n }
{
    u16::try_from(value_of(word)?).ok()
}

/// The address and the port that the word may be: if it is an address and a port, these.
pub(crate) fn endpoint_in(word: &[u8]) -> Option<Endpoint>
    ensures { (addr port : ℕ) → addr < 2 ^ 32 → port < 2 ^ 16
        → word.now ≡ words.endpoint addr port
        → result ≡ Some (record { addr = addr; port = port }) }
{
    let read = SocketAddrV4::parse_ascii(word).ok()?;
    Some(Endpoint {
        addr: read.ip().to_bits(),
        port: read.port(),
    })
}

/// Whether the word is this one.
pub(crate) fn is(word: &[u8], name: &str) -> bool
    ensures { result ≡ same_text word.now name.now }
{
    word == name.as_bytes()
}

/// The hop that the word names.
pub(crate) fn hop_in(word: &[u8]) -> Option<Hop>
    ensures { result ≡ reading.hop_in word.now }
{
    if is(word, "direct") {
        Some(Hop::Direct)
    } else if is(word, "chained") {
        Some(Hop::Chained)
    } else if is(word, "twice") {
        Some(Hop::Twice)
    } else {
        None
    }
}

/// What the word says of a packet that is processed.
pub(crate) fn taken_in(word: &[u8]) -> Option<Taken>
    ensures { result ≡ reading.taken_in word.now }
{
    if is(word, "advance") {
        Some(Taken::Advance)
    } else if is(word, "duplicate") {
        Some(Taken::Duplicate)
    } else if is(word, "ahead") {
        Some(Taken::Ahead)
    } else if is(word, "outside") {
        Some(Taken::Outside)
    } else if is(word, "challenge") {
        Some(Taken::Challenge)
    } else if is(word, "ended") {
        Some(Taken::Ended)
    } else {
        None
    }
}

/// Why a packet is reset or dropped, as the word says.
pub(crate) fn why_in(word: &[u8]) -> Option<Why>
    ensures { result ≡ reading.why_in word.now }
{
    if is(word, "no-previous") {
        Some(Why::NoPrevious)
    } else if is(word, "chain-expired") {
        Some(Why::ChainExpired)
    } else if is(word, "chained-unknown") {
        Some(Why::ChainedUnknown)
    } else if is(word, "silent") {
        Some(Why::Silent)
    } else if is(word, "full") {
        Some(Why::Full)
    } else if is(word, "retired") {
        Some(Why::Retired)
    } else {
        None
    }
}

/// The cause that the word names.
pub(crate) fn cause_in(word: &[u8]) -> Option<Cause>
    ensures { result ≡ reading.cause_in word.now }
{
    if is(word, "never-accepted") {
        Some(Cause::NeverAccepted)
    } else if is(word, "not-held") {
        Some(Cause::NotHeld)
    } else if is(word, "stale-mux") {
        Some(Cause::StaleMux)
    } else if is(word, "moved-thrice") {
        Some(Cause::MovedThrice)
    } else if is(word, "chain-late") {
        Some(Cause::ChainLate)
    } else if is(word, "syn-elsewhere") {
        Some(Cause::SynElsewhere)
    } else if is(word, "full") {
        Some(Cause::Full)
    } else if is(word, "old-table") {
        Some(Cause::OldTable)
    } else {
        None
    }
}
