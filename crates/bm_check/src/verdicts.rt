//! The verdict and the cause on the line of an arrival.
ghost use Rattle.std.specs.Prelude.{◌≡◌, ◌<◌, ◌^◌, ℕ, ◌∷◌, ◌++◌, List, Option, Some, codes, decimal};
ghost use Rattle.bm_base.specs.declared.receive.Taken.{Taken};
ghost use Rattle.bm_check.specs.Inside.Reading.{HasRead, text_of};
ghost use Rattle.bm_core.specs.declared.events.Cause.{Cause};
ghost use Rattle.bm_core.specs.declared.events.Verdict.{Verdict};
ghost use Rattle.bm_core.specs.declared.events.Why.{Why};
ghost use Rattle.bm_trace.specs.Types.{IsVerdict};
ghost use Rattle.bm_trace.specs.Words as words;

use crate::words::{cause_in, cut, is, number_16, taken_in, why_in};
use bm_base::ServerId;
use bm_core::{Cause, Verdict};

/// A packet was processed, as the text says at its beginning.
fn processed(text: &[u8]) -> Option<(Verdict, &[u8])>
    ensures { (t : Taken) (ws : List (List ℕ)) → text.now ≡ text_of (words.taken_word t ∷ ws)
        → HasRead result (Verdict.Process t) ws }
{
    let (taken, rest) = cut(text);
    Some((Verdict::Process(taken_in(taken)?), rest))
}

/// Reads to which server the copy is forwarded.
fn forwarded(text: &[u8]) -> Option<(Verdict, &[u8])>
    ensures { (s : ℕ) (ws : List (List ℕ)) → s < 2 ^ 16 → text.now ≡ text_of (decimal s ∷ ws)
        → HasRead result (Verdict.Forward (record { 0 = s })) ws }
{
    let (server, rest) = cut(text);
    Some((Verdict::Forward(ServerId(number_16(server)?)), rest))
}

/// Reads why the packet is reset.
fn reset(text: &[u8]) -> Option<(Verdict, &[u8])>
    ensures { (why : Why) (ws : List (List ℕ)) → text.now ≡ text_of (words.why_word why ∷ ws)
        → HasRead result (Verdict.Reset why) ws }
{
    let (why, rest) = cut(text);
    Some((Verdict::Reset(why_in(why)?), rest))
}

/// Reads why the packet is dropped.
fn dropped(text: &[u8]) -> Option<(Verdict, &[u8])>
    ensures { (why : Why) (ws : List (List ℕ)) → text.now ≡ text_of (words.why_word why ∷ ws)
        → HasRead result (Verdict.Drop why) ws }
{
    let (why, rest) = cut(text);
    Some((Verdict::Drop(why_in(why)?), rest))
}

/// The verdict of this kind, which the text says at its beginning.
fn verdict_of<'a>(kind: &[u8], text: &'a [u8]) -> Option<(Verdict, &'a [u8])>
    ensures accept { (ws : List (List ℕ)) → kind.now ≡ codes "accept" → text.now ≡ text_of ws
        → HasRead result Verdict.Accept ws }
    ensures process { (t : Taken) (ws : List (List ℕ)) → kind.now ≡ codes "process"
        → text.now ≡ text_of (words.taken_word t ∷ ws) → HasRead result (Verdict.Process t) ws }
    ensures forward { (s : ℕ) (ws : List (List ℕ)) → s < 2 ^ 16 → kind.now ≡ codes "forward"
        → text.now ≡ text_of (decimal s ∷ ws)
        → HasRead result (Verdict.Forward (record { 0 = s })) ws }
    ensures reset { (why : Why) (ws : List (List ℕ)) → kind.now ≡ codes "reset"
        → text.now ≡ text_of (words.why_word why ∷ ws) → HasRead result (Verdict.Reset why) ws }
    ensures drop { (why : Why) (ws : List (List ℕ)) → kind.now ≡ codes "drop"
        → text.now ≡ text_of (words.why_word why ∷ ws) → HasRead result (Verdict.Drop why) ws }
{
    if is(kind, "accept") {
        Some((Verdict::Accept, text))
    } else if is(kind, "process") {
        processed(text)
    } else if is(kind, "forward") {
        forwarded(text)
    } else if is(kind, "reset") {
        reset(text)
    } else if is(kind, "drop") {
        dropped(text)
    } else {
        None
    }
}

/// The verdict that the text says at its beginning.
pub(crate) fn verdict(text: &[u8]) -> Option<(Verdict, &[u8])>
    ensures { (v : Verdict) (ws : List (List ℕ)) → IsVerdict v
        → text.now ≡ text_of (words.verdict_words v ++ ws) → HasRead result v ws }
{
    let (kind, rest) = cut(text);
    verdict_of(kind, rest)
}

/// The cause that the text names, where it isn't empty.
pub(crate) fn because(text: &[u8]) -> Option<Option<Cause>>
    ensures { (cause : Option Cause) → text.now ≡ text_of (words.because_words cause)
        → result ≡ Some cause }
{
    if text.is_empty() {
        return Some(None);
    }
    let (_, rest) = cut(text);
    let (cause, _) = cut(rest);
    Some(Some(cause_in(cause)?))
}
