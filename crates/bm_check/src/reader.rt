//! The event that a line is of.
ghost use Rattle.std.specs.Prelude.{◌≡◌, ◌<◌, ◌^◌, ℕ, Bool, ◌∷◌, ◌++◌, [], Option, Some, None};
ghost use Rattle.std.specs.Prelude.{IfOk, IfSome, codes, decimal, option_map};
ghost use Rattle.bm_base.specs.declared.flow.Flow.{Flow};
ghost use Rattle.bm_base.specs.declared.label.Hop.{Hop};
ghost use Rattle.bm_table.specs.declared.plan.Retirement.{Retirement};
ghost use Rattle.bm_core.specs.declared.events.Cause.{Cause};
ghost use Rattle.bm_core.specs.declared.events.Event.{Event};
ghost use Rattle.bm_core.specs.declared.events.Verdict.{Verdict};
ghost use Rattle.bm_core.specs.declared.events.What.{What};
ghost use Rattle.bm_trace.specs.Report.{words_of};
ghost use Rattle.bm_trace.specs.Types.{IsAnswer, IsEvent, IsFlow, IsVerdict, IsWhat};
ghost use Rattle.bm_trace.specs.Words as words;
ghost use Rattle.bm_trace.specs.declared.lines.Aside.{Aside};
ghost use Rattle.bm_check.specs.Inside.Reading.{closed_word, nothing, shown, text_of};
ghost use Rattle.bm_check.specs.Lines as lines;
ghost use Rattle.bm_check.specs.Lines.{IsLineOf};

use crate::verdicts::{because, verdict};
use crate::words::{cut, endpoint_in, hop_in, is, number_16, number_32, value_of};
use bm_base::{Flow, Memory, Moment, MuxId, ServerId, Version};
use bm_core::{Event, Verdict, What, Why};
use bm_table::Retirement;
use bm_trace::laws::numbers_fit;
use bm_trace::{Aside, write_line};

/// What a line says after its clock.
#[derive(Clone, Copy)]
struct Said {
    what: What,
    aside: Aside,
}

/// The Publish that the rest of its line says.
fn publish(rest: &[u8]) -> Option<What>
    ensures { (v : ℕ) → v < 2 ^ 32 → rest.now ≡ text_of (decimal v ∷ [])
        → result ≡ Some (What.Publish (record { 0 = v })) }
{
    let (version, _) = cut(rest);
    Some(What::Publish(Version(number_32(version)?)))
}

/// The Steer that the rest of its line says.
fn steer(rest: &[u8]) -> Option<Said>
    ensures { (k m v b : ℕ) → k < 2 ^ 32 → m < 2 ^ 16 → v < 2 ^ 32 → b < 2 ^ 32
        → rest.now ≡ text_of (decimal k ∷ decimal m ∷ decimal v ∷ decimal b ∷ [])
        → result ≡ Some (record {
          what = What.Steer k (record { 0 = m });
          aside = record { version = v; bucket = b; cause = None };
        }) }
{
    let (packet, rest) = cut(rest);
    let (mux, rest) = cut(rest);
    let (version, rest) = cut(rest);
    let (bucket, _) = cut(rest);
    Some(Said {
        what: What::Steer {
            packet: number_32(packet)?,
            mux: MuxId(number_16(mux)?),
        },
        aside: Aside {
            version: number_32(version)?,
            bucket: number_32(bucket)?,
            cause: None,
        },
    })
}

/// The Switch that the rest of its line says.
fn switch(rest: &[u8]) -> Option<What>
    ensures { (m v : ℕ) → m < 2 ^ 16 → v < 2 ^ 32
        → rest.now ≡ text_of (decimal m ∷ decimal v ∷ [])
        → result ≡ Some (What.Switch (record { 0 = m }) (record { 0 = v })) }
{
    let (mux, rest) = cut(rest);
    let (version, _) = cut(rest);
    Some(What::Switch {
        mux: MuxId(number_16(mux)?),
        version: Version(number_32(version)?),
    })
}

/// The Lose that the rest of its line says.
fn lose(rest: &[u8]) -> Option<What>
    ensures { (k : ℕ) (hop : Hop) → k < 2 ^ 32
        → rest.now ≡ text_of (decimal k ∷ words.hop_word hop ∷ [])
        → result ≡ Some (What.Lose k hop) }
{
    let (packet, rest) = cut(rest);
    let (hop, _) = cut(rest);
    Some(What::Lose {
        packet: number_32(packet)?,
        hop: hop_in(hop)?,
    })
}

/// The arrival that the rest of its line says.
fn arrive(rest: &[u8]) -> Option<Said>
    ensures { (k : ℕ) (hop : Hop) (s : ℕ) (v : Verdict) (cause : Option Cause)
        → k < 2 ^ 32 → s < 2 ^ 16 → IsVerdict v
        → rest.now ≡ text_of (decimal k ∷ words.hop_word hop ∷ decimal s
        ∷ (words.verdict_words v ++ words.because_words cause))
        → result ≡ Some (record {
          what = What.Arrive k hop (record { 0 = s }) v;
          aside = record { version = 0; bucket = 0; cause = cause };
        }) }
{
    let (packet, rest) = cut(rest);
    let (hop, rest) = cut(rest);
    let (server, rest) = cut(rest);
    let (verdict, rest) = verdict(rest)?;
    Some(Said {
        what: What::Arrive {
            packet: number_32(packet)?,
            hop: hop_in(hop)?,
            server: ServerId(number_16(server)?),
            verdict,
        },
        aside: Aside {
            version: 0,
            bucket: 0,
            cause: because(rest)?,
        },
    })
}

/// The Close that the rest of its line says.
fn close(rest: &[u8]) -> Option<What>
    ensures { (s : ℕ) (f : Flow) (closed : Bool) → s < 2 ^ 16 → IsFlow f
        → rest.now ≡ text_of (decimal s ∷ words.endpoint f.src f.sport
        ∷ words.endpoint f.dst f.dport ∷ closed_word closed ∷ [])
        → result ≡ Some (What.Close (record { 0 = s }) f closed) }
{
    let (server, rest) = cut(rest);
    let (from, rest) = cut(rest);
    let (to, rest) = cut(rest);
    let (answer, _) = cut(rest);
    let server = ServerId(number_16(server)?);
    let from = endpoint_in(from)?;
    let to = endpoint_in(to)?;
    Some(What::Close {
        server,
        flow: Flow {
            src: from.addr,
            dst: to.addr,
            sport: from.port,
            dport: to.port,
        },
        closed: is(answer, "closed"),
    })
}

/// The answer of this kind to a request to retire, which the text says.
fn answer_of(kind: &[u8], text: &[u8]) -> Option<Retirement>
    ensures done { kind.now ≡ codes "done" → result ≡ Some Retirement.Done }
    ensures stays { kind.now ≡ codes "not-drained" → result ≡ Some Retirement.NotDrained }
    ensures early { (b : ℕ) → b < 2 ^ 32 → kind.now ≡ codes "too-early" → text.now ≡ decimal b
        → result ≡ Some (Retirement.TooEarly b) }
{
    if is(kind, "done") {
        Some(Retirement::Done)
    } else if is(kind, "not-drained") {
        Some(Retirement::NotDrained)
    } else if is(kind, "too-early") {
        Some(Retirement::TooEarly(number_32(text)?))
    } else {
        None
    }
}

/// The answer to a request to retire that the text says.
fn answer(text: &[u8]) -> Option<Retirement>
    ensures { (a : Retirement) → IsAnswer a → text.now ≡ text_of (words.retirement_words a)
        → result ≡ Some a }
{
    let (kind, rest) = cut(text);
    let (number, _) = cut(rest);
    answer_of(kind, number)
}

/// The Retire that the rest of its line says.
fn retire(rest: &[u8]) -> Option<What>
    ensures { (s h at : ℕ) (a : Retirement) → s < 2 ^ 16 → h < 2 ^ 16 → at < 2 ^ 64 → IsAnswer a
        → rest.now ≡ text_of (decimal s ∷ decimal h ∷ codes "at" ∷ decimal at
        ∷ words.retirement_words a)
        → result ≡ Some (What.Retire (record { 0 = s }) h (record { 0 = at }) a) }
{
    let (server, rest) = cut(rest);
    let (shard, rest) = cut(rest);
    let (_, rest) = cut(rest);
    let (at, rest) = cut(rest);
    Some(What::Retire {
        server: ServerId(number_16(server)?),
        shard: number_16(shard)?,
        at: Moment(value_of(at)?),
        result: answer(rest)?,
    })
}

/// A line that says nothing of the events before it.
fn plain(what: Option<What>) -> Option<Said>
    ensures { result ≡ option_map (λ w. record { what = w; aside = nothing }) what }
{
    Some(Said {
        what: what?,
        aside: Aside {
            version: 0,
            bucket: 0,
            cause: None,
        },
    })
}

/// What a line of this kind says.
fn read_kind(kind: &[u8], rest: &[u8]) -> Option<Said>
    ensures publish { (v : ℕ) → v < 2 ^ 32 → kind.now ≡ codes "publish"
        → rest.now ≡ text_of (decimal v ∷ [])
        → result ≡ Some (record { what = What.Publish (record { 0 = v }); aside = nothing }) }
    ensures switch { (m v : ℕ) → m < 2 ^ 16 → v < 2 ^ 32 → kind.now ≡ codes "switch"
        → rest.now ≡ text_of (decimal m ∷ decimal v ∷ [])
        → result ≡ Some (record {
          what = What.Switch (record { 0 = m }) (record { 0 = v });
          aside = nothing;
        }) }
    ensures lose { (k : ℕ) (hop : Hop) → k < 2 ^ 32 → kind.now ≡ codes "lost"
        → rest.now ≡ text_of (decimal k ∷ words.hop_word hop ∷ [])
        → result ≡ Some (record { what = What.Lose k hop; aside = nothing }) }
    ensures steer { (k m v b : ℕ) → k < 2 ^ 32 → m < 2 ^ 16 → v < 2 ^ 32 → b < 2 ^ 32
        → kind.now ≡ codes "steer"
        → rest.now ≡ text_of (decimal k ∷ decimal m ∷ decimal v ∷ decimal b ∷ [])
        → result ≡ Some (record {
          what = What.Steer k (record { 0 = m });
          aside = record { version = v; bucket = b; cause = None };
        }) }
    ensures arrive { (k : ℕ) (hop : Hop) (s : ℕ) (v : Verdict) (cause : Option Cause)
        → k < 2 ^ 32 → s < 2 ^ 16 → IsVerdict v → kind.now ≡ codes "arrive"
        → rest.now ≡ text_of (decimal k ∷ words.hop_word hop ∷ decimal s
        ∷ (words.verdict_words v ++ words.because_words cause))
        → result ≡ Some (record {
          what = What.Arrive k hop (record { 0 = s }) v;
          aside = record { version = 0; bucket = 0; cause = cause };
        }) }
    ensures close { (s : ℕ) (f : Flow) (closed : Bool) → s < 2 ^ 16 → IsFlow f
        → kind.now ≡ codes "close"
        → rest.now ≡ text_of (decimal s ∷ words.endpoint f.src f.sport
        ∷ words.endpoint f.dst f.dport ∷ closed_word closed ∷ [])
        → result ≡ Some (record {
          what = What.Close (record { 0 = s }) f closed;
          aside = nothing;
        }) }
    ensures retire { (s h at : ℕ) (a : Retirement) → s < 2 ^ 16 → h < 2 ^ 16 → at < 2 ^ 64
        → IsAnswer a → kind.now ≡ codes "retire"
        → rest.now ≡ text_of (decimal s ∷ decimal h ∷ codes "at" ∷ decimal at
        ∷ words.retirement_words a)
        → result ≡ Some (record {
          what = What.Retire (record { 0 = s }) h (record { 0 = at }) a;
          aside = nothing;
        }) }
    ensures sync { kind.now ≡ codes "sync"
        → result ≡ Some (record { what = What.Sync; aside = nothing }) }
{
    if is(kind, "publish") {
        plain(publish(rest))
    } else if is(kind, "switch") {
        plain(switch(rest))
    } else if is(kind, "steer") {
        steer(rest)
    } else if is(kind, "lost") {
        plain(lose(rest))
    } else if is(kind, "arrive") {
        arrive(rest)
    } else if is(kind, "close") {
        plain(close(rest))
    } else if is(kind, "retire") {
        plain(retire(rest))
    } else if is(kind, "sync") {
        plain(Some(What::Sync))
    } else {
        None
    }
}

/// What a line says after its clock.
fn read_said(text: &[u8]) -> Option<Said>
    ensures { (w : What) (a : Aside) → IsWhat w → a.version < 2 ^ 32 → a.bucket < 2 ^ 32
        → text.now ≡ text_of (words_of w a)
        → result ≡ Some (record { what = w; aside = shown w a }) }
{
    let (kind, rest) = cut(text);
    read_kind(kind, rest)
}

/// The event that the line may be of.
fn guess(line: &[u8]) -> Option<(Event, Aside)>
    ensures { (e : Event) (a : Aside) → IsEvent e → a.version < 2 ^ 32 → a.bucket < 2 ^ 32
        → line.now ≡ text_of (decimal e.clock.0 ∷ words_of e.what a)
        → result ≡ Some (e, shown e.what a) }
{
    let (clock, rest) = cut(line);
    let clock = Moment(value_of(clock)?);
    let said = read_said(rest)?;
    let event = Event {
        clock,
        what: said.what,
    };
    Some((event, said.aside))
}

fn read_32(number: u32)
    ensures { number < 2 ^ 32 }
{
    let _number = number;
}

/// Whether a packet is reset for this reason. It is dropped for the others.
fn is_reset_reason(why: Why) -> bool
    ensures { result ≡ lines.is_reset_reason why }
{
    match why {
        Why::NoPrevious | Why::ChainExpired | Why::ChainedUnknown => true,
        Why::Silent | Why::Full | Why::Retired => false,
    }
}

/// Whether reports have lines of such an event: a reset and a drop have reasons of their own.
fn has_line(what: What) -> bool
    ensures { result ≡ lines.has_line what }
{
    match what {
        What::Arrive {
            verdict: Verdict::Reset(why),
            ..
        } => is_reset_reason(why),
        What::Arrive {
            verdict: Verdict::Drop(why),
            ..
        } => !is_reset_reason(why),
        _ => true,
    }
}

/// The event that the line is of, if it is of one: it is as it would be written. The text is room
/// for that.
pub(crate) fn read_event(text: &mut String, line: &[u8]) -> Result<Option<Event>, Memory>
    ensures right { IfOk result (λ found. IfSome found (λ e. IsLineOf e line.now)) }
    ensures found { (e : Event) → IsLineOf e line.now → IfOk result (λ found. found ≡ Some e) }
{
    let Some((event, aside)) = guess(line) else {
        return Ok(None);
    };
    if !has_line(event.what) {
        return Ok(None);
    }
    text.clear();
    write_line(text, &event, &aside)?;
    if text.as_bytes() != line {
        return Ok(None);
    }
    numbers_fit(&event);
    read_32(aside.version);
    read_32(aside.bucket);
    Ok(Some(event))
}
