//! The lines of faults.
ghost use Rattle.std.specs.Prelude.{◌≡◌, ◌==◌, IfOk, option_map, string_bytes};
ghost use Rattle.std.specs.List.{after_first};
ghost use Rattle.bm_cli.specs.Dues.{Refused};
ghost use Rattle.bm_cli.specs.Statuses.{did};
ghost use Rattle.bm_cli.specs.Telling.{Tells};
ghost use Rattle.bm_connections_cli.specs.Faults as spec;

use crate::reason::{Reason, Reasons};
use bm_cli::{StageFault, Status, say, status_of};
use bm_io::Sink;
use bm_pcap::CaptureFault;
use bm_quota::Refusal;
use bm_script::ScriptFault;
use std::alloc::{AllocError, Global};

/// Writes the line of a fault of the file of this name. Nothing where memory was refused.
pub(crate) fn refuse<E: Sink, Q: Reasons>(
    alloc: Global,
    name: &str,
    fault: &StageFault,
    faults: &mut E,
    reasons: &Q,
) -> Status
    ensures { Tells (spec.names_file name.now) (Refused fault.now)
        (did E.written E.faults faults.old faults.new) result }
{
    let status = status_of(fault);
    if status == Status::Memory {
        return Status::Memory;
    }
    match line_of(alloc, name, reason_of(status, name, reasons), fault) {
        Ok(line) => say(faults, line.as_bytes(), status),
        Err(AllocError) => Status::Memory,
    }
}

/// Why the file of this name wasn't read, if this is the status of a read that failed.
fn reason_of<Q: Reasons>(status: Status, name: &str, reasons: &Q) -> Option<Reason> {
    match status {
        Status::ReadFault => reasons.reason(name),
        _ => None,
    }
}

fn line_of(
    alloc: Global,
    name: &str,
    why: Option<Reason>,
    fault: &StageFault,
) -> Result<String, AllocError>
    ensures { IfOk result (λ line. string_bytes line ≡ spec.fault_line name.now why fault.now) }
{
    let words = fault_words(alloc, why, fault)?;
    let words = words.as_str();
    format!(in alloc; "beamer-connections: {name}: {words}\n")
}

/// What is wrong.
fn fault_words(alloc: Global, why: Option<Reason>, fault: &StageFault) -> Result<String, AllocError>
    ensures { IfOk result (λ words. string_bytes words ≡ spec.fault_words why fault.now) }
{
    match fault {
        StageFault::Files => read_words(alloc, why),
        StageFault::LongScript => String::from_str(alloc, "limit script-octets"),
        StageFault::LongTrace => String::from_str(alloc, "limit trace-octets"),
        StageFault::Seats => String::from_str(alloc, "limit seats"),
        StageFault::Script(fault) => script_words(alloc, fault),
        StageFault::Capture(fault) => capture_words(alloc, why, *fault),
        StageFault::Memory => String::from_str(alloc, "want of memory"),
    }
}

fn read_words(alloc: Global, why: Option<Reason>) -> Result<String, AllocError>
    ensures { IfOk result (λ words. string_bytes words ≡ spec.read_words why) }
{
    let why = reason_words(why);
    format!(in alloc; "read fault{why}")
}

fn reason_words(why: Option<Reason>) -> &'static str
    ensures { result.now ≡ spec.reason_words why }
{
    match why {
        None => "",
        Some(Reason::NoSuchFile) => ": no such file",
        Some(Reason::NotPermitted) => ": permission denied",
        Some(Reason::IsFolder) => ": is a folder",
    }
}

fn script_words(alloc: Global, fault: &ScriptFault) -> Result<String, AllocError>
    ensures { IfOk result (λ words. string_bytes words ≡ spec.script_words fault.now) }
{
    match fault {
        ScriptFault::Refused(_, Refusal::TooMany(limit)) => format!(in alloc; "limit {limit}"),
        fault => text_words(alloc, fault),
    }
}

/// The text of a fault after its first word, `script`.
fn text_words(alloc: Global, fault: &ScriptFault) -> Result<String, AllocError>
    ensures { IfOk result (λ words. string_bytes words ≡ spec.text_words fault.now) }
{
    let text = format!(in alloc; "{fault}")?;
    String::from_str(alloc, after_word(text.as_str()))
}

/// The text after its first word.
fn after_word<'a>(text: &'a str) -> &'a str
    ensures { result.now ≡ after_first (λ octet. octet == 32) text.entry.now }
{
    match text.split_once(' ') {
        Some((_, rest)) => rest,
        None => "",
    }
}

fn capture_words(
    alloc: Global,
    why: Option<Reason>,
    fault: CaptureFault,
) -> Result<String, AllocError>
    ensures { IfOk result (λ words. string_bytes words ≡ spec.capture_words why fault) }
{
    match fault {
        CaptureFault::NotACapture => String::from_str(alloc, "not a capture"),
        CaptureFault::BadVersion => String::from_str(alloc, "bad version"),
        CaptureFault::BadLink(link) => format!(in alloc; "bad link type {link}"),
        CaptureFault::BadBlock(block) => format!(in alloc; "block {block}: bad block"),
        CaptureFault::BadLength(number, length) => {
            format!(in alloc; "record {number}: bad length {length}")
        }
        CaptureFault::ReadFault => read_words(alloc, why),
        CaptureFault::TooLarge => String::from_str(alloc, "limit capture-octets"),
        CaptureFault::TooManyPackets => String::from_str(alloc, "limit packets"),
        CaptureFault::Memory => String::from_str(alloc, "want of memory"),
    }
}

/// The file with this fault, of a capture and a script.
pub(crate) fn file_with<'a>(
    capture: &'a str,
    script: Option<&'a str>,
    fault: &StageFault,
) -> &'a str
    ensures { result.now ≡ spec.file_with (record {
      capture = capture.entry.now;
      script = option_map (λ s. s.now) script.entry;
    }) fault.now }
{
    match (fault, script) {
        (StageFault::Capture(_), _) => capture,
        (_, Some(script)) => script,
        (_, None) => "",
    }
}
