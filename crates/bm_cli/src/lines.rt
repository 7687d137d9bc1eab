//! The lines that the program writes in place of a report.
ghost use Rattle.std.specs.Prelude.{◌≡◌, ◌≢◌, IfOk, string_bytes};
ghost use Rattle.bm_cli.specs.Lines as lines;
ghost use Rattle.bm_cli.specs.Dues.{Refused};
ghost use Rattle.bm_cli.specs.Telling.{Tells};
ghost use Rattle.bm_cli.specs.Statuses.{did};

use crate::fault::StageFault;
use crate::status::{Status, say};
use bm_io::Sink;
use bm_pcap::CaptureFault;
use bm_quota::Refusal;
use bm_script::ScriptFault;
use std::alloc::{AllocError, Global};

/// Writes the line of a fault, or of a limit that is exceeded. Nothing where memory was refused.
pub fn refuse<K: Sink>(alloc: Global, fault: &StageFault, out: &mut K) -> Status
    ensures { Tells lines.beamer_lines (Refused fault.now)
        (did K.written K.faults out.old out.new) result }
{
    let status = status_of(fault);
    if status == Status::Memory {
        return Status::Memory;
    }
    match line_of(alloc, fault) {
        Ok(line) => say(out, line.as_bytes(), status),
        Err(_) => Status::Memory,
    }
}

/// The status with which a program ends after a fault.
pub fn status_of(fault: &StageFault) -> Status
    ensures status { result ≡ lines.fault_status fault.now }
    ensures write { result ≢ Status.WriteFault }
{
    match fault {
        StageFault::Files => Status::ReadFault,
        StageFault::LongScript | StageFault::LongTrace | StageFault::Seats => Status::Limit,
        StageFault::Script(fault) => script_status(fault),
        StageFault::Capture(fault) => capture_status(*fault),
        StageFault::Memory => Status::Memory,
    }
}

fn script_status(fault: &ScriptFault) -> Status
    ensures status { result ≡ lines.script_status fault.now }
    ensures write { result ≢ Status.WriteFault }
{
    match fault {
        ScriptFault::Refused(_, refusal) => refusal_status(*refusal),
        ScriptFault::Memory => Status::Memory,
        _ => Status::BadScript,
    }
}

fn refusal_status(refusal: Refusal) -> Status
    ensures status { result ≡ lines.refusal_status refusal }
    ensures write { result ≢ Status.WriteFault }
{
    match refusal {
        Refusal::TooMany(_) => Status::Limit,
        _ => Status::BadScript,
    }
}

fn capture_status(fault: CaptureFault) -> Status
    ensures status { result ≡ lines.capture_status fault }
    ensures write { result ≢ Status.WriteFault }
{
    match fault {
        CaptureFault::NotACapture
        | CaptureFault::BadVersion
        | CaptureFault::BadLink(_)
        | CaptureFault::BadBlock(_)
        | CaptureFault::BadLength(..) => Status::BadCapture,
        CaptureFault::ReadFault => Status::ReadFault,
        CaptureFault::TooLarge | CaptureFault::TooManyPackets => Status::Limit,
        CaptureFault::Memory => Status::Memory,
    }
}

fn line_of(alloc: Global, fault: &StageFault) -> Result<String, AllocError>
    ensures { IfOk result (λ line. string_bytes line ≡ lines.fault_line fault.now) }
{
    match fault {
        StageFault::Files => String::from_str(alloc, "beamer: read fault\n"),
        StageFault::LongScript => String::from_str(alloc, "beamer: limit script-octets\n"),
        StageFault::LongTrace => String::from_str(alloc, "beamer: limit trace-octets\n"),
        StageFault::Seats => String::from_str(alloc, "beamer: limit seats\n"),
        StageFault::Script(fault) => script_line(alloc, fault),
        StageFault::Capture(fault) => capture_line(alloc, *fault),
        StageFault::Memory => Ok(String::new(alloc)),
    }
}

fn script_line(alloc: Global, fault: &ScriptFault) -> Result<String, AllocError>
    ensures { IfOk result (λ line. string_bytes line ≡ lines.script_line fault.now) }
{
    match fault {
        ScriptFault::Refused(_, Refusal::TooMany(limit)) => {
            format!(in alloc; "beamer: limit {limit}\n")
        }
        ScriptFault::Memory => Ok(String::new(alloc)),
        fault => format!(in alloc; "beamer: {fault}\n"),
    }
}

fn capture_line(alloc: Global, fault: CaptureFault) -> Result<String, AllocError>
    ensures { IfOk result (λ line. string_bytes line ≡ lines.capture_line fault) }
{
    match fault {
        CaptureFault::NotACapture => String::from_str(alloc, "beamer: capture: not a capture\n"),
        CaptureFault::BadVersion => String::from_str(alloc, "beamer: capture: bad version\n"),
        CaptureFault::BadLink(link) => {
            format!(in alloc; "beamer: capture: bad link type {link}\n")
        }
        CaptureFault::BadBlock(block) => {
            format!(in alloc; "beamer: capture block {block}: bad block\n")
        }
        CaptureFault::BadLength(record, length) => {
            format!(in alloc; "beamer: capture record {record}: bad length {length}\n")
        }
        CaptureFault::ReadFault => String::from_str(alloc, "beamer: read fault\n"),
        CaptureFault::TooLarge => String::from_str(alloc, "beamer: limit capture-octets\n"),
        CaptureFault::TooManyPackets => String::from_str(alloc, "beamer: limit packets\n"),
        CaptureFault::Memory => Ok(String::new(alloc)),
    }
}
