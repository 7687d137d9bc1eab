//! The trusted edge: standard error, and why the system refuses files. Contracts know nothing of
//! what was written or is answered.
ghost use Rattle.std.specs.Prelude.{◌≡◌, ◌<◌, length, IfOk};
ghost use Rattle.std.specs.Io.{WritesAtMost};
ghost use Rattle.std.specs.declared.option.Option.TheVariants.{None};

use bm_connections_cli::{Reason, Reasons};
use bm_io::{Failed, IoFault, Sink};
use std::fs;
use std::io::{ErrorKind, Read, Stderr, Write};

/// How often a write is tried again when a signal interrupts it.
const TRIES: u32 = 64;

/// Writes once, and again where a signal interrupts it. Writing nothing of a piece is a failure.
fn write(to: &mut Stderr, piece: &[u8]) -> Result<usize, Failed>
    ensures bound { WritesAtMost result piece.now }
    ensures some { 0 < length piece.now → IfOk result (λ n. 0 < n) }
{
    for _ in 0..TRIES {
        match to.write(piece) {
            Ok(count) if count > 0 || piece.is_empty() => return Ok(count),
            Err(e) if e.kind() == ErrorKind::Interrupted => {}
            _ => return Err(Failed),
        }
    }
    Err(Failed)
}

/// Standard error.
#[derive(Drop)]
pub(crate) struct StdErrors {
    to: Stderr,
    faults: u64,
}

impl StdErrors {
    /// Standard error, which has not failed.
    pub(crate) fn new(rt: HostRuntime) -> StdErrors
        ensures { ⟦<StdErrors as Sink>⟧.faults result ≡ 0 }
    {
        StdErrors {
            to: rt.stderr(),
            faults: 0,
        }
    }
}

impl Sink for StdErrors {
    ghost written = { λ _. None };

    ghost faults = { λ s. s.faults };

    fn put(&mut self, piece: &[u8]) -> Result<usize, IoFault> {
        match write(&mut self.to, piece) {
            Ok(count) => Ok(count),
            Err(Failed) => {
                self.faults = self.faults.saturating_add(1);
                Err(IoFault::Failed)
            }
        }
    }
}

/// Why the system refuses files.
#[derive(Drop)]
pub(crate) struct StdReasons {
    rt: HostRuntime,
}

impl StdReasons {
    pub(crate) fn new(rt: HostRuntime) -> StdReasons {
        StdReasons { rt }
    }
}

impl Reasons for StdReasons {
    /// Opens the file again, and reads an octet.
    fn reason(&self, name: &str) -> Option<Reason> {
        match fs::open(&self.rt, name) {
            Ok(mut file) => match file.read(&mut [0]) {
                Ok(_) => None,
                Err(e) => reason_of(e.kind()),
            },
            Err(e) => reason_of(e.kind()),
        }
    }
}

/// The reason that the system tells.
fn reason_of(kind: ErrorKind) -> Option<Reason> {
    match kind {
        ErrorKind::NotFound => Some(Reason::NoSuchFile),
        ErrorKind::PermissionDenied => Some(Reason::NotPermitted),
        ErrorKind::IsADirectory => Some(Reason::IsFolder),
        _ => None,
    }
}
