//! How the program ends, and what it has written then.
ghost use Rattle.std.specs.Prelude.{◌≡◌, ◌≢◌};
ghost use Rattle.bm_cli.specs.Statuses.{Writes, code_of, did};

use bm_io::{IoFault, Sink, put_all};

/// How the program ends.
#[derive(Clone, Copy, PartialEq, Eq)]
pub enum Status {
    /// What the words ask for was written; a check answers yes.
    Done,
    /// The words fit no form.
    Usage,
    /// The files failed.
    ReadFault,
    /// The capture has a fault.
    BadCapture,
    /// The script has a fault.
    BadScript,
    /// The sink failed.
    WriteFault,
    /// Memory was refused.
    Memory,
    /// A limit is exceeded.
    Limit,
    /// A check doesn't answer yes.
    Denied,
    /// What the words ask about is more than the named script allows.
    Exceeded,
}

impl Status {
    /// The exit status.
    pub fn code(self) -> u8
        ensures { result ≡ code_of self }
    {
        match self {
            Status::Done => 0,
            Status::Usage => 1,
            Status::ReadFault => 2,
            Status::BadCapture => 3,
            Status::BadScript => 4,
            Status::WriteFault => 5,
            Status::Memory => 6,
            Status::Limit => 7,
            Status::Denied => 8,
            Status::Exceeded => 9,
        }
    }
}

/// Writes a text, and ends with this status, or with that of the write if it failed.
pub fn say<K: Sink>(out: &mut K, text: &[u8], status: Status) -> Status
    requires write { status ≢ Status.WriteFault }
    requires memory { status ≢ Status.Memory }
    ensures { Writes status text.now (did K.written K.faults out.old out.new) result }
{
    match put_all(out, text) {
        Ok(()) => status,
        Err(IoFault::Failed) => Status::WriteFault,
        Err(IoFault::Memory) => Status::Memory,
    }
}
