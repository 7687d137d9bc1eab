//! Files and outputs that fail at some of their calls.
ghost use Rattle.std.specs.Prelude.{◌≤◌};

use crate::program::{run, run_connections};
use bm_base::{List, Text};
use bm_connections_cli::{Reason, Reasons};
use bm_io::{MemFile, MemFiles, MemSink, OpenGate, Sink};
use std::alloc::{AllocError, Global};
use std::sync::Wait;
use std::thread::Threads;

/// The program that is called, and its words.
#[derive(Clone, Copy, Debug)]
pub(crate) enum Call<'a> {
    Beamer(&'a [&'a str]),
    Connections(&'a [&'a str]),
}

/// A reason that is always given.
#[derive(Clone, Copy)]
pub(crate) struct Always(pub Option<Reason>);

impl Reasons for Always {
    fn reason(&self, _name: &str) -> Option<Reason> {
        self.0
    }
}

/// A file: its name, its octets, and the numbers of the calls of its source that fail.
#[derive(Clone, Copy)]
pub(crate) struct Fake<'a> {
    pub name: &'a str,
    pub octets: &'a [u8],
    pub fails: &'a [u32],
}

/// A file that gives at most this many octets at a time.
fn file(alloc: Global, step: usize, fake: &Fake) -> Result<MemFile, AllocError>
    requires { 1 ≤ step }
{
    Ok(MemFile {
        name: Text::of(String::from_str(alloc, fake.name)?),
        octets: List::of(Vec::from_slice(alloc, fake.octets)?),
        step,
        fails: List::of(Vec::from_slice(alloc, fake.fails)?),
    })
}

fn files(alloc: Global, step: usize, fakes: &[Fake]) -> Result<Vec<MemFile>, AllocError>
    requires { 1 ≤ step }
{
    let mut files = Vec::new(alloc);
    for fake in fakes {
        files.push(file(alloc, step, fake)?)?;
    }
    Ok(files)
}

/// What the call ends with over these files, which give at most `step` octets at a time, and how
/// many sources stay open. `beamer` writes to the first sink alone.
pub(crate) fn run_fakes<K: Sink, E: Sink>(
    rt: &(impl Threads + Wait + Sync),
    alloc: Global,
    call: Call,
    step: usize,
    fakes: &[Fake],
    out: &mut K,
    faults: &mut E,
    why: Option<Reason>,
) -> Result<(u8, u32), AllocError>
    requires { 1 ≤ step }
{
    let mut files = MemFiles::new(alloc, files(alloc, step, fakes)?);
    let status = match call {
        Call::Beamer(words) => run(rt, alloc, words, &mut files, out, &OpenGate)?,
        Call::Connections(words) => {
            run_connections(rt, alloc, words, &mut files, out, faults, &Always(why))?
        }
    };
    Ok((status, files.open_now()))
}

/// Whether this status of `beamer-connections` comes with a line of its own on the second sink.
fn is_of_fault(call: Call, status: u8) -> bool {
    matches!(call, Call::Connections(_)) && matches!(status, 1..=4 | 7)
}

/// Whether the call ends with this status, writes this text to the sink that it belongs to and
/// nothing to the other, and leaves no source open. Both sinks fail at the calls of these numbers.
pub(crate) fn fakes_answer(
    rt: &(impl Threads + Wait + Sync),
    alloc: Global,
    call: Call,
    step: usize,
    fakes: &[Fake],
    writes: &[u32],
    due: (u8, &str),
) -> Result<bool, AllocError>
    requires { 1 ≤ step }
{
    let (status, text) = due;
    let why = Some(Reason::NoSuchFile);
    let mut out = MemSink::new(alloc, Vec::from_slice(alloc, writes)?);
    let mut faults = MemSink::new(alloc, Vec::from_slice(alloc, writes)?);
    let ended = run_fakes(rt, alloc, call, step, fakes, &mut out, &mut faults, why)?;
    let (told, untold) = if is_of_fault(call, status) {
        (faults.written(), out.written())
    } else {
        (out.written(), faults.written())
    };
    Ok(ended == (status, 0) && told == text.as_bytes() && untold.is_empty())
}
