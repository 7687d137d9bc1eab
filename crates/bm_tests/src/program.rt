//! The program, run on files in memory.
ghost use Rattle.std.specs.Prelude.{◌≤◌};

use crate::capture::{Form, Packet, raw};
use bm_base::{List, Text};
use bm_cli::beamer;
use bm_connections_cli::{Reasons, beamer_connections};
use bm_io::{Files, Gate, OpenGate, Sink, SureFile, SureFiles, SureSink};
use std::alloc::{AllocError, Global};
use std::process::Abort;
use std::sync::Wait;
use std::thread::Threads;

/// What is written for words of no form.
pub(crate) const USAGE: &str =
    "usage: beamer replay CAPTURE [SCRIPT] | run CAPTURE SCRIPT | load N | check TRACE CAPTURE SCRIPT | streams CAPTURE [SCRIPT]\n";

/// A capture and maybe a script, and what the program ends with and writes.
pub(crate) struct Row {
    pub name: &'static str,
    pub form: Form,
    pub packets: &'static [Packet],
    pub script: Option<&'static str>,
    pub status: u8,
    pub text: &'static str,
}

fn words(alloc: Global, words: &[&str]) -> Result<Vec<String>, AllocError> {
    let mut all = Vec::new(alloc);
    for word in words {
        all.push(String::from_str(alloc, word)?)?;
    }
    Ok(all)
}

/// What the program ends with for these words.
pub(crate) fn run<F: Files, K: Sink, G: Gate>(
    rt: &(impl Threads + Wait + Sync),
    alloc: Global,
    form: &[&str],
    files: &mut F,
    out: &mut K,
    gate: &G,
) -> Result<u8, AllocError>
    requires { F.open_now files.old ≤ 1000 }
{
    let words = words(alloc, form)?;
    Ok(beamer(rt, alloc, &words, files, out, gate))
}

/// What `beamer-connections` ends with for these words.
pub(crate) fn run_connections<F: Files, K: Sink, E: Sink>(
    rt: &(impl Threads + Wait + Sync),
    alloc: Global,
    form: &[&str],
    files: &mut F,
    out: &mut K,
    faults: &mut E,
    reasons: &impl Reasons,
) -> Result<u8, AllocError>
    requires { F.open_now files.old ≤ 1000 }
{
    let words = words(alloc, form)?;
    Ok(beamer_connections(rt, alloc, &words, files, out, faults, reasons))
}

/// A file that gives at most this many octets at a time.
pub(crate) fn file(
    alloc: Global,
    step: usize,
    name: &str,
    octets: &[u8],
) -> Result<SureFile, AllocError>
    requires { 1 ≤ step }
{
    Ok(SureFile {
        name: Text::of(String::from_str(alloc, name)?),
        octets: List::of(Vec::from_slice(alloc, octets)?),
        step,
    })
}

/// Files of these names with these octets.
pub(crate) fn files(alloc: Global, named: &[(&str, &[u8])]) -> Result<Vec<SureFile>, AllocError> {
    let mut files = Vec::new(alloc);
    for (name, octets) in named {
        files.push(file(alloc, 100, name, octets)?)?;
    }
    Ok(files)
}

/// The file of a capture, and that of a script.
fn two_files<'a>(
    alloc: Global,
    capture: &'a [u8],
    script: &'a str,
) -> Result<Vec<SureFile>, AllocError> {
    files(alloc, &[("c", capture), ("s", script.as_bytes())])
}

/// The file of a capture of these packets, and maybe that of a script.
pub(crate) fn packet_files(
    alloc: Global,
    form: Form,
    packets: &[Packet],
    script: Option<&str>,
) -> Result<Vec<SureFile>, AllocError> {
    let capture = raw(alloc, form, packets)?;
    match script {
        Some(script) => two_files(alloc, &capture, script),
        None => files(alloc, &[("c", &capture)]),
    }
}

/// What the program writes: this text, or one that ends in this one.
#[derive(Clone, Copy)]
pub(crate) enum Written<'a> {
    Text(&'a str),
    End(&'a str),
}

/// Whether the program ends with this status for these words over these files, and writes this.
pub(crate) fn answers(
    rt: &(impl Threads + Wait + Sync),
    alloc: Global,
    form: &[&str],
    files: Result<Vec<SureFile>, AllocError>,
    (status, written): (u8, Written),
) -> Result<bool, AllocError> {
    let mut files = SureFiles::new(alloc, files?);
    let mut out = SureSink::new(alloc);
    let ended = run(rt, alloc, form, &mut files, &mut out, &OpenGate)?;
    let is_due = match written {
        Written::Text(text) => out.written() == text.as_bytes(),
        Written::End(text) => out.written().ends_with(text.as_bytes()),
    };
    Ok(is_due && ended == status)
}

/// Checks what the program ends with and writes for these words over these files.
pub(crate) fn check(
    rt: &(impl Abort + Threads + Wait + Sync),
    alloc: Global,
    form: &[&str],
    files: Result<Vec<SureFile>, AllocError>,
    name: &str,
    (status, text): (u8, &str),
) {
    let due = (status, Written::Text(text));
    assert!(rt; answers(rt, alloc, form, files, due) == Ok(true), "{name}");
}

/// Checks what the program ends with and writes for the words `replay c` over this capture.
pub(crate) fn check_capture(
    rt: &(impl Abort + Threads + Wait + Sync),
    alloc: Global,
    capture: &[u8],
    name: &str,
    due: (u8, &str),
) {
    let files = files(alloc, &[("c", capture)]);
    check(rt, alloc, &["replay", "c"], files, name, due);
}

fn check_row(rt: &(impl Abort + Threads + Wait + Sync), alloc: Global, row: &Row) {
    let files = packet_files(alloc, row.form, row.packets, row.script);
    let form: &[&str] = match row.script {
        Some(_) => &["replay", "c", "s"],
        None => &["replay", "c"],
    };
    check(rt, alloc, form, files, row.name, (row.status, row.text));
}

pub(crate) fn check_rows(rt: &(impl Abort + Threads + Wait + Sync), alloc: Global, rows: &[Row]) {
    for row in rows {
        check_row(rt, alloc, row);
    }
}
