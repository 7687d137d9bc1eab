//! Limits that a script exceeds.
use crate::program::{check, files};
use bm_io::SureFile;
use std::alloc::{AllocError, Global};
use std::process::Abort;
use std::sync::Wait;
use std::thread::Threads;

#[test]
fn a_script_may_be_too_long(rt: HostRuntime) {
    let text = "beamer: limit script-octets\n";
    let script = long_script(rt.alloc(), 1_048_577);
    check_script(&rt, rt.alloc(), script, text);
}

#[test]
fn a_script_may_have_too_many_changes(rt: HostRuntime) {
    let text = "beamer: limit changes\n";
    check_script(&rt, rt.alloc(), many_changes(rt.alloc()), text);
}

/// Checks which limit this script exceeds.
fn check_script(
    rt: &(impl Abort + Threads + Wait + Sync),
    alloc: Global,
    script: Result<Vec<u8>, AllocError>,
    text: &str,
) {
    let files = script_files(alloc, script);
    check(rt, alloc, &["replay", "c", "s"], files, text, (7, text));
}

/// The files of an empty capture and of this script.
fn script_files(
    alloc: Global,
    script: Result<Vec<u8>, AllocError>,
) -> Result<Vec<SureFile>, AllocError> {
    let script = script?;
    files(alloc, &[("c", b""), ("s", &script)])
}

/// A script with this many octets; 1,048,576 are allowed.
fn long_script(alloc: Global, octets: usize) -> Result<Vec<u8>, AllocError> {
    vec![in alloc; b'#'; octets]
}

/// A script with one change too many.
fn many_changes(alloc: Global) -> Result<Vec<u8>, AllocError> {
    let mut changes = Vec::new(alloc);
    for i in 0..4_097_u32 {
        changes.extend_from_slice(b"[[command]]\nat_ns = 0\ndo = \"move\"\nbucket = 0\n")?;
        let server: &[u8] = if i % 2 == 0 {
            b"server = 2\n"
        } else {
            b"server = 1\n"
        };
        changes.extend_from_slice(server)?;
    }
    Ok(changes)
}
