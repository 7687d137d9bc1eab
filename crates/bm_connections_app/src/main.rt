//! Makes the real files, standard output and standard error, and calls `beamer_connections` with
//! the words of the command line.
#![tactic(auto)]

mod system;

use crate::system::{StdErrors, StdReasons};
use bm_connections_cli::beamer_connections;
use bm_io::{StdFiles, StdSink};
use std::env;
use std::io::ErrorKind;
use std::process::ExitCode;

/// The status when memory is refused.
const MEMORY: u8 = 6;

fn main(rt: HostRuntime) -> ExitCode {
    let alloc = rt.alloc();
    let mut words = Vec::new(alloc);
    match env::args(&rt) {
        Ok(given) => {
            for word in given.skip(1) {
                if words.push(word).is_err() {
                    return ExitCode::from(MEMORY);
                }
            }
        }
        Err(e) if e.kind() == ErrorKind::OutOfMemory => return ExitCode::from(MEMORY),
        // A word isn't text; `beamer_connections` gets no words, which fit no form.
        Err(_) => {}
    }
    let mut files = StdFiles::new(rt);
    let mut out = StdSink::new(rt);
    let mut faults = StdErrors::new(rt);
    let reasons = StdReasons::new(rt);
    let status = beamer_connections(
        &rt,
        alloc,
        words.as_slice(),
        &mut files,
        &mut out,
        &mut faults,
        &reasons,
    );
    ExitCode::from(status)
}
