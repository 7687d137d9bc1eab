//! Worked rows: captures, and the lines of their streams.
use crate::capture::Kind::{Fin, Syn, Text};
use crate::capture::{Form, Packet};
use crate::program::{check, packet_files};
use std::alloc::Global;
use std::process::Abort;
use std::sync::Wait;
use std::thread::Threads;

/// A name, packets, and what is written for them.
type Row = (&'static str, &'static [Packet], &'static str);

static STREAMS: [Row; 3] = [
    (
        "data ahead of the data before it",
        &[
            Packet(0, 0, 1000, 100, Syn),
            Packet(0, 1, 1000, 104, Text(b"bar")),
            Packet(0, 2, 1000, 101, Text(b"foo")),
        ],
        "stream 2 1 10.0.0.1:1000 192.0.2.1:80 octets 6 85944171f73967e8 open\n",
    ),
    (
        "data and a FIN",
        &[
            Packet(0, 0, 1000, 100, Syn),
            Packet(0, 1, 1000, 101, Text(b"a")),
            Packet(0, 2, 1000, 102, Fin),
        ],
        "stream 2 1 10.0.0.1:1000 192.0.2.1:80 octets 1 af63dc4c8601ec8c ended\n",
    ),
    (
        "a SYN alone",
        &[Packet(0, 0, 1000, 100, Syn)],
        "stream 2 1 10.0.0.1:1000 192.0.2.1:80 octets 0 cbf29ce484222325 open\n",
    ),
];

#[test]
fn streams_are_put_in_order(rt: HostRuntime) {
    for row in &STREAMS {
        check_streams(&rt, rt.alloc(), row);
    }
}

fn check_streams(rt: &(impl Abort + Threads + Wait + Sync), alloc: Global, row: &Row) {
    let (name, packets, lines) = *row;
    let files = packet_files(alloc, Form::Micro, packets, None);
    check(rt, alloc, &["streams", "c"], files, name, (0, lines));
}
