//! Buckets that move while a connection is open.
use crate::capture::Form::{Micro, Nano};
use crate::capture::Kind::{Data, Syn};
use crate::capture::{OPENED, Packet};
use crate::program::Row;
use crate::rows::OPENED_REPORT;

/// Bucket 4 moves to server 2 between the packets of `OPENED`.
pub(crate) const MOVED_SCRIPT: &str =
    "[[command]]\nat_ns = 500\ndo = \"move\"\nbucket = 4\nserver = 2\n";

/// What is written for `OPENED` with that script.
pub(crate) const MOVED_REPORT: &str = "1 steer 1 0 0 4\n\
     2 arrive 1 direct 1 accept\n\
     501 publish 1\n\
     502 switch 0 1\n\
     1001 steer 2 0 1 4\n\
     1002 arrive 2 direct 2 forward 1\n\
     1003 arrive 2 chained 1 process advance\n\
     packet 1 accepted 1\n\
     packet 2 processed 1\n\
     total packets 2 steered 2 unsteered 0 accepted 1 processed 1 \
     forwarded 1 reset 0 dropped 0 lost 0 stray 0\n";

pub(crate) static MOVES: [Row; 10] = [
    Row {
        name: "a script that says nothing",
        form: Micro,
        packets: OPENED,
        script: Some(""),
        status: 0,
        text: OPENED_REPORT,
    },
    Row {
        name: "a bucket moves, and the previous server takes the packet",
        form: Micro,
        packets: OPENED,
        script: Some(MOVED_SCRIPT),
        status: 0,
        text: MOVED_REPORT,
    },
    Row {
        name: "the chain ends with the timeout",
        form: Nano,
        packets: &[
            Packet(0, 0, 1000, 100, Syn),
            Packet(1, 498, 1000, 101, Data),
            Packet(1, 500, 1000, 111, Data),
        ],
        script: Some(
            "timeout_s = 1\n\
            [[command]]\n\
            at_ns = 500\n\
            do = \"move\"\n\
            bucket = 4\n\
            server = 2\n",
        ),
        status: 0,
        text: "1 steer 1 0 0 4\n\
             2 arrive 1 direct 1 accept\n\
             501 publish 1\n\
             502 switch 0 1\n\
             1000000499 steer 2 0 1 4\n\
             1000000500 arrive 2 direct 2 forward 1\n\
             1000000501 arrive 2 chained 1 process advance\n\
             1000000502 steer 3 0 1 4\n\
             1000000503 arrive 3 direct 2 reset chain-expired because chain-late\n\
             packet 1 accepted 1\n\
             packet 2 processed 1\n\
             packet 3 reset 2\n\
             total packets 3 steered 3 unsteered 0 accepted 1 processed 1 \
             forwarded 1 reset 1 dropped 0 lost 0 stray 0\n",
    },
    Row {
        name: "one nanosecond after the timeout",
        form: Nano,
        packets: &[
            Packet(0, 0, 1000, 100, Syn),
            Packet(1, 499, 1000, 101, Data),
        ],
        script: Some(
            "timeout_s = 1\n\
            [[command]]\n\
            at_ns = 500\n\
            do = \"move\"\n\
            bucket = 4\n\
            server = 2\n",
        ),
        status: 0,
        text: "1 steer 1 0 0 4\n\
             2 arrive 1 direct 1 accept\n\
             501 publish 1\n\
             502 switch 0 1\n\
             1000000500 steer 2 0 1 4\n\
             1000000501 arrive 2 direct 2 reset chain-expired because chain-late\n\
             packet 1 accepted 1\n\
             packet 2 reset 2\n\
             total packets 2 steered 2 unsteered 0 accepted 1 processed 0 \
             forwarded 0 reset 1 dropped 0 lost 0 stray 0\n",
    },
    Row {
        name: "a bucket moves twice",
        form: Micro,
        packets: OPENED,
        script: Some(
            "servers = [1, 2, 3]\n\
            [[command]]\n\
            at_ns = 500\n\
            do = \"move\"\n\
            bucket = 4\n\
            server = 3\n\
            [[command]]\n\
            at_ns = 600\n\
            do = \"move\"\n\
            bucket = 4\n\
            server = 1\n",
        ),
        status: 0,
        text: "1 steer 1 0 0 4\n\
             2 arrive 1 direct 2 accept\n\
             501 publish 1\n\
             502 switch 0 1\n\
             601 publish 2\n\
             602 switch 0 2\n\
             1001 steer 2 0 2 4\n\
             1002 arrive 2 direct 1 forward 3\n\
             1003 arrive 2 chained 3 forward 2\n\
             1004 arrive 2 twice 2 process advance\n\
             packet 1 accepted 2\n\
             packet 2 processed 2\n\
             total packets 2 steered 2 unsteered 0 accepted 1 processed 1 \
             forwarded 2 reset 0 dropped 0 lost 0 stray 0\n",
    },
    Row {
        name: "a bucket moves three times",
        form: Micro,
        packets: OPENED,
        script: Some(
            "servers = [1, 2, 3]\n\
            [[command]]\n\
            at_ns = 500\n\
            do = \"move\"\n\
            bucket = 4\n\
            server = 3\n\
            [[command]]\n\
            at_ns = 600\n\
            do = \"move\"\n\
            bucket = 4\n\
            server = 1\n\
            [[command]]\n\
            at_ns = 700\n\
            do = \"move\"\n\
            bucket = 4\n\
            server = 3\n",
        ),
        status: 0,
        text: "1 steer 1 0 0 4\n\
             2 arrive 1 direct 2 accept\n\
             501 publish 1\n\
             502 switch 0 1\n\
             601 publish 2\n\
             602 switch 0 2\n\
             701 publish 3\n\
             702 switch 0 3\n\
             1001 steer 2 0 3 4\n\
             1002 arrive 2 direct 3 forward 1\n\
             1003 arrive 2 chained 1 forward 3\n\
             1004 arrive 2 twice 3 reset chained-unknown because moved-thrice\n\
             packet 1 accepted 2\n\
             packet 2 reset 3\n\
             total packets 2 steered 2 unsteered 0 accepted 1 processed 0 \
             forwarded 2 reset 1 dropped 0 lost 0 stray 0\n",
    },
    Row {
        name: "a copy that was chained is late for the server before",
        form: Nano,
        packets: &[
            Packet(0, 0, 1000, 100, Syn),
            Packet(1, 600, 1000, 101, Data),
        ],
        script: Some(
            "servers = [1, 2, 3]\n\
            timeout_s = 1\n\
            [[command]]\n\
            at_ns = 500\n\
            do = \"move\"\n\
            bucket = 4\n\
            server = 3\n\
            [[command]]\n\
            at_ns = 900000000\n\
            do = \"move\"\n\
            bucket = 4\n\
            server = 1\n",
        ),
        status: 0,
        text: "1 steer 1 0 0 4\n\
             2 arrive 1 direct 2 accept\n\
             501 publish 1\n\
             502 switch 0 1\n\
             900000001 publish 2\n\
             900000002 switch 0 2\n\
             1000000601 steer 2 0 2 4\n\
             1000000602 arrive 2 direct 1 forward 3\n\
             1000000603 arrive 2 chained 3 reset chain-expired because chain-late\n\
             packet 1 accepted 2\n\
             packet 2 reset 3\n\
             total packets 2 steered 2 unsteered 0 accepted 1 processed 0 \
             forwarded 1 reset 1 dropped 0 lost 0 stray 0\n",
    },
    Row {
        name: "a bucket moves away and back",
        form: Micro,
        packets: OPENED,
        script: Some(
            "[[command]]\n\
            at_ns = 500\n\
            do = \"move\"\n\
            bucket = 4\n\
            server = 2\n\
            [[command]]\n\
            at_ns = 600\n\
            do = \"move\"\n\
            bucket = 4\n\
            server = 1\n",
        ),
        status: 0,
        text: "1 steer 1 0 0 4\n\
             2 arrive 1 direct 1 accept\n\
             501 publish 1\n\
             502 switch 0 1\n\
             601 publish 2\n\
             602 switch 0 2\n\
             1001 steer 2 0 2 4\n\
             1002 arrive 2 direct 1 process advance\n\
             packet 1 accepted 1\n\
             packet 2 processed 1\n\
             total packets 2 steered 2 unsteered 0 accepted 1 processed 1 \
             forwarded 0 reset 0 dropped 0 lost 0 stray 0\n",
    },
    Row {
        name: "a mux is behind",
        form: Micro,
        packets: OPENED,
        script: Some(
            "muxes = 2\n\
            route = \"turn\"\n\
            lags_ns = [1000000, 0]\n\
            [[command]]\n\
            at_ns = 0\n\
            do = \"move\"\n\
            bucket = 4\n\
            server = 2\n",
        ),
        status: 0,
        text: "1 publish 1\n\
             2 switch 1 1\n\
             3 steer 1 1 1 4\n\
             4 arrive 1 direct 2 accept\n\
             1001 steer 2 0 0 4\n\
             1002 arrive 2 direct 1 reset no-previous because stale-mux\n\
             1000001 switch 0 1\n\
             packet 1 accepted 2\n\
             packet 2 reset 1\n\
             total packets 2 steered 2 unsteered 0 accepted 1 processed 0 \
             forwarded 0 reset 1 dropped 0 lost 0 stray 0\n",
    },
    Row {
        name: "data comes before its SYN, and its forward is late",
        form: Micro,
        packets: &[Packet(0, 0, 1000, 101, Data), Packet(0, 1, 1000, 100, Syn)],
        script: Some(
            "[[fault]]\n\
            packet = 1\n\
            hop = \"chained\"\n\
            copies = 1\n\
            delay_ns = 5000\n\
            [[command]]\n\
            at_ns = 0\n\
            do = \"move\"\n\
            bucket = 4\n\
            server = 2\n",
        ),
        status: 0,
        text: "1 publish 1\n\
             2 switch 0 1\n\
             3 steer 1 0 1 4\n\
             4 arrive 1 direct 2 forward 1\n\
             1001 steer 2 0 1 4\n\
             1002 arrive 2 direct 2 accept\n\
             5005 arrive 1 chained 1 reset chained-unknown because never-accepted\n\
             packet 1 reset 1\n\
             packet 2 accepted 2\n\
             total packets 2 steered 2 unsteered 0 accepted 1 processed 0 \
             forwarded 1 reset 1 dropped 0 lost 0 stray 0\n",
    },
];
