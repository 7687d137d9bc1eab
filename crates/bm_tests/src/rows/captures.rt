//! Captures that are replayed without a script.
use crate::capture::Form::{Micro, Turned};
use crate::capture::Kind::{Data, Fin, Rst, Syn};
use crate::capture::{OPENED, Packet};
use crate::program::Row;

/// What is written for `OPENED` without changes.
pub(crate) const OPENED_REPORT: &str = "1 steer 1 0 0 4\n\
     2 arrive 1 direct 1 accept\n\
     1001 steer 2 0 0 4\n\
     1002 arrive 2 direct 1 process advance\n\
     packet 1 accepted 1\n\
     packet 2 processed 1\n\
     total packets 2 steered 2 unsteered 0 accepted 1 processed 1 \
     forwarded 0 reset 0 dropped 0 lost 0 stray 0\n";

pub(crate) static CAPTURES: [Row; 8] = [
    Row {
        name: "a SYN and a data packet",
        form: Micro,
        packets: OPENED,
        script: None,
        status: 0,
        text: OPENED_REPORT,
    },
    Row {
        name: "a capture without records",
        form: Micro,
        packets: &[],
        script: None,
        status: 0,
        text: "total packets 0 steered 0 unsteered 0 accepted 0 processed 0 \
             forwarded 0 reset 0 dropped 0 lost 0 stray 0\n",
    },
    Row {
        name: "eight flows open in eight buckets",
        form: Micro,
        packets: &[
            Packet(0, 0, 1000, 100, Syn),
            Packet(0, 1, 1001, 100, Syn),
            Packet(0, 2, 1002, 100, Syn),
            Packet(0, 3, 1003, 100, Syn),
            Packet(0, 4, 1004, 100, Syn),
            Packet(0, 5, 1005, 100, Syn),
            Packet(0, 6, 1006, 100, Syn),
            Packet(0, 7, 1007, 100, Syn),
        ],
        script: None,
        status: 0,
        text: "1 steer 1 0 0 4\n\
             2 arrive 1 direct 1 accept\n\
             1001 steer 2 0 0 1\n\
             1002 arrive 2 direct 2 accept\n\
             2001 steer 3 0 0 6\n\
             2002 arrive 3 direct 1 accept\n\
             3001 steer 4 0 0 3\n\
             3002 arrive 4 direct 2 accept\n\
             4001 steer 5 0 0 0\n\
             4002 arrive 5 direct 1 accept\n\
             5001 steer 6 0 0 5\n\
             5002 arrive 6 direct 2 accept\n\
             6001 steer 7 0 0 2\n\
             6002 arrive 7 direct 1 accept\n\
             7001 steer 8 0 0 7\n\
             7002 arrive 8 direct 2 accept\n\
             packet 1 accepted 1\n\
             packet 2 accepted 2\n\
             packet 3 accepted 1\n\
             packet 4 accepted 2\n\
             packet 5 accepted 1\n\
             packet 6 accepted 2\n\
             packet 7 accepted 1\n\
             packet 8 accepted 2\n\
             total packets 8 steered 8 unsteered 0 accepted 8 processed 0 \
             forwarded 0 reset 0 dropped 0 lost 0 stray 0\n",
    },
    Row {
        name: "data of a connection that was never accepted",
        form: Micro,
        packets: &[Packet(0, 0, 1001, 101, Data)],
        script: None,
        status: 0,
        text: "1 steer 1 0 0 1\n\
             2 arrive 1 direct 2 reset no-previous because never-accepted\n\
             packet 1 reset 2\n\
             total packets 1 steered 1 unsteered 0 accepted 0 processed 0 \
             forwarded 0 reset 1 dropped 0 lost 0 stray 0\n",
    },
    Row {
        name: "resets outside the window, in it, and in turn",
        form: Micro,
        packets: &[
            Packet(0, 0, 1000, 100, Syn),
            Packet(0, 1, 1000, 66_000, Rst),
            Packet(0, 2, 1000, 102, Rst),
            Packet(0, 3, 1000, 101, Rst),
            Packet(0, 4, 1000, 101, Data),
            Packet(0, 5, 1000, 101, Rst),
        ],
        script: None,
        status: 0,
        text: "1 steer 1 0 0 4\n\
             2 arrive 1 direct 1 accept\n\
             1001 steer 2 0 0 4\n\
             1002 arrive 2 direct 1 process outside\n\
             2001 steer 3 0 0 4\n\
             2002 arrive 3 direct 1 process challenge\n\
             3001 steer 4 0 0 4\n\
             3002 arrive 4 direct 1 process ended\n\
             4001 steer 5 0 0 4\n\
             4002 arrive 5 direct 1 reset no-previous because not-held\n\
             5001 steer 6 0 0 4\n\
             5002 arrive 6 direct 1 drop silent because not-held\n\
             packet 1 accepted 1\n\
             packet 2 processed 1\n\
             packet 3 processed 1\n\
             packet 4 processed 1\n\
             packet 5 reset 1\n\
             packet 6 dropped 1\n\
             total packets 6 steered 6 unsteered 0 accepted 1 processed 3 \
             forwarded 0 reset 1 dropped 1 lost 0 stray 0\n",
    },
    Row {
        name: "sequence numbers that wrap, and a finished connection that is replaced",
        form: Micro,
        packets: &[
            Packet(0, 0, 1000, 4_294_967_290, Syn),
            Packet(0, 1, 1000, 4_294_967_291, Data),
            Packet(0, 2, 1000, 5, Fin),
            Packet(0, 3, 1000, 1000, Syn),
            Packet(0, 4, 1000, 2000, Syn),
        ],
        script: None,
        status: 0,
        text: "1 steer 1 0 0 4\n\
             2 arrive 1 direct 1 accept\n\
             1001 steer 2 0 0 4\n\
             1002 arrive 2 direct 1 process advance\n\
             2001 steer 3 0 0 4\n\
             2002 arrive 3 direct 1 process advance\n\
             3001 steer 4 0 0 4\n\
             3002 arrive 4 direct 1 accept\n\
             4001 steer 5 0 0 4\n\
             4002 arrive 5 direct 1 process challenge\n\
             packet 1 accepted 1\n\
             packet 2 processed 1\n\
             packet 3 processed 1\n\
             packet 4 accepted 1\n\
             packet 5 processed 1\n\
             total packets 5 steered 5 unsteered 0 accepted 2 processed 3 \
             forwarded 0 reset 0 dropped 0 lost 0 stray 0\n",
    },
    Row {
        name: "two packets of one moment",
        form: Micro,
        packets: &[Packet(0, 0, 1000, 100, Syn), Packet(0, 0, 1000, 101, Data)],
        script: None,
        status: 0,
        text: "1 steer 1 0 0 4\n\
             2 steer 2 0 0 4\n\
             3 arrive 1 direct 1 accept\n\
             4 arrive 2 direct 1 process advance because never-accepted\n\
             packet 1 accepted 1\n\
             packet 2 processed 1\n\
             total packets 2 steered 2 unsteered 0 accepted 1 processed 1 \
             forwarded 0 reset 0 dropped 0 lost 0 stray 1\n",
    },
    Row {
        name: "the other byte order",
        form: Turned,
        packets: OPENED,
        script: None,
        status: 0,
        text: OPENED_REPORT,
    },
];
