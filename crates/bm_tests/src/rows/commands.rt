//! Commands, and copies that are lost, late or repeated.
use crate::capture::Form::{Micro, Nano};
use crate::capture::Kind::{Data, Syn};
use crate::capture::{OPENED, Packet};
use crate::program::Row;

pub(crate) static COMMANDS: [Row; 8] = [
    Row {
        name: "two servers hold a connection",
        form: Micro,
        packets: &[
            Packet(0, 0, 1000, 100, Syn),
            Packet(0, 1, 1000, 100, Syn),
            Packet(0, 2, 1000, 101, Data),
        ],
        script: Some(
            "[[command]]\n\
            at_ns = 500\n\
            do = \"move\"\n\
            bucket = 4\n\
            server = 2\n\
            [[command]]\n\
            at_ns = 1500\n\
            do = \"move\"\n\
            bucket = 4\n\
            server = 1\n",
        ),
        status: 0,
        text: "1 steer 1 0 0 4\n\
             2 arrive 1 direct 1 accept\n\
             501 publish 1\n\
             502 switch 0 1\n\
             1001 steer 2 0 1 4\n\
             1002 arrive 2 direct 2 accept\n\
             1501 publish 2\n\
             1502 switch 0 2\n\
             2001 steer 3 0 2 4\n\
             2002 arrive 3 direct 1 process advance because syn-elsewhere\n\
             packet 1 accepted 1\n\
             packet 2 accepted 2\n\
             packet 3 processed 1\n\
             total packets 3 steered 3 unsteered 0 accepted 2 processed 1 \
             forwarded 0 reset 0 dropped 0 lost 0 stray 1\n",
    },
    Row {
        name: "a server is added and another drained",
        form: Micro,
        packets: &[],
        script: Some(
            "[[command]]\n\
            at_ns = 500\n\
            do = \"add\"\n\
            server = 3\n\
            [[command]]\n\
            at_ns = 600\n\
            do = \"drain\"\n\
            server = 1\n",
        ),
        status: 0,
        text: "501 publish 1\n\
             502 switch 0 1\n\
             601 publish 2\n\
             602 switch 0 2\n\
             total packets 0 steered 0 unsteered 0 accepted 0 processed 0 \
             forwarded 0 reset 0 dropped 0 lost 0 stray 0\n",
    },
    Row {
        name: "servers retire when they may",
        form: Nano,
        packets: &[
            Packet(0, 0, 1000, 100, Syn),
            Packet(0, 1000, 1000, 101, Data),
        ],
        script: Some(
            "shards = 1\n\
            timeout_s = 1\n\
            [[fault]]\n\
            packet = 2\n\
            hop = \"direct\"\n\
            copies = 1\n\
            delay_ns = 3000000000\n\
            [[command]]\n\
            at_ns = 500\n\
            do = \"move\"\n\
            bucket = 4\n\
            server = 2\n\
            [[command]]\n\
            at_ns = 2000\n\
            do = \"drain\"\n\
            server = 2\n\
            [[command]]\n\
            at_ns = 3000\n\
            do = \"retire\"\n\
            server = 2\n\
            [[command]]\n\
            at_ns = 4000\n\
            do = \"retire\"\n\
            server = 1\n\
            [[command]]\n\
            at_ns = 2000000000\n\
            do = \"retire\"\n\
            server = 2\n",
        ),
        status: 0,
        text: "1 steer 1 0 0 4\n\
             2 arrive 1 direct 1 accept\n\
             501 publish 1\n\
             502 switch 0 1\n\
             1001 steer 2 0 1 4\n\
             2001 publish 2\n\
             2002 switch 0 2\n\
             3001 retire 2 0 at 3000 too-early 1\n\
             4001 retire 1 0 at 4000 not-drained\n\
             2000000001 retire 2 0 at 2000000000 done\n\
             3000001002 arrive 2 direct 2 drop retired because chain-late\n\
             packet 1 accepted 1\n\
             packet 2 dropped 2\n\
             total packets 2 steered 2 unsteered 0 accepted 1 processed 0 \
             forwarded 0 reset 0 dropped 1 lost 0 stray 0\n",
    },
    Row {
        name: "copies are lost and repeated",
        form: Micro,
        packets: &[
            Packet(0, 0, 1000, 100, Syn),
            Packet(0, 1, 1000, 101, Data),
            Packet(0, 2, 1000, 101, Data),
        ],
        script: Some(
            "[[fault]]\n\
            packet = 2\n\
            hop = \"direct\"\n\
            copies = 0\n\
            delay_ns = 0\n\
            [[fault]]\n\
            packet = 3\n\
            hop = \"direct\"\n\
            copies = 3\n\
            delay_ns = 0\n",
        ),
        status: 0,
        text: "1 steer 1 0 0 4\n\
             2 arrive 1 direct 1 accept\n\
             1001 steer 2 0 0 4\n\
             1002 lost 2 direct\n\
             2001 steer 3 0 0 4\n\
             2002 arrive 3 direct 1 process advance\n\
             2003 arrive 3 direct 1 process duplicate\n\
             2004 arrive 3 direct 1 process duplicate\n\
             packet 1 accepted 1\n\
             packet 2 lost\n\
             packet 3 processed 1 processed 1 processed 1\n\
             total packets 3 steered 3 unsteered 0 accepted 1 processed 3 \
             forwarded 0 reset 0 dropped 0 lost 1 stray 0\n",
    },
    Row {
        name: "a shard is full",
        form: Micro,
        packets: &[Packet(0, 0, 1000, 100, Syn), Packet(0, 1, 1002, 100, Syn)],
        script: Some(
            "shards = 1\n\
            capacity = 1\n",
        ),
        status: 0,
        text: "1 steer 1 0 0 4\n\
             2 arrive 1 direct 1 accept\n\
             1001 steer 2 0 0 6\n\
             1002 arrive 2 direct 1 drop full because full\n\
             packet 1 accepted 1\n\
             packet 2 dropped 1\n\
             total packets 2 steered 2 unsteered 0 accepted 1 processed 0 \
             forwarded 0 reset 0 dropped 1 lost 0 stray 0\n",
    },
    Row {
        name: "a connection is closed once",
        form: Micro,
        packets: OPENED,
        script: Some(
            "[[command]]\n\
            at_ns = 500\n\
            do = \"close\"\n\
            server = 1\n\
            from = \"10.0.0.1:1000\"\n\
            to = \"192.0.2.1:80\"\n\
            [[command]]\n\
            at_ns = 600\n\
            do = \"close\"\n\
            server = 1\n\
            from = \"10.0.0.1:1000\"\n\
            to = \"192.0.2.1:80\"\n",
        ),
        status: 0,
        text: "1 steer 1 0 0 4\n\
             2 arrive 1 direct 1 accept\n\
             501 close 1 10.0.0.1:1000 192.0.2.1:80 closed\n\
             601 close 1 10.0.0.1:1000 192.0.2.1:80 none\n\
             1001 steer 2 0 0 4\n\
             1002 arrive 2 direct 1 reset no-previous because not-held\n\
             packet 1 accepted 1\n\
             packet 2 reset 1\n\
             total packets 2 steered 2 unsteered 0 accepted 1 processed 0 \
             forwarded 0 reset 1 dropped 0 lost 0 stray 0\n",
    },
    Row {
        name: "a SYN comes to a retired server",
        form: Micro,
        packets: &[Packet(0, 0, 1000, 100, Syn)],
        script: Some(
            "shards = 1\n\
            timeout_s = 1\n\
            [[fault]]\n\
            packet = 1\n\
            hop = \"direct\"\n\
            copies = 1\n\
            delay_ns = 3000000000\n\
            [[command]]\n\
            at_ns = 500\n\
            do = \"drain\"\n\
            server = 1\n\
            [[command]]\n\
            at_ns = 2000000000\n\
            do = \"retire\"\n\
            server = 1\n",
        ),
        status: 0,
        text: "1 steer 1 0 0 4\n\
             501 publish 1\n\
             502 switch 0 1\n\
             2000000001 retire 1 0 at 2000000000 done\n\
             3000000002 arrive 1 direct 1 drop retired because old-table\n\
             packet 1 dropped 1\n\
             total packets 1 steered 1 unsteered 0 accepted 0 processed 0 \
             forwarded 0 reset 0 dropped 1 lost 0 stray 0\n",
    },
    Row {
        name: "a sync",
        form: Micro,
        packets: &[],
        script: Some(
            "[[command]]\n\
            at_ns = 500\n\
            do = \"sync\"\n",
        ),
        status: 0,
        text: "501 sync\n\
             total packets 0 steered 0 unsteered 0 accepted 0 processed 0 \
             forwarded 0 reset 0 dropped 0 lost 0 stray 0\n",
    },
];
