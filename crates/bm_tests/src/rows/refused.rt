//! Scripts that are refused.
use crate::capture::Form::Micro;
use crate::capture::OPENED;
use crate::program::Row;

pub(crate) static REFUSED: [Row; 10] = [
    Row {
        name: "an unknown key",
        form: Micro,
        packets: OPENED,
        script: Some("bucket = 8\n"),
        status: 4,
        text: "beamer: script: unknown key bucket\n",
    },
    Row {
        name: "no TOML",
        form: Micro,
        packets: OPENED,
        script: Some("buckets = \n"),
        status: 4,
        text: "beamer: script: not toml\n",
    },
    Row {
        name: "a value out of its range",
        form: Micro,
        packets: OPENED,
        script: Some("muxes = 65\n"),
        status: 4,
        text: "beamer: script: bad value of muxes\n",
    },
    Row {
        name: "a fault table without a key",
        form: Micro,
        packets: OPENED,
        script: Some(
            "[[fault]]\n\
            hop = \"direct\"\n\
            copies = 1\n\
            delay_ns = 0\n",
        ),
        status: 4,
        text: "beamer: script fault 1: missing packet\n",
    },
    Row {
        name: "the last server is drained",
        form: Micro,
        packets: OPENED,
        script: Some(
            "[[command]]\n\
            at_ns = 0\n\
            do = \"drain\"\n\
            server = 1\n\
            [[command]]\n\
            at_ns = 0\n\
            do = \"drain\"\n\
            server = 2\n",
        ),
        status: 4,
        text: "beamer: script command 2: last server\n",
    },
    Row {
        name: "a known server is added",
        form: Micro,
        packets: OPENED,
        script: Some(
            "[[command]]\n\
            at_ns = 0\n\
            do = \"add\"\n\
            server = 2\n",
        ),
        status: 4,
        text: "beamer: script command 1: known server\n",
    },
    Row {
        name: "an unknown server is retired",
        form: Micro,
        packets: OPENED,
        script: Some(
            "[[command]]\n\
            at_ns = 0\n\
            do = \"retire\"\n\
            server = 3\n",
        ),
        status: 4,
        text: "beamer: script command 1: unknown server\n",
    },
    Row {
        name: "a bucket stays where it is",
        form: Micro,
        packets: OPENED,
        script: Some(
            "[[command]]\n\
            at_ns = 0\n\
            do = \"move\"\n\
            bucket = 0\n\
            server = 1\n",
        ),
        status: 4,
        text: "beamer: script command 1: same server\n",
    },
    Row {
        name: "the last server of a rack is drained",
        form: Micro,
        packets: OPENED,
        script: Some(
            "version = 3\n\
            racks = 2\n\
            [[command]]\n\
            at_ns = 500\n\
            do = \"drain\"\n\
            server = 2\n",
        ),
        status: 4,
        text: "beamer: script command 1: last in rack\n",
    },
    Row {
        name: "a bucket is moved to another rack",
        form: Micro,
        packets: OPENED,
        script: Some(
            "version = 3\n\
            racks = 2\n\
            [[command]]\n\
            at_ns = 500\n\
            do = \"move\"\n\
            bucket = 4\n\
            server = 2\n",
        ),
        status: 4,
        text: "beamer: script command 1: wrong rack\n",
    },
];
