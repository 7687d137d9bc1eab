//! Tests of `bm_drawing`: drawings of connections.
use bm_base::{Capture, Flow, List, Moment, ServerId, Text, Version};
use bm_connections::{Break, Clock, Connection, Ending, Sight, Tally};
use bm_core::{Cause, Event, History, Stage, Verdict, What, Why};
use bm_drawing::drawing;
use bm_table::{Plan, Script, Setting};
use std::alloc::Global;
use std::process::Abort;

/// Three changes, and a sync, which isn't drawn.
static EVENTS: [Event; 4] = [
    Event {
        clock: Moment(500_000_001),
        what: What::Publish(Version(1)),
    },
    Event {
        clock: Moment(500_000_003),
        what: What::Publish(Version(2)),
    },
    Event {
        clock: Moment(700_000_000),
        what: What::Publish(Version(3)),
    },
    Event {
        clock: Moment(9_000_000_000),
        what: What::Sync,
    },
];

/// A connection that breaks, one that is refused, and one that is whole.
static TABLE: [Connection; 3] = [
    Connection {
        flow: Flow {
            src: 0x0a00_0001,
            dst: 0xc000_0201,
            sport: 1000,
            dport: 80,
        },
        first: Sight {
            number: 1,
            moment: Moment(0),
        },
        last: Sight {
            number: 4,
            moment: Moment(1_999_999_998),
        },
        ending: Ending::Fin,
        server: Some(ServerId(1)),
        tally: Tally {
            accepted: 1,
            processed: 0,
            forwarded: 0,
            reset: 1,
            dropped: 0,
            stray: 0,
            after_its_end: 0,
        },
        forwarded: None,
        broken: Some(Break {
            packet: 4,
            clock: Moment(2_000_000_000),
            server: ServerId(2),
            verdict: Verdict::Reset(Why::ChainExpired),
            cause: Some(Cause::ChainLate),
        }),
        refused: None,
        losing_data: false,
    },
    Connection {
        flow: Flow {
            src: 0x0a00_0001,
            dst: 0xc000_0201,
            sport: 1002,
            dport: 80,
        },
        first: Sight {
            number: 2,
            moment: Moment(250_000_000),
        },
        last: Sight {
            number: 2,
            moment: Moment(250_000_000),
        },
        ending: Ending::Fin,
        server: None,
        tally: Tally {
            accepted: 0,
            processed: 0,
            forwarded: 0,
            reset: 0,
            dropped: 1,
            stray: 0,
            after_its_end: 0,
        },
        forwarded: None,
        broken: None,
        refused: Some(Break {
            packet: 2,
            clock: Moment(250_000_002),
            server: ServerId(1),
            verdict: Verdict::Drop(Why::Full),
            cause: Some(Cause::Full),
        }),
        losing_data: false,
    },
    Connection {
        flow: Flow {
            src: 0x0a00_0001,
            dst: 0xc000_0201,
            sport: 1004,
            dport: 80,
        },
        first: Sight {
            number: 3,
            moment: Moment(300_000_000),
        },
        last: Sight {
            number: 5,
            moment: Moment(600_000_000),
        },
        ending: Ending::Fin,
        server: Some(ServerId(9)),
        tally: Tally {
            accepted: 1,
            processed: 1,
            forwarded: 0,
            reset: 0,
            dropped: 0,
            stray: 0,
            after_its_end: 0,
        },
        forwarded: None,
        broken: None,
        refused: None,
        losing_data: false,
    },
];

/// The legend without its servers: what grey, the marks and the dashes mean.
static LEGEND: &str = "<g stroke-width='4' stroke-linecap='round'>\n\
     <g stroke='#bbbbbb'><line x1='40' y1='20' x2='60' y2='20'/>\
     <text x='68' y='24' stroke='none'>accepted by no server</text></g>\n\
     <g stroke='#555555'><line x1='206' y1='20' x2='236' y2='20'/>\
     <g stroke='#ffffff' stroke-width='2' stroke-dasharray='3 3' stroke-linecap='butt'>\
     <line x1='206' y1='20' x2='236' y2='20'/></g>\
     <text x='244' y='24' stroke='none'>forwarded to the server before</text></g>\n\
     <circle cx='424' cy='20' r='4' fill='#e0001b' stroke='#ffffff' stroke-width='1'/>\
     <text x='434' y='24' stroke='none'>broken</text>\n\
     <circle cx='498' cy='20' r='3' fill='#ffffff' stroke='#e0001b' stroke-width='2'/>\
     <text x='508' y='24' stroke='none'>refused</text>\n\
     <g stroke='#000000' stroke-width='1' stroke-dasharray='4 2'>\
     <line x1='584' y1='12' x2='584' y2='28'/>\
     <text x='592' y='24' stroke='none'>change of the table</text></g>\n";

/// Servers 1 and 9, a tick every half second, the changes, which the plan doesn't have, and the
/// connections.
static TEXT: &str = "<g stroke='#0072b2'><line x1='40' y1='38' x2='60' y2='38'/>\
     <text x='68' y='42' stroke='none'>server 1</text></g>\n\
     <g stroke='#00cfcf'><line x1='165' y1='38' x2='185' y2='38'/>\
     <text x='193' y='42' stroke='none'>server 9</text></g>\n\
     </g>\n\
     <text x='40' y='72' stroke='none'>seconds after record 1</text>\n\
     <g text-anchor='middle'>\n\
     <g stroke='#dddddd'><line x1='40' y1='96' x2='40' y2='194'/>\
     <text x='40' y='90' stroke='none'>0.000 s</text>\
     <text x='40' y='206' stroke='none'>0.000 s</text></g>\n\
     <g stroke='#dddddd'><line x1='290' y1='96' x2='290' y2='194'/>\
     <text x='290' y='90' stroke='none'>0.500 s</text>\
     <text x='290' y='206' stroke='none'>0.500 s</text></g>\n\
     <g stroke='#dddddd'><line x1='540' y1='96' x2='540' y2='194'/>\
     <text x='540' y='90' stroke='none'>1.000 s</text>\
     <text x='540' y='206' stroke='none'>1.000 s</text></g>\n\
     <g stroke='#dddddd'><line x1='790' y1='96' x2='790' y2='194'/>\
     <text x='790' y='90' stroke='none'>1.500 s</text>\
     <text x='790' y='206' stroke='none'>1.500 s</text></g>\n\
     <g stroke='#dddddd'><line x1='1040' y1='96' x2='1040' y2='194'/>\
     <text x='1040' y='90' stroke='none'>2.000 s</text>\
     <text x='1040' y='206' stroke='none'>2.000 s</text></g>\n\
     <g stroke='#000000' stroke-width='1' stroke-dasharray='4 2' font-weight='bold'>\
     <title>change 1 at 0.500000001 change buckets 0 of 8</title>\
     <line x1='290' y1='138' x2='290' y2='188'/>\
     <text x='290' y='134' stroke='none'>change</text>\
     <text x='290' y='222' stroke='none'>change</text></g>\n\
     <g stroke='#000000' stroke-width='1' stroke-dasharray='4 2' font-weight='bold'>\
     <title>change 2 at 0.500000003 change buckets 0 of 8</title>\
     <line x1='290' y1='138' x2='290' y2='188'/>\
     <text x='290' y='122' stroke='none'>change</text>\
     <text x='290' y='234' stroke='none'>change</text></g>\n\
     <g stroke='#000000' stroke-width='1' stroke-dasharray='4 2' font-weight='bold'>\
     <title>change 3 at 0.700000000 change buckets 0 of 8</title>\
     <line x1='390' y1='138' x2='390' y2='188'/>\
     <text x='390' y='134' stroke='none'>change</text>\
     <text x='390' y='222' stroke='none'>change</text></g>\n\
     </g>\n\
     <g stroke-width='4' stroke-linecap='round'>\n\
     <g stroke='#0072b2' fill='#0072b2'>\
     <title>client 10.0.0.1:1000 service 192.0.2.1:80 server 1 opened 0.000000000 last \
     1.999999998 broken 4 reset chain-expired because chain-late at 2.000000000\
     </title><line x1='40' y1='152' x2='1039' y2='152'/>\
     <circle cx='1040' cy='152' r='4' fill='#e0001b' stroke='#ffffff' stroke-width='1'/>\
     </g>\n\
     <g stroke='#bbbbbb' fill='#bbbbbb'>\
     <title>client 10.0.0.1:1002 service 192.0.2.1:80 server none opened 0.250000000 last \
     0.250000000 refused 2 drop full because full at 0.250000002\
     </title><line x1='165' y1='164' x2='165' y2='164'/>\
     <circle cx='165' cy='164' r='3' fill='#ffffff' stroke='#e0001b' stroke-width='2'/>\
     </g>\n\
     <g stroke='#00cfcf' fill='#00cfcf'>\
     <title>client 10.0.0.1:1004 service 192.0.2.1:80 server 9 opened 0.300000000 last \
     0.600000000 whole\
     </title><line x1='190' y1='176' x2='340' y2='176'/></g>\n\
     </g>\n\
     </svg>\n";

/// A connection that no server accepts, ten microseconds long.
static SHORT: [Connection; 1] = [Connection {
    flow: Flow {
        src: 0x0a00_0001,
        dst: 0xc000_0201,
        sport: 1006,
        dport: 80,
    },
    first: Sight {
        number: 1,
        moment: Moment(0),
    },
    last: Sight {
        number: 2,
        moment: Moment(10_000),
    },
    ending: Ending::Fin,
    server: None,
    tally: Tally {
        accepted: 0,
        processed: 0,
        forwarded: 0,
        reset: 0,
        dropped: 0,
        stray: 0,
        after_its_end: 0,
    },
    forwarded: None,
    broken: None,
    refused: None,
    losing_data: false,
}];

/// Ticks of two microseconds, and the connection.
static UNACCEPTED: &str = "</g>\n\
     <text x='40' y='54' stroke='none'>seconds after record 1</text>\n\
     <g text-anchor='middle'>\n\
     <g stroke='#dddddd'><line x1='40' y1='78' x2='40' y2='152'/>\
     <text x='40' y='72' stroke='none'>0.000000 s</text>\
     <text x='40' y='164' stroke='none'>0.000000 s</text></g>\n\
     <g stroke='#dddddd'><line x1='240' y1='78' x2='240' y2='152'/>\
     <text x='240' y='72' stroke='none'>0.000002 s</text>\
     <text x='240' y='164' stroke='none'>0.000002 s</text></g>\n\
     <g stroke='#dddddd'><line x1='440' y1='78' x2='440' y2='152'/>\
     <text x='440' y='72' stroke='none'>0.000004 s</text>\
     <text x='440' y='164' stroke='none'>0.000004 s</text></g>\n\
     <g stroke='#dddddd'><line x1='640' y1='78' x2='640' y2='152'/>\
     <text x='640' y='72' stroke='none'>0.000006 s</text>\
     <text x='640' y='164' stroke='none'>0.000006 s</text></g>\n\
     <g stroke='#dddddd'><line x1='840' y1='78' x2='840' y2='152'/>\
     <text x='840' y='72' stroke='none'>0.000008 s</text>\
     <text x='840' y='164' stroke='none'>0.000008 s</text></g>\n\
     <g stroke='#dddddd'><line x1='1040' y1='78' x2='1040' y2='152'/>\
     <text x='1040' y='72' stroke='none'>0.000010 s</text>\
     <text x='1040' y='164' stroke='none'>0.000010 s</text></g>\n\
     </g>\n\
     <g stroke-width='4' stroke-linecap='round'>\n\
     <g stroke='#bbbbbb' fill='#bbbbbb'>\
     <title>client 10.0.0.1:1006 service 192.0.2.1:80 server none opened 0.000000000 last \
     0.000010000 unaccepted\
     </title><line x1='40' y1='134' x2='1040' y2='134'/></g>\n\
     </g>\n\
     </svg>\n";

/// One tick, in UTC.
static EMPTY: &str = "</g>\n\
     <text x='40' y='54' stroke='none'>UTC; record 1 at 2026-11-27T21:02:04.330000000Z\
     </text>\n\
     <g text-anchor='middle'>\n\
     <g stroke='#dddddd'><line x1='40' y1='78' x2='40' y2='140'/>\
     <text x='40' y='72' stroke='none'>21:02:04.330000000</text>\
     <text x='40' y='152' stroke='none'>21:02:04.330000000</text></g>\n\
     </g>\n\
     <g stroke-width='4' stroke-linecap='round'>\n\
     </g>\n\
     </svg>\n";

/// The history is boxed: what owns it drops one value, not each field.
fn history(rt: &impl Abort, alloc: Global, events: &[Event]) -> Box<History> {
    let script = Script {
        setting: Setting::plain(alloc).expect(rt, "memory"),
        plan: Plan::new(alloc, 8, &[ServerId(1), ServerId(2)]).expect(rt, "memory"),
        commands: List::of(Vec::new(alloc)),
    };
    let records = List::of(Vec::new(alloc));
    let capture = Capture { records, cut: None };
    let stage = Stage { script, capture };
    let events = List::of(Vec::from_slice(alloc, events).expect(rt, "memory"));
    Box::new(alloc, History { stage, events }).expect(rt, "memory")
}

/// The drawing of these connections in a history of these events.
fn draw(
    rt: &impl Abort,
    alloc: Global,
    clock: Option<u64>,
    events: &[Event],
    table: &[Connection],
) -> Text {
    let h = history(rt, alloc, events);
    drawing(alloc, Clock(clock), &h, table).expect(rt, "memory")
}

/// A drawing of this height, with this text after the legend.
fn drawn(rt: &impl Abort, alloc: Global, height: u32, text: &str) -> String {
    let mut all = format!(in alloc;
        "<svg xmlns='http://www.w3.org/2000/svg' version='1.1' width='1080' height='{height}' \
         viewBox='0 0 1080 {height}' font-family='sans-serif' font-size='11'>\n\
         <title>connections</title>\n\
         <rect width='1080' height='{height}' fill='#ffffff'/>\n"
    )
    .expect(rt, "memory");
    all.push_str(LEGEND).expect(rt, "memory");
    all.push_str(text).expect(rt, "memory");
    all
}

fn assert_same(rt: &impl Abort, text: &str, want: &str) {
    assert_eq!(rt; text, want);
}

#[test]
fn connections_and_changes_are_drawn(rt: HostRuntime) {
    let text = draw(&rt, rt.alloc(), None, &EVENTS, &TABLE);
    let want = drawn(&rt, rt.alloc(), 254, TEXT);
    assert_same(&rt, text.as_str(), &want);
}

#[test]
fn microseconds_and_an_unaccepted_connection_are_drawn(rt: HostRuntime) {
    let text = draw(&rt, rt.alloc(), None, &[], &SHORT);
    let want = drawn(&rt, rt.alloc(), 212, UNACCEPTED);
    assert_same(&rt, text.as_str(), &want);
}

#[test]
fn nothing_is_drawn_where_there_is_nothing(rt: HostRuntime) {
    let text = draw(&rt, rt.alloc(), Some(1_795_813_324_330_000_000), &[], &[]);
    let want = drawn(&rt, rt.alloc(), 200, EMPTY);
    assert_same(&rt, text.as_str(), &want);
}
