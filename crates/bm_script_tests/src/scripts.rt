//! Scripts, and what they are read as.
use bm_base::{Fate, Flow, Hop, Moment, ServerId, Version, Vip};
use bm_script::read_script;
use bm_table::{Command, FaultRow, Kind, Move, Plan, RouteKind, Script, Setting};
use std::alloc::Global;
use std::process::Abort;

mod commands;
mod rows;
mod top;

/// Whether this is wrong with the script; an empty text if nothing is.
fn has_verdict(alloc: Global, text: &[u8], want: &str) -> bool {
    match read_script(alloc, text) {
        Ok(_) => want.is_empty(),
        Err(fault) => match fault.to_string(alloc) {
            Ok(told) => told.as_str() == want,
            Err(_) => false,
        },
    }
}

/// Whether the row's script has the row's verdict. A row is a script, an arrow and what is wrong
/// with the script.
fn is_right(alloc: Global, row: &str) -> bool {
    match row.split_once(" -> ") {
        Some((text, want)) => has_verdict(alloc, text.as_bytes(), want),
        None => false,
    }
}

/// The rows from the first that isn't right. A semicolon ends a row and its line.
fn wrong_rows(alloc: Global, rows: &str) -> &str {
    let mut left = rows;
    for _ in 0..1_000u32 {
        let Some((row, rest)) = left.split_once(";\n") else {
            return left;
        };
        if !is_right(alloc, row) {
            return left;
        }
        left = rest;
    }
    left
}

fn assert_right(rt: &impl Abort, alloc: Global, rows: &str) {
    assert_eq!(rt; wrong_rows(alloc, rows), "");
}

#[test]
fn the_first_fault_is_named(rt: HostRuntime) {
    let alloc = rt.alloc();
    assert_right(&rt, alloc, top::TEXTS);
    assert_right(&rt, alloc, top::NUMBERS);
    assert_right(&rt, alloc, top::LISTS);
    assert_right(&rt, alloc, top::KEYS);
    assert_right(&rt, alloc, rows::ROWS);
    assert_right(&rt, alloc, commands::TABLES);
    assert_right(&rt, alloc, commands::REFUSALS);
    assert_right(&rt, alloc, top::WEIGHTS);
    assert_right(&rt, alloc, commands::WEIGHTS);
    assert_right(&rt, alloc, top::RACKS);
    assert_right(&rt, alloc, commands::RACKS);
}

/// A front, an item repeated, and an end.
fn repeated(
    rt: &impl Abort,
    alloc: Global,
    front: &str,
    item: &str,
    count: usize,
    end: &str,
) -> String {
    let mut text = String::from_str(alloc, front).expect(rt, "memory");
    for _ in 0..count {
        text.push_str(item).expect(rt, "memory");
    }
    text.push_str(end).expect(rt, "memory");
    text
}

/// A script with this many items has this verdict.
fn assert_limit(
    rt: &impl Abort,
    alloc: Global,
    front: &str,
    item: &str,
    count: usize,
    end: &str,
    want: &str,
) {
    let text = repeated(rt, alloc, front, item, count, end);
    assert!(rt;
        has_verdict(alloc, text.as_bytes(), want),
        "{count} times {item}"
    );
}

#[test]
fn limits_on_counts_hold(rt: HostRuntime) {
    let alloc = rt.alloc();
    let vip = "'192.0.2.1:80',";
    let bad_vips = "script: bad value of vips";
    assert_limit(&rt, alloc, "vips = [", vip, 64, "]", "");
    assert_limit(&rt, alloc, "vips = [", vip, 65, "]", bad_vips);
    assert_limit(&rt, alloc, "buckets = ", "[", 100, "", "script: not toml");
    let fault = "{packet=1,hop='direct',copies=1,delay_ns=0},";
    let bad_fault = "script: bad value of fault";
    assert_limit(&rt, alloc, "fault = [", fault, 4_096, "]", "");
    assert_limit(&rt, alloc, "fault = [", "{},", 4_097, "]", bad_fault);
    let front = "command = [";
    let sync = "{at_ns=0,do='sync'},";
    let bad_command = "script: bad value of command";
    assert_limit(&rt, alloc, front, sync, 65_536, "]", "");
    assert_limit(&rt, alloc, front, sync, 65_537, "]", bad_command);
    let missing = "script command 1: missing at_ns";
    assert_limit(&rt, alloc, front, "{},", 65_536, "]", missing);
    assert_limit(&rt, alloc, front, "{},", 65_537, "]", bad_command);
}

/// A front, the numbers from 1 to the last, and a bracket.
fn numbered(rt: &impl Abort, alloc: Global, front: &str, last: u32) -> String {
    let mut text = String::from_str(alloc, front).expect(rt, "memory");
    for before in 0..last {
        let number = format!(in alloc; "{},", before + 1).expect(rt, "memory");
        text.push_str(&number).expect(rt, "memory");
    }
    text.push_str("]").expect(rt, "memory");
    text
}

/// A script with this many servers has this verdict.
fn assert_servers(rt: &impl Abort, alloc: Global, front: &str, last: u32, want: &str) {
    let text = numbered(rt, alloc, front, last);
    assert!(rt; has_verdict(alloc, text.as_bytes(), want), "{last} servers");
}

#[test]
fn all_servers_may_stand_in_a_script(rt: HostRuntime) {
    let alloc = rt.alloc();
    let bad = "script: bad value of servers";
    assert_servers(&rt, alloc, "servers = [", 1_024, "");
    assert_servers(&rt, alloc, "servers = [", 1_025, bad);
}

#[test]
fn sixty_four_racks_may_be_filled(rt: HostRuntime) {
    let alloc = rt.alloc();
    let most = "version = 3\nbuckets = 65\nracks = 64\nservers = [";
    let more = "version = 3\nbuckets = 65\nracks = 65\nservers = [";
    assert_servers(&rt, alloc, most, 65, "");
    assert_servers(&rt, alloc, more, 65, "script: bad value of racks");
}

#[test]
fn other_octets_than_utf_8_are_no_toml(rt: HostRuntime) {
    let alloc = rt.alloc();
    for text in [[0x23, 0xff, 0x0a], [0x23, 0xc3, 0x0a], [0x23, 0x80, 0x0a]] {
        assert!(rt; has_verdict(alloc, &text, "script: not toml"));
    }
}

/// The numbers of a setting, in the order of their keys.
fn numbers_of(setting: &Setting) -> [u64; 5] {
    [
        u64::from(setting.buckets),
        u64::from(setting.muxes),
        u64::from(setting.shards),
        u64::from(setting.capacity),
        setting.timeout,
    ]
}

fn assert_lists(
    rt: &impl Abort,
    setting: &Setting,
    servers: &[ServerId],
    vips: &[Vip],
    lags: &[u64],
    faults: &[FaultRow],
) {
    assert!(rt; setting.servers.items() == servers);
    assert!(rt; setting.vips.items() == vips);
    assert!(rt; setting.lags.items() == lags);
    assert!(rt; setting.faults.items() == faults);
}

fn assert_plain(rt: &impl Abort, script: &Script) {
    let setting = &script.setting;
    assert!(rt; numbers_of(setting) == [8, 1, 4, 4_096, 240_000_000_000]);
    assert_lists(
        rt,
        setting,
        &[ServerId(1), ServerId(2)],
        &[Vip {
            addr: 0xc000_0201,
            port: 80,
        }],
        &[0],
        &[],
    );
    assert!(rt; setting.route == RouteKind::Port);
    assert!(rt; script.plan.versions() == 0);
    assert!(rt; script.commands.items().is_empty());
}

/// The script that this text is read as, boxed: a test that owns it drops one value, not each field.
fn read(rt: &impl Abort, alloc: Global, text: &str) -> Box<Script> {
    let script = read_script(alloc, text.as_bytes()).expect(rt, "a script");
    Box::new(alloc, script).expect(rt, "memory")
}

#[test]
fn keys_may_be_left_out(rt: HostRuntime) {
    for text in ["", "# nothing\n", "fault = []\ncommand = []\n"] {
        assert_plain(&rt, &read(&rt, rt.alloc(), text));
    }
}

fn row(packet: u32, hop: Hop, copies: u8) -> FaultRow {
    FaultRow {
        packet,
        hop,
        fate: Fate { copies, delay: 11 },
    }
}

#[test]
fn the_setting_is_what_the_keys_say(rt: HostRuntime) {
    let script = read(&rt, rt.alloc(), top::WHOLE);
    let setting = &script.setting;
    assert!(rt; numbers_of(setting) == [16, 2, 5, 6, 9_000_000_000]);
    assert_lists(
        &rt,
        setting,
        &[ServerId(3), ServerId(7)],
        &[Vip {
            addr: 0x0102_0304,
            port: 443,
        }],
        &[10, 20],
        &[row(9, Hop::Chained, 0), row(8, Hop::Direct, 3)],
    );
    assert!(rt; setting.route == RouteKind::Turn);
}

fn to(bucket: u32, server: u16) -> Move {
    Move {
        bucket,
        to: ServerId(server),
    }
}

fn assert_change(rt: &impl Abort, plan: &Plan, version: u32, at: u64, kind: Kind, moves: &[Move]) {
    match plan.next_change(Version(version)) {
        Some(change) => {
            assert!(rt; change.moment == Moment(at));
            assert!(rt; change.kind == kind);
            assert!(rt; change.moves.items() == moves);
        }
        None => assert!(rt; false, "no such change"),
    }
}

// 8 buckets on servers 1 and 2; server 3 is added at 500, server 1 is drained at 600, and more.
fn assert_plan(rt: &impl Abort, plan: &Plan) {
    assert!(rt; plan.versions() == 3);
    assert_change(
        rt,
        plan,
        0,
        500,
        Kind::Add(ServerId(3)),
        &[to(6, 3), to(7, 3)],
    );
    assert_change(
        rt,
        plan,
        1,
        600,
        Kind::Drain(ServerId(1)),
        &[to(0, 2), to(2, 3), to(4, 3)],
    );
    assert_change(rt, plan, 2, 700, Kind::Shift, &[to(5, 3)]);
}

fn assert_commands(rt: &impl Abort, commands: &[Command]) {
    let flow = Flow {
        src: 0x0a00_0001,
        dst: 0xc000_0201,
        sport: 1_000,
        dport: 80,
    };
    let want = [
        Command::Change(Version(1)),
        Command::Close {
            at: Moment(550),
            server: ServerId(1),
            flow,
        },
        Command::Change(Version(2)),
        Command::Retire {
            at: Moment(600),
            server: ServerId(1),
        },
        Command::Change(Version(3)),
        Command::Sync { at: Moment(700) },
    ];
    assert!(rt; commands == want.as_slice());
}

#[test]
fn commands_make_the_plan(rt: HostRuntime) {
    let script = read(&rt, rt.alloc(), commands::WHOLE);
    assert_plan(&rt, &script.plan);
    assert_commands(&rt, script.commands.items());
}

// 8 buckets on servers 1 and 2, which weigh 1 and 2. Server 3 is added with weight 2, weighs 1 from
// 600 on, which is said twice, and server 1 is drained.
fn assert_weighed_plan(rt: &impl Abort, plan: &Plan) {
    assert!(rt; plan.versions() == 4);
    let added = [to(4, 3), to(6, 3), to(7, 3)];
    assert_change(rt, plan, 0, 500, Kind::Add(ServerId(3)), &added);
    assert_change(rt, plan, 1, 600, Kind::Shift, &[to(7, 2)]);
    assert_change(rt, plan, 2, 600, Kind::Shift, &[]);
    let drained = [to(0, 2), to(2, 3)];
    assert_change(rt, plan, 3, 700, Kind::Drain(ServerId(1)), &drained);
}

#[test]
fn weights_make_the_plan(rt: HostRuntime) {
    let script = read(&rt, rt.alloc(), commands::WEIGHED);
    assert_weighed_plan(&rt, &script.plan);
    let script = read(&rt, rt.alloc(), commands::PLAINLY_WEIGHED);
    let added = [to(4, 3), to(5, 3), to(6, 3), to(7, 3)];
    assert_change(&rt, &script.plan, 0, 500, Kind::Add(ServerId(3)), &added);
}

// 8 buckets on servers 1 and 2, each in a rack of its own. Server 3 is added in the rack of server 1.
fn assert_racked_plan(rt: &impl Abort, plan: &Plan) {
    assert!(rt; plan.versions() == 1);
    let added = [to(4, 3), to(6, 3)];
    assert_change(rt, plan, 0, 500, Kind::Add(ServerId(3)), &added);
}

// 8 buckets on servers 2 and 3: the even ones open at server 2, and their rack is that of server 3.
fn assert_brought_home(rt: &impl Abort, plan: &Plan) {
    assert!(rt; plan.versions() == 1);
    let moves = [
        to(0, 3),
        to(1, 2),
        to(2, 3),
        to(3, 2),
        to(4, 3),
        to(5, 2),
        to(6, 3),
        to(7, 2),
    ];
    assert_change(rt, plan, 0, 500, Kind::Shift, &moves);
}

#[test]
fn racks_make_the_plan(rt: HostRuntime) {
    let script = read(&rt, rt.alloc(), commands::RACKED);
    assert!(rt; script.setting.racks == 2);
    assert_racked_plan(&rt, &script.plan);
    let script = read(&rt, rt.alloc(), commands::ASTRAY);
    assert_brought_home(&rt, &script.plan);
}
