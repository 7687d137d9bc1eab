//! What the commands of a script say that they change.
use bm_base::ServerId;
use bm_script::{ChangeVerb, WordedScript, read_worded_script};
use std::alloc::Global;
use std::process::Abort;

/// Each command that changes the table, and three that don't.
const WHOLE: &str = r#"
version = 2
weights = [1, 2]
command = [
  {at_ns=100, do="add", server=3, weight=2},
  {at_ns=150, do="sync"},
  {at_ns=200, do="weight", server=2, weight=5},
  {at_ns=200, do="close", server=1, from="10.0.0.1:5", to="192.0.2.1:80"},
  {at_ns=300, do="move", bucket=0, server=3},
  {at_ns=400, do="drain", server=1},
  {at_ns=900, do="retire", server=1},
]
"#;

/// The script that this text is read as, boxed: a test that owns it drops one value, not each field.
fn read(rt: &impl Abort, alloc: Global, text: &str) -> Box<WordedScript> {
    let script = read_worded_script(alloc, text.as_bytes()).expect(rt, "a script");
    Box::new(alloc, script).expect(rt, "memory")
}

#[test]
fn each_change_has_what_its_command_says(rt: HostRuntime) {
    let read = read(&rt, rt.alloc(), WHOLE);
    let want = [
        ChangeVerb::Add(ServerId(3)),
        ChangeVerb::Weight {
            server: ServerId(2),
            weight: 5,
        },
        ChangeVerb::Move {
            bucket: 0,
            to: ServerId(3),
        },
        ChangeVerb::Drain(ServerId(1)),
    ];
    assert!(rt; read.verbs.items() == want.as_slice());
    assert!(rt; read.script.plan.versions() == 4);
}

#[test]
fn a_script_without_commands_says_nothing(rt: HostRuntime) {
    let read = read(&rt, rt.alloc(), "");
    assert!(rt; read.verbs.items().is_empty());
}
