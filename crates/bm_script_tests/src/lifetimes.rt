//! Tests of `bm_lifetime`: how long the connections of a script may live.
use bm_lifetime::{Lifetime, NearMoves, lifetime};
use bm_script::read_script;
use std::alloc::Global;

/// Whether this is the script's lifetime, with what bounds it.
fn has_lifetime(alloc: Global, text: &str, want: Option<Lifetime>) -> bool {
    match read_script(alloc, text.as_bytes()) {
        Ok(script) => match lifetime(alloc, &script) {
            Ok(life) => life == want,
            Err(_) => false,
        },
        Err(_) => false,
    }
}

/// A lifetime that the timeout bounds, and nothing else.
fn by_timeout(time: u64, slack: u64) -> Lifetime {
    Lifetime {
        time,
        by_timeout: true,
        by_moves: None,
        next: None,
        slack,
    }
}

/// One move, with a timeout of a second.
const MOVED: &str = r#"
timeout_s = 1
[[command]]
at_ns = 500
do = "move"
bucket = 4
server = 2
"#;

/// Three moves of one bucket, 200 nanoseconds from the first to the third.
const MOVED_THRICE: &str = r#"
servers = [1, 2, 3, 4]
command = [
  {at_ns=100, do="move", bucket=4, server=2},
  {at_ns=200, do="move", bucket=4, server=3},
  {at_ns=300, do="move", bucket=4, server=4},
]
"#;

/// Muxes with different lags that take turns.
const IN_TURN: &str = r#"
muxes = 2
route = "turn"
lags_ns = [1000, 0]
command = [{at_ns=500, do="move", bucket=4, server=2}]
"#;

/// The same muxes, where each connection has one, and an impairment.
const BY_PORT: &str = r#"
muxes = 2
lags_ns = [1000, 0]
fault = [{packet=1, hop="direct", copies=1, delay_ns=5}]
command = [{at_ns=500, do="move", bucket=4, server=2}]
"#;

#[test]
fn connections_live_until_a_third_move_or_the_timeout(rt: HostRuntime) {
    let alloc = rt.alloc();
    assert!(rt; has_lifetime(alloc, "", None));
    assert!(rt; has_lifetime(alloc, MOVED, Some(by_timeout(987_740_160, 12_259_840))));
    assert!(rt;
        has_lifetime(
            alloc,
            BY_PORT,
            Some(by_timeout(239_987_739_145, 12_260_855))
        )
    );
    let thrice = Lifetime {
        time: 200,
        by_timeout: false,
        by_moves: Some(NearMoves {
            first: 1,
            third: 3,
            buckets: 1,
            lowest: 4,
        }),
        next: Some(239_987_740_160),
        slack: 12_259_840,
    };
    assert!(rt; has_lifetime(alloc, MOVED_THRICE, Some(thrice)));
    let in_turn = Lifetime {
        time: 0,
        by_timeout: false,
        by_moves: None,
        next: None,
        slack: 12_260_840,
    };
    assert!(rt; has_lifetime(alloc, IN_TURN, Some(in_turn)));
}
