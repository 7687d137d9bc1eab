//! Looks during a post.
ghost use Rattle.std.specs.Prelude.{◌≡◌, ◌<◌, Some, IfOk};
ghost use Rattle.bm_table.specs.Tables.{next_change};
ghost use Rattle.bm_publish.specs.Posts.{last_post, last_version};

use crate::plans::{first_change, one_move};
use bm_base::{Memory, Moment, Version};
use bm_publish::{Look, Poster, Snapshot, board};
use bm_table::Change;
use std::alloc::Global;
use std::process::Abort;
use std::sync::Wait;
use std::thread::{Threads, join};

/// The version and the clock that the look shows.
fn shown(look: Look) -> (Look, Option<(Version, Moment)>)
    ensures { result.0.board ≡ look.board }
{
    match look.look() {
        Ok(guard) => {
            let seen = (guard.version(), guard.clock());
            (guard.leave(), Some(seen))
        }
        Err((look, _why)) => (look, None),
    }
}

/// Whether each of a thousand looks shows version 0 or 1 with its clock, and none is older than the
/// one before.
fn watch(look: Look) -> (Look, bool)
    ensures { result.0.board ≡ look.board }
{
    let mut look = look;
    let mut last = Version(0);
    for _ in 0..1_000u32 {
        let (next, seen) = shown(look);
        look = next;
        let (version, clock) = seen.unwrap_or((Version(2), Moment(0)));
        if version < last || version > Version(1) || clock.0 != u64::from(version.0) * 501 {
            return (look, false);
        }
        last = version;
    }
    (look, true)
}

/// Posts the change, and returns all that was posted.
fn post<R: Wait>(rt: &R, poster: &mut Poster, change: Change) -> Result<Snapshot, Memory>
    requires next { next_change poster.old.plan (last_version poster.old) ≡ Some change }
    requires later { last_post poster.old < 501 }
    ensures { IfOk result (λ snapshot. snapshot.board ≡ poster.old.board) }
{
    poster.post(rt, change, Moment(501))?;
    Ok(poster.snapshot())
}

/// Whether the looks during the post were right, and what the look shows once it has learned of it.
fn beside_a_post<R: Abort + Threads + Wait + Sync>(
    rt: &R,
    poster: &mut Poster,
    look: Look,
    change: Change,
) -> (bool, Option<(Version, Moment)>)
    requires board { look.board ≡ poster.old.board }
    requires next { next_change poster.old.plan (last_version poster.old) ≡ Some change }
    requires later { last_post poster.old < 501 }
{
    let (snapshot, (mut look, right)) = join(rt, || post(rt, poster, change), || watch(look));
    look.learn(snapshot.expect(rt, "memory"));
    let (_look, seen) = shown(look);
    (right, seen)
}

fn day<R: Abort + Threads + Wait + Sync>(
    rt: &R,
    alloc: Global,
) -> (bool, Option<(Version, Moment)>) {
    let plan = one_move(alloc).expect(rt, "memory");
    let change = first_change(&plan).expect(rt, "memory");
    let (mut poster, mut looks) = board(rt, alloc, &plan, 2).expect(rt, "memory");
    let look = looks.pop().expect(rt, "a look");
    let seen = beside_a_post(rt, &mut poster, look, change);
    poster.end(rt);
    seen
}

#[test]
fn looks_beside_a_post_show_it_or_not_and_one_that_learned_of_it_does(rt: HostRuntime) {
    let (right, seen) = day(&rt, rt.alloc());
    assert!(rt; right);
    assert!(rt; seen == Some((Version(1), Moment(501))));
}
