//! The poster's end of a board, and how a board is made.
ghost use Rattle.std.specs.Prelude.{◌≡◌, ◌*◌, ◌^◌, ◌<◌, ◌≤◌, [], Some, All, IfOk};
ghost use Rattle.std.specs.Prelude.{MatchOption, OnErr, OnOk};
ghost use Rattle.std.specs.Prelude.{drop, length};
ghost use Rattle.bm_table.specs.Tables.{next_change};
ghost use Rattle.left_right.specs.Sides.{view as seat_view};
ghost use Rattle.bm_publish.specs.Inside.Boards.{IsRight, ShowsAllBut, changed_from};
ghost use Rattle.bm_publish.specs.Posts.{Continues, last_post, last_version, with_post};

use crate::look::Look;
use crate::shown::{Giving, Kept, Post, Seeing, Shown, Taking};
use crate::snapshot::{History, Snapshot};
use bm_base::{List, Memory, Moment};
use bm_table::{Change, Kind, Plan, Table};
use core::mem::replace_with;
use left_right::writer::Writer;
use std::alloc::Global;
use std::marker::Model;
use std::sync::Wait;

type Ends = Writer<Shown, Post, Option<Snapshot>, Kept>;

/// The end of a board that posts. It isn't Drop: end it by `end`. Contracts see what is posted.
pub struct Poster {
    writer: Ends,
    history: History,
    /// A post that was refused memory in the log of operations. It is shown before the next post.
    waiting: Option<Post>,
}

impl Model for Poster {
    ghost use Rattle.std.specs.Prelude.{◌≡◌, [], Some, drop};
    ghost use Rattle.left_right.specs.Sides.{view as seat_view};
    ghost use Rattle.bm_publish.specs.Inside.Boards.{IsRight, ShowsAllBut};
    ghost use Rattle.bm_publish.specs.Posts.{Posted};

    ghost Value = { Posted };

    ghost view = { λ p. p.history };

    ghost invariant = { λ p. (drop p.writer.behind p.writer.log.items ≡ [])
        × IsRight p.writer.desk.shown.value.table p.writer.desk.shown.value.snapshot
        × (seat_view p.writer.desk.place ≡ Some p.writer.desk.shown.value.snapshot)
        × (p.writer.desk.shown.value.snapshot.board ≡ p.history.board)
        × ShowsAllBut p.writer.desk.shown.value.table p.writer.desk.shown.value.snapshot p.history
        p.waiting };
}

/// A board that shows version 0 and clock 0 of the plan, its poster and this many looks. `Memory`
/// where memory was refused; it then waits for no reader, since there is none.
pub fn board<R: Wait>(
    rt: &R,
    alloc: Global,
    plan: &Plan,
    readers: u16,
) -> Result<(Poster, Vec<Look>), Memory>
    requires { 1 ≤ readers }
    ensures new { IfOk result (λ ends. (ends.0.plan ≡ plan.now) × (ends.0.clocks ≡ [])) }
    ensures count { IfOk result (λ ends. length ends.1.items ≡ readers) }
    ensures looks { IfOk result (λ ends. All (λ look. look ≡ ends.0) ends.1.items) }
{
    let mut poster = Poster::new(rt, alloc, plan, readers)?;
    match poster.seats(alloc, readers) {
        Ok(looks) => Ok((poster, looks)),
        Err(why) => {
            poster.end(rt);
            Err(why)
        }
    }
}

/// A change that moves nothing.
fn idle_change(alloc: Global) -> Change
    ensures { result.moves ≡ [] }
{
    Change {
        moment: Moment(0),
        kind: Kind::Shift,
        moves: List::of(Vec::new(alloc)),
    }
}

/// Shows a post. If memory was refused the ends show what they showed, and the post comes back.
fn publish<R: Wait>(rt: &R, mut writer: Ends, post: Post) -> (Ends, Option<Post>)
    requires idle { drop writer.behind writer.log.items ≡ [] }
    requires right { IsRight writer.desk.shown.value.table writer.desk.shown.value.snapshot }
    requires next { IsRight (changed_from post.change 0 writer.desk.shown.value.table) post.snapshot }
    requires board { post.snapshot.board ≡ writer.desk.shown.value.snapshot.board }
    ensures idle { drop result.0.behind result.0.log.items ≡ [] }
    ensures shown { MatchOption result.1 ((result.0.desk.shown.value.snapshot ≡ post.snapshot)
        × IsRight result.0.desk.shown.value.table post.snapshot
        × (seat_view result.0.desk.place ≡ Some post.snapshot))
        (λ back. (back ≡ post) × (result.0.desk.shown.value ≡ writer.desk.shown.value)
        × (seat_view result.0.desk.place ≡ seat_view writer.desk.place)) }
{
    match writer.append(post) {
        Err(post) => (writer, Some(post)),
        Ok(()) => {
            let (writer, published) = writer.publish_as::<Seeing, R>(rt);
            let Ok(()) = published else { unreachable!() };
            (writer, None)
        }
    }
}

/// Shows a post. If memory was refused it comes back, to wait.
fn show<R: Wait>(rt: &R, writer: Ends, post: Post) -> (Ends, Option<Post>)
    requires idle { drop writer.behind writer.log.items ≡ [] }
    requires right { IsRight writer.desk.shown.value.table writer.desk.shown.value.snapshot }
    requires seat { seat_view writer.desk.place ≡ Some writer.desk.shown.value.snapshot }
    requires next { IsRight (changed_from post.change 0 writer.desk.shown.value.table) post.snapshot }
    requires board { post.snapshot.board ≡ writer.desk.shown.value.snapshot.board }
    ensures idle { drop result.0.behind result.0.log.items ≡ [] }
    ensures right { IsRight result.0.desk.shown.value.table result.0.desk.shown.value.snapshot }
    ensures seat { seat_view result.0.desk.place ≡ Some result.0.desk.shown.value.snapshot }
    ensures board { result.0.desk.shown.value.snapshot.board ≡ post.snapshot.board }
    ensures waits { ShowsAllBut result.0.desk.shown.value.table result.0.desk.shown.value.snapshot
        post.snapshot result.1 }
{
    let (writer, back) = publish(rt, writer, post);
    match back {
        None => (writer, None),
        Some(back) => (writer, Some(back)),
    }
}

/// Shows the post that waits, if there is one.
fn show_rest<R: Wait>(
    rt: &R,
    writer: Ends,
    waiting: Option<Post>,
    history: &History,
) -> (Ends, Option<Post>)
    requires idle { drop writer.behind writer.log.items ≡ [] }
    requires right { IsRight writer.desk.shown.value.table writer.desk.shown.value.snapshot }
    requires seat { seat_view writer.desk.place ≡ Some writer.desk.shown.value.snapshot }
    requires board { writer.desk.shown.value.snapshot.board ≡ history.now.board }
    requires waits { ShowsAllBut writer.desk.shown.value.table writer.desk.shown.value.snapshot
        history.now waiting }
    ensures idle { drop result.0.behind result.0.log.items ≡ [] }
    ensures right { IsRight result.0.desk.shown.value.table result.0.desk.shown.value.snapshot }
    ensures seat { seat_view result.0.desk.place ≡ Some result.0.desk.shown.value.snapshot }
    ensures board { result.0.desk.shown.value.snapshot.board ≡ history.now.board }
    ensures waits { ShowsAllBut result.0.desk.shown.value.table result.0.desk.shown.value.snapshot
        history.now result.1 }
{
    match waiting {
        None => (writer, None),
        Some(post) => show(rt, writer, post),
    }
}

/// The poster with one more post.
fn add<R: Wait>(rt: &R, writer: Ends, history: History, change: Change, clock: Moment) -> Poster
    requires idle { drop writer.behind writer.log.items ≡ [] }
    requires right { IsRight writer.desk.shown.value.table writer.desk.shown.value.snapshot }
    requires seat { seat_view writer.desk.place ≡ Some writer.desk.shown.value.snapshot }
    requires same { writer.desk.shown.value.snapshot ≡ history }
    requires next { next_change history.plan (last_version history) ≡ Some change }
    requires later { last_post history < clock.0 }
    requires last { clock.0 ≤ 9 * 10 ^ 18 }
    ensures { result ≡ with_post history clock.0 }
{
    let more = history.with_post(clock);
    let snapshot = more.snapshot();
    let (writer, waiting) = show(rt, writer, Post { change, snapshot });
    Poster {
        writer,
        history: more,
        waiting,
    }
}

/// The poster after a post.
fn posted<R: Wait>(
    rt: &R,
    poster: Poster,
    change: Change,
    clock: Moment,
) -> (Poster, Result<(), Memory>)
    requires next { next_change poster.plan (last_version poster) ≡ Some change }
    requires later { last_post poster < clock.0 }
    requires last { clock.0 ≤ 9 * 10 ^ 18 }
    ensures ok { OnOk result.1 (result.0 ≡ with_post poster clock.0) }
    ensures err { OnErr result.1 (result.0 ≡ poster) }
{
    let Poster {
        writer,
        history,
        waiting,
    } = poster;
    let (writer, waiting) = show_rest(rt, writer, waiting, &history);
    match waiting {
        None => (add(rt, writer, history, change, clock), Ok(())),
        Some(post) => {
            let poster = Poster {
                writer,
                history,
                waiting: Some(post),
            };
            (poster, Err(Memory))
        }
    }
}

impl Poster {
    /// A new board. The opening is posted too, so that the poster's seat has a view of its board,
    /// and the log of posts has its memory.
    fn new<R: Wait>(rt: &R, alloc: Global, plan: &Plan, readers: u16) -> Result<Poster, Memory>
        requires { 1 ≤ readers }
        ensures { IfOk result (λ poster. (poster.plan ≡ plan.now) × (poster.clocks ≡ [])) }
    {
        let Some(history) = History::open(plan) else {
            return Err(Memory);
        };
        let snapshot = history.snapshot();
        let writer = Writer::new(
            alloc,
            shown(alloc, plan, &snapshot)?,
            shown(alloc, plan, &snapshot)?,
            usize::from(readers),
        )?;
        let post = Post {
            change: idle_change(alloc),
            snapshot,
        };
        let (writer, waiting) = publish(rt, writer, post);
        if let Some(_post) = waiting {
            writer.take(rt);
            return Err(Memory);
        }
        let poster = Poster {
            writer,
            history,
            waiting: None,
        };
        Ok(poster)
    }

    /// One more look.
    fn seat(&mut self) -> Result<Look, Memory>
        ensures kept { self.new ≡ self.old }
        ensures look { IfOk result (λ look. look ≡ self.old) }
    {
        let mut reader = self.writer.factory().reader()?;
        reader.learn::<Taking>(self.writer.tell::<Giving>());
        Ok(Look::new(reader, self.snapshot()))
    }

    /// This many looks.
    fn seats(&mut self, alloc: Global, readers: u16) -> Result<Vec<Look>, Memory>
        ensures kept { self.new ≡ self.old }
        ensures count { IfOk result (λ looks. length looks.items ≡ readers) }
        ensures looks { IfOk result (λ looks. All (λ look. look ≡ self.old) looks.items) }
    {
        let mut looks = Vec::with_capacity(alloc, usize::from(readers))?;
        for _ in 0..readers {
            looks.push(self.seat()?)?;
        }
        Ok(looks)
    }

    /// Posts the plan's next change. It waits for the looks that still read the table before the
    /// last one. `Memory` where memory was refused; then nothing is posted. After `Ok` the change is
    /// posted, and it is shown at once; if memory was refused for that it waits, and a later post
    /// shows it first.
    pub fn post<R: Wait>(&mut self, rt: &R, change: Change, clock: Moment) -> Result<(), Memory>
        requires next { next_change self.old.plan (last_version self.old) ≡ Some change }
        requires later { last_post self.old < clock.0 }
        requires last { clock.0 ≤ 9 * 10 ^ 18 }
        ensures ok { OnOk result (self.new ≡ with_post self.old clock.0) }
        ensures err { OnErr result (self.new ≡ self.old) }
    {
        replace_with(self, change, |poster, change| {
            posted(rt, poster, change, clock)
        })
    }

    /// All that was posted, for a look to learn. Takes no memory.
    pub fn snapshot(&self) -> Snapshot
        ensures { result ≡ self.now }
    {
        self.history.snapshot()
    }

    /// A law: what a look of this board has seen or learned of is a prefix of what was posted, also
    /// after a refused post. It does nothing.
    pub fn posted_all(&mut self, look: &Look)
        requires { look.now.board ≡ self.old.board }
        ensures kept { self.new ≡ self.old }
        ensures posted { Continues look.now self.old }
    {
        self.history.was_posted(look.snapshot());
    }

    /// Drops the board. Waits for the looks that read.
    pub fn end<R: Wait>(self, rt: &R) {
        let Poster {
            writer,
            history: _history,
            waiting: _waiting,
        } = self;
        writer.take(rt);
    }
}

/// The table of version 0.
fn shown(alloc: Global, plan: &Plan, snapshot: &Snapshot) -> Result<Shown, Memory>
    requires { (snapshot.now.plan ≡ plan.now) × (snapshot.now.clocks ≡ []) }
    ensures snapshot { IfOk result (λ s. s.snapshot ≡ snapshot.now) }
    ensures right { IfOk result (λ s. IsRight s.table s.snapshot) }
{
    Ok(Shown {
        table: Table::opening(alloc, plan)?,
        snapshot: snapshot.again(),
    })
}
