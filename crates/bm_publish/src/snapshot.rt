//! What was posted on a board, as far as it is known. The history of a board is ghost state that
//! all threads share; a thread knows a beginning of it.
ghost use Rattle.std.specs.Prelude.{◌≡◌, ◌*◌, ◌^◌, ◌<◌, ◌≤◌, ◌⊎◌, [], length, IfSome, IsTrue};
ghost use mathlib.Core.List.{IsPrefix};
ghost use Rattle.logbook.specs.Pages.{may_write};
ghost use Rattle.bm_publish.specs.Inside.Histories.{clocks_in, head_of};
ghost use Rattle.bm_publish.specs.Posts.{Continues, IsPosted, last_post, last_version, with_post};

use bm_base::{Moment, Version};
use bm_table::Plan;
use logbook::{Gain, Offer, Opening, Pen, Plain, Play, Rule, Seen, Start, Word};
use std::marker::Model;

/// An entry of a board's history: the plan with which it opens, or the clock of a post. No value of
/// it is made.
pub enum Line {
    Opens(Plan),
    /// The clock, and the cell of the permit for the next post.
    Posts(Moment, u64),
}

/// The rule of the history.
pub struct Counted;

impl Rule<Line, u64> for Counted {
    ghost use Rattle.std.specs.Prelude.{[]};
    ghost use base.Fml.{ftrue};
    ghost use Rattle.bm_publish.specs.Inside.Histories.{IsCounted};

    ghost holds = { λ cells log. IsCounted cells log };

    ghost first = { [] };

    ghost hinted = { λ n log. Unit {0} };

    ghost shows = { λ log. [] };

    ghost keeps = { λ names log. ftrue };

    ghost moves = { λ ask before after answer. Unit {0} };
}

/// A history opens with a plan.
struct Begin;

impl Opening<Plan, Line> for Begin {
    ghost use Rattle.std.specs.Prelude.{[], ◌∷◌};
    ghost use Rattle.bm_publish.specs.declared.snapshot.Line.TheVariants.{Opens};

    ghost log = { λ words plan. Opens plan ∷ [] };
}

/// The poster gains nothing by a post.
struct Nothing;

impl Gain<Line, u64> for Nothing {
    ghost use base.Fml.{ftrue};

    ghost after = { λ names about answer. ftrue };
}

/// The step that makes a permit to post.
struct Grant;

impl Play<Line, u64> for Grant {
    ghost use Rattle.bm_publish.specs.Inside.Histories.{Grants};

    ghost then = { Grants };
}

/// The step that shows that the holder of the permit has seen all posts.
struct Check;

impl Play<Line, u64> for Check {
    ghost use Rattle.bm_publish.specs.Inside.Histories.{Checks};

    ghost then = { Checks };
}

/// A step that adds no post.
struct NoPost;

impl Plain<Moment, Line, u64> for NoPost {
    ghost use Rattle.std.specs.Prelude.{None};
    ghost use Rattle.bm_publish.specs.declared.snapshot.Line.TheVariants.{Posts};

    ghost ask = { λ clock. Posts clock 0 };

    ghost state = { λ clock. None };
}

/// A post, with the permit for the next one.
#[derive(Drop)]
struct Posting {
    clock: Moment,
    next: Pen,
}

/// The step that adds a post.
struct Add;

impl Play<Line, u64> for Add {
    ghost use Rattle.bm_publish.specs.Inside.Histories.{Adds};

    ghost then = { Adds };
}

impl Plain<Posting, Line, u64> for Add {
    ghost use Rattle.std.specs.Prelude.{None};
    ghost use Rattle.bm_publish.specs.declared.snapshot.Line.TheVariants.{Posts};

    ghost ask = { λ posting. Posts posting.clock posting.next.nib.key };

    ghost state = { λ posting. None };
}

/// The word on which a history's steps are taken.
type Head = Word<Line, u64, Counted>;

/// The history of a board, with the only permit to post. Contracts see all that was posted.
#[derive(Drop)]
pub(crate) struct History {
    head: Head,
    pen: Pen,
    version: Version,
    clock: Moment,
    seen: Seen<Line, u64, Counted>,
}

impl Model for History {
    ghost use Rattle.std.specs.Prelude.{◌≡◌};
    ghost use Rattle.logbook.specs.Pages.{may_write};
    ghost use Rattle.bm_publish.specs.Inside.Histories.{IsOpened, head_of, permit_in, posted_in};
    ghost use Rattle.bm_publish.specs.Posts.{IsPosted, Posted, last_post, last_version};

    ghost Value = { Posted };

    ghost view = { λ h. posted_in h.seen.book h.seen.log };

    ghost invariant = { λ h. IsOpened h.seen.log × IsPosted (posted_in h.seen.book h.seen.log)
        × (h.version.0 ≡ last_version (posted_in h.seen.book h.seen.log))
        × (h.clock.0 ≡ last_post (posted_in h.seen.book h.seen.log))
        × (h.head ≡ head_of h.seen.book) × (h.pen.book ≡ h.seen.book)
        × (h.pen.nib.right ≡ may_write) × (h.pen.nib.key ≡ permit_in 1 h.seen.log) };
}

/// What was posted on a board up to some moment. It has the last version and its clock; contracts
/// see the board, the plan and the clock of each post.
#[derive(Drop)]
pub struct Snapshot {
    version: Version,
    clock: Moment,
    seen: Seen<Line, u64, Counted>,
}

impl Model for Snapshot {
    ghost use Rattle.std.specs.Prelude.{◌≡◌};
    ghost use Rattle.bm_publish.specs.Inside.Histories.{IsOpened, posted_in};
    ghost use Rattle.bm_publish.specs.Posts.{IsPosted, Posted, last_post, last_version};

    ghost Value = { Posted };

    ghost view = { λ t. posted_in t.seen.book t.seen.log };

    ghost invariant = { λ t. IsOpened t.seen.log × IsPosted (posted_in t.seen.book t.seen.log)
        × (t.version.0 ≡ last_version (posted_in t.seen.book t.seen.log))
        × (t.clock.0 ≡ last_post (posted_in t.seen.book t.seen.log)) };
}

/// A new permit to post, and what the word was. The permit is the first one if the word was 0.
fn new_permit(head: &Head, seen: &mut Seen<Line, u64, Counted>) -> (Pen, u64)
    requires { head.now ≡ head_of seen.old.book }
    ensures book { seen.new.book ≡ seen.old.book }
    ensures grows { IsPrefix seen.old.log seen.new.log }
    ensures pen { (result.0.book ≡ seen.old.book) × (result.0.nib.right ≡ may_write) }
    ensures first { result.1 ≡ 0 → (result.0.nib.key ≡ 1) × (clocks_in seen.new.log ≡ []) }
{
    let mut offer: Offer<Line, u64, Counted, Nothing> = seen.plain::<Nothing, Moment, NoPost>(
        &Moment(0),
    );
    let mut pen = seen.no_pen();
    let found = head.compare_exchange::<Grant, Nothing>(0, 1, seen, &mut offer, &mut pen);
    let _word: Head = Word::tracked(0, &mut pen);
    (pen, found)
}

impl History {
    /// The history of a new board. None if its permit isn't the first, which can't happen: but the
    /// logbook doesn't say that a book which no other thread has seen didn't move.
    pub(crate) fn open(plan: &Plan) -> Option<History>
        ensures { IfSome result (λ h. (h.plan ≡ plan.now) × (h.clocks ≡ [])) }
    {
        let _versions = plan.versions();
        let (mut seen, mut pens) = Seen::open_row::<Plan, Begin>(plan, Start::alone(), 1);
        let head = Word::tracked(0, &mut pens.take());
        let (pen, found) = new_permit(&head, &mut seen);
        if found != 0 {
            return None;
        }
        Some(History {
            head,
            pen,
            version: Version(0),
            clock: Moment(0),
            seen,
        })
    }

    /// All that was posted.
    pub(crate) fn snapshot(&self) -> Snapshot
        ensures same { result ≡ self.now }
        ensures posted { IsPosted self.now }
    {
        Snapshot {
            version: self.version,
            clock: self.clock,
            seen: self.seen.again(),
        }
    }

    /// The history with one more post.
    pub(crate) fn with_post(self, clock: Moment) -> History
        requires next { last_version self < length self.plan.changes }
        requires later { last_post self < clock.0 }
        requires last { clock.0 ≤ 9 * 10 ^ 18 }
        ensures { result ≡ with_post self clock.0 }
    {
        let History {
            head,
            mut pen,
            version,
            clock: _,
            mut seen,
        } = self;
        let (next, _found) = new_permit(&head, &mut seen.again());
        let posting = Posting { clock, next };
        let mut offer: Offer<Line, u64, Counted, Nothing> = seen.plain::<Nothing, Posting, Add>(
            &posting,
        );
        head.compare_exchange::<Add, Nothing>(0, 1, &mut seen, &mut offer, &mut pen);
        let Posting { clock, next } = posting;
        History {
            head,
            pen: next,
            version: Version(version.0 + 1),
            clock,
            seen,
        }
    }

    /// What a `Snapshot` of this board has is a beginning of what was posted. It does nothing: its
    /// contract is a law.
    pub(crate) fn was_posted(&mut self, snapshot: &Snapshot)
        requires { snapshot.now.board ≡ self.old.board }
        ensures kept { self.new ≡ self.old }
        ensures posted { Continues snapshot.now self.old }
    {
        let mut both = self.seen.again();
        both.learn(&snapshot.seen);
        let mut offer: Offer<Line, u64, Counted, Nothing> = both.plain::<Nothing, Moment, NoPost>(
            &Moment(0),
        );
        self.head
            .compare_exchange::<Check, Nothing>(0, 1, &mut both, &mut offer, &mut self.pen);
    }
}

impl Snapshot {
    /// How many posts there are.
    pub(crate) fn version(&self) -> Version
        ensures version { result.0 ≡ last_version self.now }
        ensures posted { IsPosted self.now }
    {
        self.version
    }

    /// The clock of the last post, or 0.
    pub(crate) fn clock(&self) -> Moment
        ensures clock { result.0 ≡ last_post self.now }
        ensures bound { result.0 ≤ 9 * 10 ^ 18 }
    {
        self.clock
    }

    /// A copy.
    pub(crate) fn again(&self) -> Snapshot
        ensures same { result ≡ self.now }
        ensures posted { IsPosted self.now }
    {
        Snapshot {
            version: self.version,
            clock: self.clock,
            seen: self.seen.again(),
        }
    }

    /// Whether the other continues this one. Of two of one board, one continues the other.
    pub(crate) fn begins(&self, other: &Snapshot) -> bool
        requires { other.now.board ≡ self.now.board }
        ensures { IsTrue result → Continues self.now other.now }
    {
        let mut both = self.seen.again();
        both.learn(&other.seen);
        if self.version.0 <= other.version.0 {
            return true;
        }
        false
    }

    /// The longer of two of one board.
    pub(crate) fn longer(&self, other: &Snapshot) -> Snapshot
        requires { other.now.board ≡ self.now.board }
        ensures one { (result ≡ self.now) ⊎ (result ≡ other.now) }
        ensures this { Continues self.now result }
        ensures that { Continues other.now result }
    {
        let mut both = self.seen.again();
        both.learn(&other.seen);
        if self.version.0 < other.version.0 {
            other.again()
        } else {
            self.again()
        }
    }
}
