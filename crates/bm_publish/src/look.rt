//! The readers' ends of a board.
ghost use Rattle.std.specs.Prelude.{◌≡◌, ◌*◌, ◌^◌, ◌<◌, ◌≤◌, ◌⊎◌, MatchResult};
ghost use Rattle.bm_table.specs.Tables.{table};
ghost use Rattle.bm_publish.specs.Inside.Boards.{Knows};
ghost use Rattle.bm_publish.specs.Posts.{Continues, IsPosted, last_post, last_version};
ghost use Rattle.left_right.specs.Sides.{view as seat_view};

use crate::shown::{Kept, Seeing, Shown};
use crate::snapshot::Snapshot;
use bm_base::{Entry, Memory, Moment, Version};
use left_right::reader::{Reader, Reading};
use std::marker::Model;

/// A reader's end of a board, while it isn't reading. Contracts see the posts that it has seen or
/// learned of.
#[derive(Drop)]
pub struct Look {
    reader: Reader<Shown, Option<Snapshot>, Kept>,
    snapshot: Snapshot,
}

impl Model for Look {
    ghost use Rattle.left_right.specs.Sides.{view as seat_view};
    ghost use Rattle.bm_publish.specs.Inside.Boards.{Knows};
    ghost use Rattle.bm_publish.specs.Posts.{Posted};

    ghost Value = { Posted };

    ghost view = { λ l. l.snapshot };

    ghost invariant = { λ l. Knows l.snapshot.board (seat_view l.reader.place) };
}

/// The table of a board, while it is read. It isn't Drop: end it by `leave`. Contracts see the
/// posts that lead to it.
pub struct Guard {
    reading: Reading<Shown, Option<Snapshot>, Kept>,
}

impl Model for Guard {
    ghost use Rattle.left_right.specs.Sides.{view as seat_view};
    ghost use Rattle.bm_publish.specs.Inside.Boards.{IsRight, Knows};
    ghost use Rattle.bm_publish.specs.Posts.{Posted};

    ghost Value = { Posted };

    ghost view = { λ g. g.reading.part.value.snapshot };

    ghost invariant = { λ g. IsRight g.reading.part.value.table g.reading.part.value.snapshot
        × Knows g.reading.part.value.snapshot.board (seat_view g.reading.place) };
}

impl Look {
    pub(crate) fn new(reader: Reader<Shown, Option<Snapshot>, Kept>, snapshot: Snapshot) -> Look
        requires { Knows snapshot.board (seat_view reader.place) }
        ensures { result ≡ snapshot }
    {
        Look { reader, snapshot }
    }

    pub(crate) fn snapshot(&self) -> &Snapshot
        ensures { result.now ≡ self.now }
    {
        &self.snapshot
    }

    /// Learns these posts. From then on it shows nothing older.
    pub fn learn(&mut self, snapshot: Snapshot)
        requires { snapshot.board ≡ self.old.board }
        ensures one { (self.new ≡ self.old) ⊎ (self.new ≡ snapshot) }
        ensures seen { Continues self.old self.new }
        ensures learned { Continues snapshot self.new }
    {
        self.snapshot = self.snapshot.longer(&snapshot);
    }

    /// Looks at the table that is posted. Waits for no other thread, and takes no lock, no copy and
    /// no memory. `Memory` where the place is refused; then the look is returned as it was.
    pub fn look(self) -> Result<Guard, (Look, Memory)>
        ensures { MatchResult result (λ guard. Continues self guard) (λ back. back.0 ≡ self) }
    {
        let Look { reader, snapshot } = self;
        let reading = match reader.enter_as::<Seeing>() {
            Ok(reading) => reading,
            Err(reader) => return Err((Look { reader, snapshot }, Memory)),
        };
        if snapshot.begins(&reading.get().snapshot) {
            return Ok(Guard { reading });
        }
        let reader = reading.leave();
        Err((Look { reader, snapshot }, Memory))
    }
}

impl Guard {
    /// The look, which has seen what the guard showed.
    pub fn leave(self) -> Look
        ensures seen { result ≡ self }
        ensures posted { IsPosted self }
    {
        let Guard { reading } = self;
        let snapshot = reading.get().snapshot.again();
        Look {
            reader: reading.leave(),
            snapshot,
        }
    }

    /// How many changes of the plan the table has. Takes no memory.
    pub fn version(&self) -> Version
        ensures version { result.0 ≡ last_version self.now }
        ensures posted { IsPosted self.now }
    {
        self.reading.get().snapshot.version()
    }

    /// The clock of the last post, or 0. Takes no memory.
    pub fn clock(&self) -> Moment
        ensures clock { result.0 ≡ last_post self.now }
        ensures bound { result.0 ≤ 9 * 10 ^ 18 }
    {
        self.reading.get().snapshot.clock()
    }

    /// The table's entry for a bucket. Takes no memory.
    pub fn entry(&self, bucket: u32) -> Entry
        requires { bucket < self.now.plan.buckets }
        ensures { result ≡ table self.now.plan (last_version self.now) bucket }
    {
        self.reading.get().table.entry(bucket)
    }
}
