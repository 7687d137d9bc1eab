//! What a board shows: the table, with the history that leads to it.
ghost use Rattle.bm_publish.specs.Inside.Boards.{changed_from};

use crate::snapshot::Snapshot;
use atomic_table::{Join, Split};
use bm_table::{Change, Table};
use crossbeam_utils::rule::{Outcome, Protocol};
use left_right::Absorb;
use std::alloc::AllocError;

/// A table, and the posts that lead to it.
#[derive(Drop)]
pub struct Shown {
    pub(crate) table: Table,
    pub(crate) snapshot: Snapshot,
}

/// A change, and the posts that end with it.
#[derive(Drop)]
pub struct Post {
    pub(crate) change: Change,
    pub(crate) snapshot: Snapshot,
}

impl Absorb<Post> for Shown {
    type State = Shown;

    ghost state = { λ s. s };

    ghost applied = { λ s m. record { table = changed_from m.change 0 s.table; snapshot = m.snapshot } };

    ghost never_fails = { Unit {0} };

    fn absorb_first(&mut self, operation: &Post, _other: &Shown) -> Result<(), AllocError> {
        self.table.apply(&operation.change);
        self.snapshot = operation.snapshot.again();
        Ok(())
    }
}

/// The rule of a board. A seat's view is the posts that it knows of, or None at first.
pub struct Kept;

impl Protocol<Shown, Option<Snapshot>> for Kept {
    ghost use Rattle.std.specs.Prelude.{None};
    ghost use Rattle.bm_publish.specs.Inside.Boards.{Keeps};

    ghost holds = { λ x views. Keeps x.table x.snapshot views };

    ghost first = { None };
}

/// A seat that looks or posts sees what is shown.
pub(crate) struct Seeing;

impl Outcome<Shown, Option<Snapshot>> for Seeing {
    ghost use Rattle.bm_publish.specs.Inside.Boards.{Sees};

    ghost then = { λ v x y w. Sees y.table y.snapshot v w };
}

/// The poster gives a new reader its own view.
pub(crate) struct Giving;

impl Split<Option<Snapshot>> for Giving {
    ghost left = { λ v. v };

    ghost right = { λ v. v };
}

/// A reader takes over the poster's view.
pub(crate) struct Taking;

impl Join<Option<Snapshot>> for Taking {
    ghost use Rattle.std.specs.Prelude.{None};

    ghost both = { λ v w. w };

    ghost spent = { None };
}
