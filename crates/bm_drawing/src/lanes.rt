//! Where there is room for the words of changes.
ghost use Rattle.std.specs.Prelude.{◌≡◌, ◌<◌, ◌^◌};
ghost use Rattle.bm_drawing.specs.Drawing as spec;

/// From where on each of three lanes is free.
#[derive(Clone, Copy)]
pub(crate) struct Lanes {
    pub(crate) first: u128,
    pub(crate) second: u128,
    pub(crate) third: u128,
}

impl Lanes {
    pub(crate) fn all_free() -> Lanes
        ensures { result ≡ spec.all_free }
    {
        Lanes {
            first: 0,
            second: 0,
            third: 0,
        }
    }

    /// The first lane that is free at a place, or 3.
    pub(crate) fn lane(self, at: u128) -> u128
        ensures value { result ≡ spec.lane self at }
        ensures bound { result < 4 }
    {
        if self.first <= at {
            0
        } else if self.second <= at {
            1
        } else if self.third <= at {
            2
        } else {
            3
        }
    }

    /// The lanes with the words of a change at this place, which take 64 units.
    pub(crate) fn after(self, at: u128) -> Lanes
        requires { at < 2 ^ 100 }
        ensures { result ≡ spec.after self at }
    {
        if self.first <= at {
            Lanes {
                first: at + 64,
                ..self
            }
        } else if self.second <= at {
            Lanes {
                second: at + 64,
                ..self
            }
        } else if self.third <= at {
            Lanes {
                third: at + 64,
                ..self
            }
        } else {
            self
        }
    }
}
