//! Units of time.
ghost use Rattle.std.specs.Prelude.{◌≡◌, ◌≤◌, ◌<◌, ◌*◌, ◌^◌, MatchOption};
ghost use Rattle.bm_pcapng.specs.Times.{nanoseconds, per_second, resolution_of};

/// How many units of time a second has: a power of ten or of two, with this exponent.
#[derive(Clone, Copy, PartialEq, Eq)]
pub enum Resolution {
    Decimal(u8),
    Binary(u8),
}

impl Resolution {
    /// What the octet of the option says.
    pub(crate) fn of(octet: u8) -> Resolution
        ensures { result ≡ resolution_of octet }
    {
        if octet < 128 {
            Resolution::Decimal(octet)
        } else {
            Resolution::Binary(octet % 128)
        }
    }

    /// How many units a second has, where that is below 2^128.
    fn per_second(self) -> Option<u128>
        ensures { MatchOption result (2 ^ 128 ≤ per_second self)
            (λ count. count ≡ per_second self) }
    {
        match self {
            Resolution::Decimal(exponent) => 10u128.checked_pow(u32::from(exponent)),
            Resolution::Binary(exponent) => 2u128.checked_pow(u32::from(exponent)),
        }
    }

    /// This many units in nanoseconds, rounded down.
    pub(crate) fn nanoseconds(self, units: u64) -> u128
        ensures value { result ≡ nanoseconds self units }
        ensures few { result < 2 ^ 94 }
    {
        let billions = u128::from(units) * 1_000_000_000;
        match self.per_second() {
            Some(count) => billions / count,
            None => 0,
        }
    }
}
