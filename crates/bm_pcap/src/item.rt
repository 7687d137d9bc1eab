//! What a reader returns.
use bm_base::Moment;

/// What comes next in a capture: a record, with its number counted from 1, its moment and its
/// octets; the number of a record that is cut short; the end.
#[derive(Clone, Copy)]
pub enum Item<'a> {
    Record {
        number: u32,
        moment: Moment,
        octets: &'a [u8],
    },
    Cut(u32),
    End,
}
