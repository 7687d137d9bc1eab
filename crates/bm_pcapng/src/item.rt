//! What a reader returns.
use bm_base::Moment;

/// What comes next in a capture: a record, with its number counted from 1, its moment, the link
/// type of its interface and its octets; the number of a record that is cut short; the end.
#[derive(Clone, Copy)]
pub enum NgItem<'a> {
    Record {
        number: u32,
        moment: Moment,
        link: u16,
        octets: &'a [u8],
    },
    Cut(u32),
    End,
}
