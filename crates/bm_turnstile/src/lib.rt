//! A turnstile, which is a ticket lock: threads call one state, one call at a time, in the order of
//! their tickets. The state keeps a book of its calls, and contracts say which of them each
//! thread's seat has seen.
#![tactic(auto)]

mod booked;
mod rule;
mod seat;
mod tickets;
mod turnstile;
mod view;

pub use booked::Booked;
pub use seat::TurnSeat;
pub use turnstile::Turnstile;
