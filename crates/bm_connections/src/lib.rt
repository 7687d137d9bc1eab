//! Connections of a history: a table of what became of each, and its text.
#![tactic(auto)]

mod after_end;
mod all_needs;
mod answer;
mod base;
mod closed;
mod compared;
mod connection;
mod copies;
mod counters;
mod counts;
mod endings;
mod flow_set;
mod followed;
mod held;
mod last_seen;
mod late;
pub mod laws;
mod left_open;
mod moved;
mod needed;
mod needed_text;
mod needs;
mod observed;
mod owned;
mod replies;
mod resets;
mod rows;
mod seen;
mod servers;
mod stamps;
mod story;
mod summary;
mod summary_text;
mod table;
mod text;
mod thrice;
mod times;
mod unretired;
mod unsteered;
mod waits;

pub use after_end::{AfterEnd, after_end_text};
pub use answer::{Answer, answer_of, answer_text};
pub use base::{Parted, part, with_changes};
pub use compared::{Compared, Origin, compare_one, wholes};
pub use connection::{Break, Connection, Ending, Forwarding, Sight, Tally};
pub use copies::{CopyCount, are_copies, copies_in, copies_text};
pub use counts::CauseCount;
pub use late::LongestLate;
pub use left_open::{OpenEnd, OpenEnds, is_left_open, open_ends, open_ends_text};
pub use needed::{NeededChange, NeededServer};
pub use needed_text::{moved_thrice_text, needed_changes_text, needed_servers_text};
pub use needs::{Need, NeedOf};
pub use owned::{OwnedCount, Owners};
pub use servers::ServerCount;
pub use story::story_text;
pub use summary::{Summary, summary_of};
pub use summary_text::{causes_text, late_text, servers_text};
pub use table::connections;
pub use text::{
    EndWords, EndingWord, RackWords, ServerWord, origin_word, shown_rack, table_text,
    write_connection,
};
pub use thrice::MovedThrice;
pub use times::{Clock, SecondsText, TimeText};
pub use unsteered::{ReasonCount, Unsteered, unsteered_in, unsteered_text};
pub use waits::{Needs, needs_of};
