//! What a check answers.

/// What a check answers: yes, with the number of events, if the report is that of a run which is
/// accounted for; otherwise the first thing that is wrong with it. Lines and events count from 1.
#[derive(Clone, Copy, PartialEq, Eq)]
pub enum Answer {
    Yes(u32),
    /// The first line that is neither an event's nor a closing line, or is an event's after a
    /// closing line.
    NotLine(u32),
    /// The first event that may not come after those before it.
    NotRun(u32),
    /// A packet, a copy or a command isn't accounted for.
    NotAccount,
    /// The first line at which the report differs from that of its events.
    NotSame(u32),
}
