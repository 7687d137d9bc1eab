//! The logs of a run, merged by threads.
ghost use Rattle.std.specs.Prelude.{◌≡◌, ◌<◌, ◌≤◌, ◌-◌, [], ◌++◌, length, map};
ghost use Rattle.std.specs.Prelude.{false, IfOk, OnOk};
ghost use Rattle.std.specs.List.{AllByRecursion};
ghost use Rattle.std.specs.Thread.{IsSync};
ghost use Rattle.bm_merge.specs.Merges.{joined};
ghost use Rattle.bm_merge.specs.Rising.{IsRising, in_order as by_order};
ghost use Rattle.bm_merge.specs.Inside.Rising.{all_logs};
ghost use Rattle.bm_world.specs.Inside.Logged as logged;
ghost use Rattle.bm_world.specs.Inside.Logged.{HasMerged, HaveMerged, books_logs, one_refused};

use bm_base::Memory;
use bm_core::{Event, Log};
use bm_merge::{EventLog, join_in_order, merge_rising, merge_rising_beside, room_for};
use bm_server::Books;
use bm_shard::ShardBook;
use core::mem::replace;
use std::alloc::Global;
use std::thread;
use std::thread::Threads;

/// What happened at a shard. Merging events alone is faster than merging the entries of books,
/// which are larger.
#[derive(Drop)]
struct RunLog {
    events: Vec<Event>,
}

impl EventLog for RunLog {
    ghost events = { logged.log_events };

    fn count(&self) -> usize {
        self.events.len()
    }

    fn event(&self, place: usize) -> Event {
        self.events[place]
    }
}

/// What happened at the shard of a book.
fn log_of(alloc: Global, book: &ShardBook) -> Result<RunLog, Memory>
    ensures events { IfOk result (λ log. logged.log_events log ≡ logged.book_log book.now) }
    ensures rising { IfOk result (λ _. IsRising (logged.book_log book.now)) }
{
    let entries = book.history();
    let mut events = Vec::with_capacity(alloc, entries.len())?;
    for entry in entries {
        events.push(entry.event)?;
    }
    Ok(RunLog { events })
}

/// Adds what happened at each shard of a server.
fn add_books(alloc: Global, books: &Books, logs: &mut Vec<RunLog>) -> Result<(), Memory>
    ensures logs { OnOk result (map logged.log_events logs.new.items
        ≡ map logged.log_events logs.old.items ++ map logged.book_log books.now) }
    ensures rising { OnOk result (AllByRecursion IsRising (map logged.book_log books.now)) }
{
    for book in books.items() {
        logs.push(log_of(alloc, book)?)?;
    }
    Ok(())
}

/// What happened at the shards of these servers. Each server's books are dropped as soon as they
/// are read.
fn book_logs(alloc: Global, all: Vec<Books>) -> Result<Vec<RunLog>, Memory>
    ensures logs { IfOk result
        (λ logs. map logged.log_events logs.items ≡ books_logs all.items) }
    ensures rising { IfOk result
        (λ logs. AllByRecursion IsRising (map logged.log_events logs.items)) }
{
    let mut logs = Vec::new(alloc);
    for books in all {
        add_books(alloc, &books, &mut logs)?;
    }
    Ok(logs)
}

/// Several logs of a run in a row.
#[derive(Drop)]
enum Source {
    /// Those of the controller and the muxes.
    Workers(Vec<Log>),
    /// Those in the books of some servers.
    Servers(Vec<Books>),
}

impl Source {
    /// How many workers or servers these logs belong to.
    fn len(&self) -> usize
        ensures { result ≡ logged.source_size self.now }
    {
        match self {
            Source::Workers(logs) => logs.len(),
            Source::Servers(all) => all.len(),
        }
    }

    /// Splits off the logs after those of the first `size` workers or servers.
    fn split_off(&mut self, size: usize) -> Result<Source, Memory>
        requires { size ≤ logged.source_size self.old }
        ensures logs { IfOk result (λ rest. logged.source_logs self.new ++ logged.source_logs rest
            ≡ logged.source_logs self.old) }
        ensures size { IfOk result
            (λ rest. logged.source_size rest ≡ logged.source_size self.old - size) }
    {
        match self {
            Source::Workers(logs) => Ok(Source::Workers(logs.split_off(size)?)),
            Source::Servers(all) => Ok(Source::Servers(all.split_off(size)?)),
        }
    }

    /// All events of these logs, by clock.
    fn merged(self, alloc: Global) -> Result<Vec<Event>, Memory>
        ensures { IfOk result
            (λ events. events.items ≡ by_order (joined (logged.source_logs self))) }
    {
        match self {
            Source::Workers(logs) => join_in_order(alloc, logs.as_slice()),
            Source::Servers(all) => {
                let logs = book_logs(alloc, all)?;
                merge_rising(alloc, logs.as_slice())
            }
        }
    }
}

/// The logs that a thread merges, and then their events by clock.
#[derive(Drop)]
struct Group {
    source: Source,
    events: Vec<Event>,
    /// Whether memory was refused for the events.
    refused: bool,
}

impl Group {
    /// These logs, not yet merged.
    fn new(alloc: Global, source: Source) -> Group
        ensures source { result.source ≡ source }
        ensures events { result.events.items ≡ [] }
        ensures refused { result.refused ≡ false }
    {
        Group {
            source,
            events: Vec::new(alloc),
            refused: false,
        }
    }

    /// Merges the logs, and drops them.
    fn merge(&mut self, alloc: Global)
        ensures { HasMerged self.old self.new }
    {
        let source = replace(&mut self.source, Source::Workers(Vec::new(alloc)));
        match source.merged(alloc) {
            Ok(events) => self.events = events,
            Err(_) => self.refused = true,
        }
    }
}

/// Adds these logs in at most `most` groups, all but the last of equally many workers or servers.
fn add_groups(
    alloc: Global,
    source: Source,
    most: usize,
    groups: &mut Vec<Group>,
) -> Result<(), Memory>
    requires { 0 < most }
    ensures { OnOk result (all_logs (map logged.group_logs groups.new.items)
        ≡ all_logs (map logged.group_logs groups.old.items) ++ logged.source_logs source) }
{
    let size = source.len().div_ceil(most).max(1);
    let mut all = source;
    while all.len() > size {
        let rest = all.split_off(size)?;
        groups.push(Group::new(alloc, all))?;
        all = rest;
    }
    groups.push(Group::new(alloc, all))?;
    Ok(())
}

/// The logs in groups: the workers' in at most `most`, and after them the servers' in at most as
/// many.
fn grouped(
    alloc: Global,
    workers: Vec<Log>,
    all: Vec<Books>,
    most: usize,
) -> Result<Vec<Group>, Memory>
    requires { 0 < most }
    ensures { IfOk result (λ groups. all_logs (map logged.group_logs groups.items)
        ≡ workers.items ++ books_logs all.items) }
{
    let mut groups = Vec::new(alloc);
    add_groups(alloc, Source::Workers(workers), most, &mut groups)?;
    add_groups(alloc, Source::Servers(all), most, &mut groups)?;
    Ok(groups)
}

/// Merges the logs of each group, all in parallel, and waits for all of them.
fn merge_each<R: Threads + Sync>(rt: &R, alloc: Global, groups: &mut [Group])
    ensures count { length groups.new ≡ length groups.old }
    ensures each { HaveMerged groups.old groups.new }
{
    let threads = groups.len().max(1);
    thread::for_each_mut(
        rt,
        groups,
        threads,
        &|_, group: &mut Group|
            ensures { HasMerged group.entry.now group.exit.now }
        { group.merge(alloc) },
    );
}

/// Merges the logs of each group. In parallel it makes room for this many events.
fn merge_and_make_room<R: Threads + Sync>(
    rt: &R,
    alloc: Global,
    groups: &mut [Group],
    count: usize,
) -> Result<Vec<Event>, Memory>
    ensures count { length groups.new ≡ length groups.old }
    ensures each { HaveMerged groups.old groups.new }
{
    let ((), room) = thread::join_mut(
        rt,
        &mut ||
            requires { IsSync R.row }
            ensures { (length groups.exit.now ≡ length groups.entry.now)
                × HaveMerged groups.entry.now groups.exit.now }
        { merge_each(rt, alloc, groups) },
        &mut move || -> Result<Vec<Event>, Memory> { room_for(alloc, count) },
    );
    room
}

/// The events of each group.
fn merged_logs<'a>(alloc: Global, groups: &'a [Group]) -> Result<Vec<&'a [Event]>, Memory>
    ensures { IfOk result
        (λ logs. map (λ log. log.now) logs.items ≡ map logged.group_events groups.now) }
{
    let mut logs = Vec::with_capacity(alloc, groups.len())?;
    for group in groups {
        logs.push(group.events.as_slice())?;
    }
    Ok(logs)
}

/// Whether memory was refused for one of the groups.
fn is_one_refused(groups: &[Group]) -> bool
    ensures { result ≡ one_refused groups.now }
{
    for group in groups {
        if group.refused {
            return true;
        }
    }
    false
}

/// How many events the workers recorded.
fn count_of_workers(workers: &[Log]) -> usize {
    workers.iter().fold(0usize, |count, log| count.saturating_add(log.items().len()))
}

/// How many events happened at the shards of a server.
fn count_of_books(books: &Books) -> usize {
    books.items().iter().fold(0usize, |count, book| {
        count.saturating_add(book.history().len())
    })
}

/// How many events happened at the shards of all servers.
fn count_of_servers(all: &[Books]) -> usize {
    all.iter().fold(
        0usize,
        |count, books| count.saturating_add(count_of_books(books)),
    )
}

/// What the workers recorded and what happened at the shards of all servers, by clock. Those of one
/// clock are in the order of the logs. The workers' logs are merged in groups, at most twice as
/// many as these threads, and the servers' books in as many again; the merged groups are then
/// merged by these threads.
pub(crate) fn merge_beside<R: Threads + Sync>(
    rt: &R,
    alloc: Global,
    threads: usize,
    workers: Vec<Log>,
    all: Vec<Books>,
) -> Result<Vec<Event>, Memory>
    ensures { IfOk result
        (λ events. events.items ≡ by_order (joined (workers.items ++ books_logs all.items))) }
{
    let count = count_of_workers(&workers).saturating_add(count_of_servers(&all));
    // A thread with much to do keeps the others waiting, so there are more groups than threads.
    let most = threads.max(1).saturating_mul(2);
    let mut groups = grouped(alloc, workers, all, most)?;
    let room = merge_and_make_room(rt, alloc, groups.as_mut_slice(), count)?;
    if is_one_refused(groups.as_slice()) {
        return Err(Memory);
    }
    let logs = merged_logs(alloc, groups.as_slice())?;
    merge_rising_beside(rt, alloc, threads, logs.as_slice(), room)
}
