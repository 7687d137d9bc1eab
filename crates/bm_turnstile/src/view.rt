//! What the rule of the tickets says of each seat. No value of these types is made.
use std::collections::LinkedList;

/// A seat's stage.
pub enum Stage<E> {
    /// It has no ticket.
    Idle,
    /// It has this ticket.
    Waiting(u64),
    /// Its ticket is served. It has the state, whose entries were these.
    Served(u64, LinkedList<E>),
}

/// A seat that was given back: its number, and the entries that it has seen.
pub struct Old<E> {
    pub number: u64,
    pub seen: LinkedList<E>,
}

/// What a seat knows.
pub struct View<X, E> {
    /// It was given back.
    pub spent: bool,
    pub number: u64,
    pub turns: u64,
    /// How many numbers were given, as the first seat knows it.
    pub given: u64,
    pub fixed: Option<X>,
    pub seen: LinkedList<E>,
    pub stage: Stage<E>,
    /// What the seats that were given back to this one had seen.
    pub olds: LinkedList<Old<E>>,
}
