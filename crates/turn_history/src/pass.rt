//! The right to take turns, and what its owner knows.
use crate::historic::Historic;
use atomic_table::Seat;
use std::collections::LinkedList;

/// What a pass knows. No value of it is made.
pub struct View<E, B> {
    /// From 1 on, and 0 for a watcher, which takes no turn.
    pub number: u64,
    /// The base of the lock's value, and `None` in a pass that another took in.
    pub base: Option<B>,
    /// The ended turns that it has seen, each with an entry or without.
    pub seen: LinkedList<Option<E>>,
    /// The entries that it added.
    pub calls: LinkedList<E>,
    /// What it has out of the value.
    pub holding: LinkedList<(u64, u64)>,
    pub ticket: Option<u64>,
    pub in_turn: bool,
    /// In its turn: what each pass has out of the value.
    pub holdings: LinkedList<LinkedList<(u64, u64)>>,
    pub turns_left: u64,
    /// How many of the passes that the lock was made with it stands for.
    pub weight: u64,
    /// The number of the next pass, in the view that makes them.
    pub next_number: u64,
    /// Those that it took in, as long as it has to remember them.
    pub accounts: LinkedList<Account<E>>,
}

/// What is known of a pass that was handed in. No value of it is made.
pub struct Account<E> {
    pub number: u64,
    pub seen: LinkedList<Option<E>>,
    pub calls: LinkedList<E>,
}

/// A pass of a lock over `V`. It has no bytes; contracts see its lock as `table_id`, what it knows
/// as `me.0`, and in `me.1` whether the value is out with it.
pub type Pass<V> = Seat<Option<Box<V>>, View<<V as Historic>::Entry, <V as Historic>::Base>>;
