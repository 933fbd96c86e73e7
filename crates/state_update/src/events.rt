//! What may happen to the nodes of a state, what is told of it, and where a list of events stopped.
use amp_dense::Stop;
use gate_set::Gate;
use level_swap::Room;
use sifting::Sifted;

/// One event: a gate, or upkeep of the diagrams, which changes no entry.
#[derive(Drop)]
pub enum Event {
    /// The gate is applied.
    Gate(Gate),
    /// The nodes that the integers don't reach are freed.
    Reclaim,
    /// The variables at a place of the order and at the next one change places.
    Swap(u8),
    /// A variable is moved to its least place.
    SiftOne(u8),
    /// All variables are moved so, one after the other.
    SiftAll,
    /// The cache is emptied.
    ForgetCache,
}

/// What is told of an event.
#[derive(Drop)]
pub enum Report {
    /// The gate was accepted.
    Stepped,
    /// So many nodes were freed.
    Freed(u32),
    /// The variables changed places.
    Swapped,
    /// There are fewer nodes free than a swap there and back may need. Nothing changed.
    NoRoom(Room),
    /// Where the variable was put.
    OneSifted(Sifted),
    /// Where the variables 0, 1, 2 and so on were put.
    AllSifted(Vec<Sifted>),
    /// The cache is empty.
    Forgotten,
}

/// The place of the event of a list that stopped, counted from 0, and why it did.
#[derive(Clone, Copy)]
pub struct EventStop {
    pub at: u32,
    pub stop: Stop,
}
