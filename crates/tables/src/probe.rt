//! Where a search over places ends, and how many places a table takes.
ghost use Rattle.std.specs.Prelude.{◌≡◌, ◌+◌, ◌/◌, ◌^◌, ◌<◌, ◌≤◌, IfOk};
ghost use Rattle.tables.specs.Searching.{node_of};

use std::alloc::AllocError;

/// The most keys that a table is made for: the number of its places stays below 2^32.
pub const MOST_KEYS: usize = 1 << 30;

/// The fewest places of a table that has any.
const FEWEST_PLACES: usize = 8;

/// Where a search ended: at the key, at a free place, or nowhere.
#[derive(Clone, Copy, Drop)]
pub enum Probe {
    Found { index: usize, node: u32 },
    Vacant { index: usize },
    Full,
}

impl Probe {
    /// The node at which the search ended, if it ended at one.
    pub fn node(self) -> Option<u32>
        ensures { result ≡ node_of self }
    {
        match self {
            Probe::Found { node, .. } => Some(node),
            Probe::Vacant { .. } => None,
            Probe::Full => None,
        }
    }
}

/// How many places a table takes for so many keys: a power of two, at most three quarters of which
/// are used.
pub fn places_for(keys: usize) -> Result<usize, AllocError>
    ensures { IfOk result (λ n. (keys + n / 4 ≤ n) × (n < 2 ^ 32)) }
{
    if keys > MOST_KEYS {
        return Err(AllocError);
    }
    let least = 2 * keys;
    Ok(least.max(FEWEST_PLACES).next_power_of_two())
}
