//! What a swap asks for, and why there is none.
ghost use Rattle.std.specs.Prelude.{◌≡◌, ◌<◌, ◌≤◌, true, false};

use bit_lists::OutOfMemory;

/// How many more nodes may be held, and how many a swap there and back may ask for.
#[derive(Clone, Copy, Debug, PartialEq, Eq, Drop)]
pub struct Room {
    pub free: u32,
    pub need: u32,
}

impl Room {
    /// Whether a swap there and back has room.
    pub fn is_enough(self) -> bool
        ensures enough { result ≡ true → self.need ≤ self.free }
        ensures short { result ≡ false → self.free < self.need }
    {
        self.need <= self.free
    }
}

/// Why two variables were not exchanged.
#[derive(Clone, Copy, Debug, PartialEq, Eq, Drop)]
pub enum SwapStop {
    /// There are fewer nodes free than needed.
    NoRoom(Room),
    /// Memory was wanted and refused.
    OutOfMemory,
}

impl From<OutOfMemory> for SwapStop {
    ghost use Rattle.std.specs.Prelude.{◌≡◌};
    ghost use Rattle.level_swap.specs.declared.needs.SwapStop.TheVariants as stops;

    ghost from_gives = { λ _ stop. stop ≡ stops.OutOfMemory };

    fn from(_: OutOfMemory) -> Self {
        SwapStop::OutOfMemory
    }
}
