//! Why a step is refused.
use bit_lists::OutOfMemory;
use node_store::StoreStop;

/// Why a step was refused.
#[derive(Clone, Copy, Debug, PartialEq, Eq, Drop)]
pub enum QuadStop {
    /// A coefficient of raw has more bits than the width.
    Width,
    /// The store holds as many nodes as its limit lets it.
    Full { held: u32 },
    /// Memory was wanted and refused.
    OutOfMemory,
}

impl From<OutOfMemory> for QuadStop {
    ghost use Rattle.std.specs.Prelude.{◌≡◌};
    ghost use Rattle.slice_quad.specs.declared.stop.QuadStop.TheVariants as stops;

    ghost from_gives = { λ _ stop. stop ≡ stops.OutOfMemory };

    fn from(_: OutOfMemory) -> Self {
        QuadStop::OutOfMemory
    }
}

impl From<StoreStop> for QuadStop {
    ghost use Rattle.std.specs.Prelude.{◌≡◌};
    ghost use Rattle.slice_quad.specs.Stops.{stop_of};

    ghost from_gives = { λ cause stop. stop ≡ stop_of cause };

    fn from(cause: StoreStop) -> Self {
        match cause {
            StoreStop::Full { held } => QuadStop::Full { held },
            StoreStop::OutOfMemory => QuadStop::OutOfMemory,
        }
    }
}
