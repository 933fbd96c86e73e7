//! Calls that fail by their number, counted from 1.
ghost use Rattle.std.specs.Prelude.{◌≡◌};
ghost use Rattle.outside.specs.Memory.{is_next_bad};

// The next call after so many is one of those that fail.
pub fn is_next_bad(calls: u64, bad: &[u32]) -> bool
    ensures { result ≡ is_next_bad calls bad.now }
{
    let next = calls.saturating_add(1);
    bad.iter().any(|number| u64::from(*number) == next)
}
