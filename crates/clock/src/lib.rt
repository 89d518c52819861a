// The replay clock: IEEE 754 double precision.
#![tactic(auto)]

ghost use Rattle.std.specs.Prelude.{◌≡◌};
ghost use Rattle.rules.specs.Clock.{held_back};

// The least time between two replays that are not forced.
pub const SPACING: f64 = 1000.0;

// Whether a replay comes too soon after the last one: one subtraction, one comparison. A NaN is not held back.
pub fn held_back(now: f64, last: f64) -> bool
    ensures { result ≡ held_back now last }
{
    now - last < SPACING
}
