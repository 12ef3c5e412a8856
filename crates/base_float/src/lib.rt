// What a binary32 value is stored as: itself where it is finite, else -99,999.
#![tactic(auto)]

ghost use Rattle.std.specs.Prelude.{◌≡◌};
ghost use Rattle.base_float.specs.Finite.{stored};

// The value that is stored where x would be.
pub fn to_store(x: f32) -> f32
    ensures { result ≡ stored x }
{
    if x.is_finite() { x } else { -99999.0f32 }
}
