// f64::consts: the nearest doubles.
ghost use Rattle.std.specs.Prelude.{◌≡◌};
ghost use Rattle.square_root.specs.Constants.{sqrt2};

pub const SQRT_2: f64 = 1.4142135623730951;

// SQRT_2. No other function here uses the constant, so this promise is what holds it to its definition.
pub fn root_of_two() -> f64
    ensures { result ≡ sqrt2 }
{
    SQRT_2
}
