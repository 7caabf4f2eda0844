// Sixteen numbers squared, each by one rounded product.
ghost use Rattle.std.specs.Prelude.{◌≡◌};
ghost use Rattle.std.specs.Float.{nan};
ghost use Rattle.lists.specs.Tables.{over};
ghost use Rattle.float64.specs.Arithmetic.{◌⊗◌, of};

use crate::LANES;

// Each lane becomes its square.
pub fn square_lanes(p: &mut [f64; LANES])
    ensures { p.new ≡ over LANES (λ j. of p.old j ⊗ of p.old j) nan p.old }
{
    for j in 0..LANES {
        p[j] = p[j] * p[j];
    }
}
