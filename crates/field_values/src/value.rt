// The double nearest to a number in decimal. Both whole numbers are doubles, so one division rounds once.
ghost use Rattle.std.specs.Prelude.{◌≡◌, false, ◌≤◌, ◌^◌};
ghost use Rattle.std.specs.Float.{binary64};
ghost use Rattle.std.specs.Float.Ieee.{round};

// The double nearest to digits / 10^places.
pub fn nearest_double(digits: u64, places: u64) -> f64
    requires digits_bound { digits ≤ 2 ^ 53 }
    requires places_bound { places ≤ 6 }
    ensures { result ≡ round binary64 false digits (10 ^ places) }
{
    let d = digits as f64;
    let p = 10u64.pow(places as u32) as f64;
    d / p
}
