// The whole part of a double.
ghost use Rattle.std.specs.Prelude.{◌≡◌, ◌-◌, ◌%◌, ◌^◌, ◌<◌, T};
ghost use Rattle.std.specs.Float.Ieee.{lt};
ghost use Rattle.float64.specs.Constants.{nought};
ghost use Rattle.float64.specs.Whole.{whole_part};

// f64::trunc
pub fn whole_part(x: f64) -> f64
    ensures { result ≡ whole_part x }
{
    if 0.0 < x {
        return whole_part_above(x);
    }
    if x < 0.0 {
        return -whole_part_above(-x);
    }
    x
}

// By the bit pattern: a double below 1 has no whole part, one from 2^52 up no fraction, and in between the digits of the fraction are the last 1075 - e
// of the pattern, e its exponent's field.
fn whole_part_above(x: f64) -> f64
    requires { T (lt nought x) }
    ensures { result ≡ whole_part x }
{
    let b = f64::to_bits(x);
    let e = b >> 52;
    if e < 1023 {
        return 0.0;
    }
    if e >= 1075 {
        return x;
    }
    f64::from_bits(without_last(b, 1075 - e))
}

// The last n binary digits cleared.
fn without_last(b: u64, n: u64) -> u64
    requires { n < 64 }
    ensures { result ≡ b - b % 2 ^ n }
{
    b - b % (1 << n)
}
