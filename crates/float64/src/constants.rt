// f64::consts: the nearest doubles.
pub const PI: f64 = 3.141592653589793;
