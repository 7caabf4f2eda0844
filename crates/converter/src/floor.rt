// The least voltage, and the least rated power and current to divide by. What is smaller is raised to it.
pub const LEAST: f64 = 0.000001;
