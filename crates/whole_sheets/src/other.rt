// The numbers that no line and no rule has.
ghost use Rattle.std.specs.Prelude.{◌<◌, ◌≢◌};

// A number above 0 that is neither a rule's, 1 to 10, nor a line's, 12 and 13.
#[derive(Clone, Copy, PartialEq, Eq)]
pub struct OtherNumber {
    pub number: u64,
    ghost no_rule: { 10 < number },
    ghost no_line: { (number ≢ 12) × (number ≢ 13) },
}
