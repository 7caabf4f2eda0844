// How fast breakers clear a fault.
ghost use Rattle.std.specs.Prelude.{◌≡◌, cond};
ghost use Rattle.std.specs.Float.Ieee.{lt};
ghost use Rattle.breaker_times.specs.Breakers.{clearing_time_of, fastest_of};

use grid::{BreakerCount, DcBreakerType, DcSwitchingSimulator};
use timing::duration_ms;

// breaker_clearing_time_ms
pub fn breaker_clearing_time_ms(breaker_type: DcBreakerType) -> f64
    ensures { result ≡ clearing_time_of breaker_type }
{
    match breaker_type {
        DcBreakerType::Mechanical { opening_time_ms } => opening_time_ms,
        DcBreakerType::SolidState {
            turn_off_time_us,
            on_state_loss_pct: _,
        } => turn_off_time_us / 1000.0,
        DcBreakerType::HybridBreaker {
            opening_time_ms,
            commutation_time_us,
        } => commutation_time_us / 1000.0 + opening_time_ms * 0.3,
    }
}

// DcSwitchingSimulator::fastest_breaker_clearing_ms
pub fn fastest_breaker_clearing_ms(g: DcSwitchingSimulator) -> f64
    ensures { result ≡ fastest_of g }
{
    let n = BreakerCount::of(g.n_breakers);
    if n.value == 0 {
        return duration_ms(g);
    }
    // Taken out of the grid: where the grid is lent, the call copies all of it.
    let breakers = g.breakers;
    let mut fastest = f64::MAX;
    for b in &breakers[..n.value] {
        fastest = faster_of(fastest, breaker_clearing_time_ms(b.breaker_type));
    }
    fastest
}

// f64::min with one comparison in place of two: the first is never a NaN.
fn faster_of(fastest: f64, t: f64) -> f64
    ensures { result ≡ cond (lt t fastest) t fastest }
{
    if t < fastest { t } else { fastest }
}
