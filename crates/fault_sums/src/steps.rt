// The currents of a fault over steps in which it lasts. They are worked out in blocks of sixteen steps and folded in order, so that every number is the one that a step by
// itself would give. The last block is worked out whole, and folded as far as there are steps.
ghost use Rattle.std.specs.Prelude.{◌≡◌, ◌+◌, ◌-◌, ◌^◌, ◌<◌, min};
ghost use Rattle.lists.specs.Tables.{tab};
ghost use Rattle.float64.specs.Constants.{one};
ghost use Rattle.float64.specs.Arithmetic.{◌⊗◌, of};
ghost use Rattle.fault_circuit.specs.Constants.{ground_part, internal_part};
ghost use Rattle.fault_plan.specs.Fault.{dissipated};
ghost use Rattle.fault_currents.specs.Sites.{site_current};
ghost use Rattle.fault_sums.specs.Sums.{no_sums, sums_from, sums_of, with_factor};
ghost use Rattle.fault_sums.specs.Blocks.{added, block_times, lanes_from};

use fault_circuit::FaultCircuit;
use fault_currents::site_currents_ka;
use float64::max;
use grid::Count;
use lanes::LANES;
use run_start::step_time_ms;

// Of the steps folded so far.
#[derive(Clone, Copy)]
pub struct Sums {
    // Their greatest current. A NaN is passed over.
    pub peak_ka: f64,
    // The heat in the resistances of fault and cable.
    pub energy_mj: f64,
    // The current of the last of them.
    pub current_ka: f64,
}

// Of the three types of fault at one place: from pole to ground, from pole to pole, inside the converter.
#[derive(Clone, Copy)]
pub struct SiteSums {
    pub to_ground: Sums,
    pub pole: Sums,
    pub internal: Sums,
}

// How many steps of a block there are, of which each takes a lane.
type StepCount = Count<LANES>;

// Some steps one after another. Lanes past them have the current at time 0, and are not folded: all sixteen are computed at once, so that the array stays whole.
#[derive(Clone, Copy)]
struct Block {
    // Before the factor of the fault's type.
    current_ka: [f64; LANES],
    steps: StepCount,
}

// The steps from the number `first` up to `end`, which is not folded, after those in `start`. It stays as it is where `first` is not below `end`.
pub fn fault_sums(circuit: FaultCircuit, dt_ms: f64, first: u64, end: u64, start: Sums) -> Sums
    ensures { result ≡ sums_of circuit dt_ms first start (end - first) }
{
    let r_ohm = circuit.r_fault_ohm + circuit.r_total_ohm;
    let mut s = start;
    let mut step = first;
    // A `while`, here and in `site_sums`: a range over the blocks would need their number, and the last block's length besides. The two loops stay two: one over any
    // fold of a block would need a contract on what is folded, which is longer than the loop.
    while step < end {
        let block = block_from(circuit, dt_ms, step, end);
        s = add_block(s, &block, circuit.type_factor, r_ohm, dt_ms);
        step += block.steps.value as u64;
    }
    s
}

// The same of the three types of fault at the place, from nothing on. Only the last factor of a current depends on the type, so what comes before it is worked out once.
#[tactic(auto, using(crate::proofs::Blocks::blocks_done))]
pub fn site_sums(circuit: FaultCircuit, dt_ms: f64, first: u64, end: u64) -> SiteSums
    ensures { (result.to_ground ≡ sums_of (with_factor circuit ground_part) dt_ms first no_sums (end - first)) × (result.pole ≡ sums_of (with_factor circuit one) dt_ms first no_sums (end - first)) × (result.internal ≡ sums_of (with_factor circuit internal_part) dt_ms first no_sums (end - first)) }
{
    let r_ohm = circuit.r_fault_ohm + circuit.r_total_ohm;
    let none = Sums {
        peak_ka: 0.0,
        energy_mj: 0.0,
        current_ka: 0.0,
    };
    let mut s = SiteSums {
        to_ground: none,
        pole: none,
        internal: none,
    };
    let mut at = first;
    while at < end {
        let block = block_from(circuit, dt_ms, at, end);
        s = add_site_block(s, &block, r_ohm, dt_ms);
        at += block.steps.value as u64;
    }
    s
}

// The steps from the number `first` on: up to `end`, which is not one of them, and no more than lanes.
fn block_from(circuit: FaultCircuit, dt_ms: f64, first: u64, end: u64) -> Block
    ensures steps { result.steps.value ≡ min (end - first) LANES }
    ensures currents { result.current_ka ≡ tab LANES (λ j. site_current circuit (of (block_times dt_ms first result.steps.value) j)) }
{
    let left = end.saturating_sub(first);
    let steps = StepCount::of(left as usize);
    let t_ms = block_times(dt_ms, first, steps);
    let mut current_ka = [0.0; LANES];
    site_currents_ka(&mut current_ka, circuit, &t_ms);
    Block { current_ka, steps }
}

// The times of some steps, and zeros past them: no step is numbered past the last.
#[tactic(auto, using(lists::proofs::Fills::upto_none, lists::proofs::Fills::upto_more), unfolding(lists::specs::Tables::blank))]
fn block_times(dt_ms: f64, first: u64, steps: StepCount) -> [f64; LANES]
    requires { first + steps.value < 2 ^ 64 }
    ensures { result ≡ block_times dt_ms first steps.value }
{
    let mut t_ms = [0.0; LANES];
    for j in 0..steps.value {
        t_ms[j] = step_time_ms(dt_ms, first + j as u64);
    }
    t_ms
}

// Folds the steps of a block, for each of the three types.
fn add_site_block(s: SiteSums, block: &Block, r_ohm: f64, dt_ms: f64) -> SiteSums
    ensures { (result.to_ground ≡ sums_from (λ j. of block.now.current_ka j ⊗ ground_part) (dissipated dt_ms r_ohm) 0 s.to_ground block.now.steps.value) × (result.pole ≡ sums_from (λ j. of block.now.current_ka j ⊗ one) (dissipated dt_ms r_ohm) 0 s.pole block.now.steps.value) × (result.internal ≡ sums_from (λ j. of block.now.current_ka j ⊗ internal_part) (dissipated dt_ms r_ohm) 0 s.internal block.now.steps.value) }
{
    SiteSums {
        to_ground: add_block(s.to_ground, block, 0.5, r_ohm, dt_ms),
        pole: add_block(s.pole, block, 1.0, r_ohm, dt_ms),
        internal: add_block(s.internal, block, 0.7, r_ohm, dt_ms),
    }
}

// Folds the steps of a block, for a type of this factor.
fn add_block(start: Sums, block: &Block, factor: f64, r_ohm: f64, dt_ms: f64) -> Sums
    ensures { result ≡ sums_from (λ j. of block.now.current_ka j ⊗ factor) (dissipated dt_ms r_ohm) 0 start block.now.steps.value }
{
    let typed = typed_currents(&block.current_ka, factor);
    let heat = heats(&block.current_ka, factor, r_ohm, dt_ms);
    add_lanes(start, &typed, &heat, block.steps)
}

#[tactic(auto, using(lists::proofs::Fills::upto_none, lists::proofs::Fills::upto_more), unfolding(lists::specs::Tables::blank))]
fn typed_currents(i: &[f64; LANES], factor: f64) -> [f64; LANES]
    ensures { result ≡ tab LANES (λ j. of i.now j ⊗ factor) }
{
    let mut typed = [0.0; LANES];
    for j in 0..LANES {
        typed[j] = i[j] * factor;
    }
    typed
}

// I²R·dt of a step, in MJ, lane by lane.
#[tactic(auto, using(lists::proofs::Fills::upto_none, lists::proofs::Fills::upto_more), unfolding(lists::specs::Tables::blank))]
fn heats(i: &[f64; LANES], factor: f64, r_ohm: f64, dt_ms: f64) -> [f64; LANES]
    ensures { result ≡ tab LANES (λ j. dissipated dt_ms r_ohm (of i.now j ⊗ factor)) }
{
    let dt_s = dt_ms * 0.001;
    let mut heat = [0.0; LANES];
    for j in 0..LANES {
        let i_a = i[j] * factor * 1000.0;
        heat[j] = i_a * i_a * r_ohm * dt_s / 1000000.0;
    }
    heat
}

// Folds the lanes of some steps in order, on which sums of doubles depend. Both arrays have the one count: of slices a clause would have to say that they are as long.
#[tactic(auto, using(crate::proofs::Blocks::lanes_done))]
fn add_lanes(start: Sums, i: &[f64; LANES], heat: &[f64; LANES], steps: StepCount) -> Sums
    ensures { result ≡ lanes_from (of i.now) (of heat.now) 0 start steps.value }
{
    let mut s = start;
    for lane in 0..steps.value {
        s = add_step(s, i[lane], heat[lane]);
    }
    s
}

fn add_step(s: Sums, i_ka: f64, heat_mj: f64) -> Sums
    ensures { result ≡ added i_ka heat_mj s }
{
    Sums {
        peak_ka: max(s.peak_ka, i_ka),
        energy_mj: s.energy_mj + heat_mj,
        current_ka: i_ka,
    }
}
