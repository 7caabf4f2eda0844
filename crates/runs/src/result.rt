// 000's DcTransientResult with its flag, less the states: these are handed out by an advance.
#[derive(Clone, Copy)]
pub struct DcTransientResult {
    pub peak_fault_current_ka: f64,
    pub fault_clearing_time_ms: f64,
    pub energy_dissipated_mj: f64,
    pub voltage_recovery_time_ms: f64,
    pub max_di_dt: f64,
    pub fault_cleared: bool,
}
