// The variables that the loop of 000's simulate_switching changes, by value; its flag among them.
use state_derivatives::DcTransientState;

#[derive(Clone, Copy)]
pub struct SwitchingVariables {
    pub state: DcTransientState,
    pub switched: bool,
}
