// What can be asked for.
use crate::numbers::Ended;

#[derive(Clone, Copy)]
pub enum Job {
    Flow,
    LccPoint,
    VscPoint,
    FaultRun,
    SwitchingRun,
    Detection,
    Sweep,
    Operation,
    KeptFaultRun,
    KeptSwitchingRun,
    KeptSweep,
    Times,
    Step,
    Circuit,
    TimedFaultRun,
    Printed,
}

// By its number: 1 to 7 what the library offers, from 8 on parts of it, and kept studies. The reading ends at any other.
impl TryFrom<u64> for Job {
    type Error = Ended;

    fn try_from(number: u64) -> Result<Job, Ended> {
        match number {
            1 => Ok(Job::Flow),
            2 => Ok(Job::LccPoint),
            3 => Ok(Job::VscPoint),
            4 => Ok(Job::FaultRun),
            5 => Ok(Job::SwitchingRun),
            6 => Ok(Job::Detection),
            7 => Ok(Job::Sweep),
            8 => Ok(Job::Operation),
            9 => Ok(Job::KeptFaultRun),
            10 => Ok(Job::KeptSwitchingRun),
            11 => Ok(Job::KeptSweep),
            12 => Ok(Job::Times),
            13 => Ok(Job::Step),
            14 => Ok(Job::Circuit),
            15 => Ok(Job::TimedFaultRun),
            16 => Ok(Job::Printed),
            _ => Err(Ended),
        }
    }
}
