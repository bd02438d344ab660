use inertial::{Inertial, InertialCoefficients, InertialParams, InertialState};
use limits::Answer;
use magnetic::{Magnetic, MagneticCoefficients, MagneticParams, MagneticState};

#[derive(Clone, Copy)]
pub struct Params {
    pub inertial: InertialParams,
    pub magnetic: MagneticParams,
}

#[derive(Clone, Copy)]
pub struct Coefficients {
    pub inertial: InertialCoefficients,
    pub magnetic: MagneticCoefficients,
}

#[derive(Clone, Copy)]
pub struct State {
    pub inertial: InertialState,
    pub magnetic: MagneticState,
}

#[derive(Clone, Copy)]
pub struct VQF {
    pub inertial: Inertial,
    pub magnetic: Magnetic,
}

pub type Updated = limits::Updated<VQF>;

#[derive(Clone, Copy)]
pub struct UpdatedAll {
    pub gyr: Answer,
    pub acc: Answer,
    pub mag: Answer,
    pub filter: VQF,
}
