// What a line asks for.
ghost use Rattle.std.specs.Prelude.{◌≡◌};
ghost use Rattle.script.specs.Requests.{switch, rest_params, bias_params, magnetic_params, params, settings, numbers, construction, samples, asked, request};

use crate::line::{Fault, Line};
use crate::names::Name;
use algebra::Vector;
use inertial::InertialParams;
use inertial::types::BiasParams;
use magnetic::MagneticParams;
use tilt::RestParams;
use vqf::Params;

#[derive(Clone, Copy)]
pub struct Construction {
    pub gyr_ts: f64,
    pub acc_ts: Option<f64>,
    pub mag_ts: Option<f64>,
    pub settings: Option<Params>,
}

// A call with one answer.
#[derive(Clone, Copy)]
pub enum Call {
    New(Construction),
    Gyr(Vector),
    GyrWithTs(Vector, f64),
    Acc(Vector),
    Mag(Vector),
    TauAcc(f64),
    TauMag(f64),
    Motion(bool),
    Rest(bool),
    Dist(bool),
    Thresholds(f64, f64),
    Bias(Vector, Option<f64>),
    MagRef(f64, f64),
    Reset,
}

#[derive(Clone, Copy)]
pub struct Samples {
    pub gyr: Vector,
    pub acc: Vector,
    pub mag: Option<Vector>,
}

#[derive(Clone, Copy)]
pub enum Request {
    // The value of a function.
    Value(f64),
    State,
    Get,
    Update(Samples),
    Call(Call),
}

fn switch(x: f64) -> bool
    ensures { result ≡ switch x }
{
    x == 1.0
}

fn rest_params(values: [f64; 28]) -> RestParams
    ensures { result ≡ rest_params values }
{
    RestParams {
        rest_bias_est_enabled: switch(values[6]),
        mag_dist_rejection_enabled: switch(values[7]),
        bias_clip: values[10],
        rest_min_t: values[14],
        rest_filter_tau: values[15],
        rest_th_gyr: values[16],
        rest_th_acc: values[17],
    }
}

fn bias_params(values: [f64; 28]) -> BiasParams
    ensures { result ≡ bias_params values }
{
    BiasParams {
        motion_bias_est_enabled: switch(values[5]),
        bias_sigma_init: values[8],
        bias_forgetting_time: values[9],
        bias_sigma_motion: values[11],
        bias_vertical_forgetting_factor: values[12],
        bias_sigma_rest: values[13],
    }
}

fn magnetic_params(values: [f64; 28]) -> MagneticParams
    ensures { result ≡ magnetic_params values }
{
    MagneticParams {
        tau_mag: values[4],
        mag_current_tau: values[18],
        mag_ref_tau: values[19],
        mag_norm_th: values[20],
        mag_dip_th: values[21],
        mag_new_time: values[22],
        mag_new_first_time: values[23],
        mag_new_min_gyr: values[24],
        mag_min_undisturbed_time: values[25],
        mag_max_rejection_time: values[26],
        mag_rejection_factor: values[27],
    }
}

fn params(values: [f64; 28]) -> Params
    ensures { result ≡ params values }
{
    Params {
        inertial: InertialParams {
            tau_acc: values[3],
            rest: rest_params(values),
            bias: bias_params(values),
        },
        magnetic: magnetic_params(values),
    }
}

fn settings(is_house: bool, values: [f64; 28]) -> Option<Params>
    ensures { result ≡ settings is_house values }
{
    if is_house { None } else { Some(params(values)) }
}

impl Line {
    // The words behind the name as numbers; where none was given, 0.
    fn numbers(self) -> [f64; 28]
        ensures { result ≡ numbers self.values }
    {
        self.values.map(|value| value.unwrap_or(0.0))
    }

    fn construction(self) -> Construction
        ensures { result ≡ construction self }
    {
        let numbers = self.numbers();
        Construction {
            gyr_ts: numbers[0],
            acc_ts: self.values[1],
            mag_ts: self.values[2],
            settings: settings(self.is_house, numbers),
        }
    }

    fn samples(self) -> Samples
        ensures { result ≡ samples self }
    {
        let numbers = self.numbers();
        Samples {
            gyr: Vector(numbers[0], numbers[1], numbers[2]),
            acc: Vector(numbers[3], numbers[4], numbers[5]),
            mag: self.values[6].map(|x| Vector(x, numbers[7], numbers[8])),
        }
    }

    fn asked(self, name: Name) -> Request
        ensures { result ≡ asked self name }
    {
        let numbers = self.numbers();
        let x = numbers[0];
        let y = numbers[1];
        let v = Vector(x, y, numbers[2]);
        match name {
            Name::New => Request::Call(Call::New(self.construction())),
            Name::Gyr => Request::Call(Call::Gyr(v)),
            Name::GyrTs => Request::Call(Call::GyrWithTs(v, numbers[3])),
            Name::Acc => Request::Call(Call::Acc(v)),
            Name::Mag => Request::Call(Call::Mag(v)),
            Name::Upd => Request::Update(self.samples()),
            Name::TauAcc => Request::Call(Call::TauAcc(x)),
            Name::TauMag => Request::Call(Call::TauMag(x)),
            Name::Motion => Request::Call(Call::Motion(switch(x))),
            Name::Rest => Request::Call(Call::Rest(switch(x))),
            Name::Dist => Request::Call(Call::Dist(switch(x))),
            Name::Th => Request::Call(Call::Thresholds(x, y)),
            Name::Bias => Request::Call(Call::Bias(v, self.values[3])),
            Name::MagRef => Request::Call(Call::MagRef(x, y)),
            Name::Reset => Request::Call(Call::Reset),
            Name::State => Request::State,
            Name::Get => Request::Get,
            Name::Sqrt => Request::Value(numbers::sqrt(x)),
            Name::Sin => Request::Value(numbers::sin(x)),
            Name::Cos => Request::Value(numbers::cos(x)),
            Name::Tan => Request::Value(numbers::tan(x)),
            Name::Exp => Request::Value(numbers::exp(x)),
            Name::Asin => Request::Value(numbers::asin(x)),
            Name::Acos => Request::Value(numbers::acos(x)),
            Name::Atan2 => Request::Value(numbers::atan2(x, y)),
        }
    }

    // What the line asks for once it has ended, behind its name; nothing, if it has no word.
    pub fn request(self) -> Result<Option<(Name, Request)>, Fault>
        ensures { result ≡ request self }
    {
        match (self.fault, self.name) {
            (Some(fault), _) => Err(fault),
            (None, None) => Ok(None),
            (None, Some(name)) if self.is_complete(name) => Ok(Some((name, self.asked(name)))),
            (None, Some(_)) => Err(self.missing()),
        }
    }
}
