// What the filter answers when asked.
ghost use Rattle.std.specs.Prelude.{◌≡◌};
ghost use Rattle.std.specs.Float.{binary64};
ghost use Rattle.vqf.specs.Asked.{quat_3d, quat_6d, quat_9d, delta, bias_estimate, rest_detected, mag_dist_detected, relative_rest_deviations, mag_ref_norm, mag_ref_dip, params, coeffs, state};

use crate::types::{Coefficients, Params, State, VQF};
use algebra::Quaternion;
use inertial::asked::BiasEstimate;
use tilt::Deviations;

impl VQF {
    // The orientation by the gyroscope alone.
    pub fn quat_3d(self) -> Quaternion
        ensures { result ≡ quat_3d self }
    {
        self.inertial.state.inclination.gyr_quat
    }

    // The tilt, without the magnetometer.
    pub fn quat_6d(self) -> Quaternion
        ensures { result ≡ quat_6d binary64 self }
    {
        self.inertial.quat_6d()
    }

    // Tilt and heading.
    pub fn quat_9d(self) -> Quaternion
        ensures { result ≡ quat_9d binary64 self }
    {
        self.inertial
            .quat_6d()
            .apply_delta(self.magnetic.state.heading.delta)
    }

    // The angle in radians by which `quat_9d` turns further than `quat_6d`.
    pub fn delta(self) -> f64
        ensures { result ≡ delta self }
    {
        self.magnetic.state.heading.delta
    }

    // The gyro bias and its standard deviation, both in rad/s.
    pub fn bias_estimate(self) -> BiasEstimate
        ensures { result ≡ bias_estimate binary64 self }
    {
        self.inertial.bias_estimate()
    }

    // Whether the reader lies still.
    pub fn rest_detected(self) -> bool
        ensures { result ≡ rest_detected self }
    {
        self.inertial.state.rest.rest_detected
    }

    // Whether the magnetic field is disturbed.
    pub fn mag_dist_detected(self) -> bool
        ensures { result ≡ mag_dist_detected self }
    {
        self.magnetic.state.field.mag_dist_detected
    }

    // The last deviation of a gyro and of an accelerometer sample, each divided by its threshold.
    pub fn relative_rest_deviations(self) -> Deviations
        ensures { result ≡ relative_rest_deviations binary64 self }
    {
        self.inertial.relative_rest_deviations()
    }

    // The norm of the reference in the magnetometer's unit; 0 where there is none.
    pub fn mag_ref_norm(self) -> f64
        ensures { result ≡ mag_ref_norm self }
    {
        self.magnetic.state.field.mag_ref_norm
    }

    // The dip of the reference in radians.
    pub fn mag_ref_dip(self) -> f64
        ensures { result ≡ mag_ref_dip self }
    {
        self.magnetic.state.field.mag_ref_dip
    }

    // The settings in force.
    pub fn params(self) -> Params
        ensures { result ≡ params self }
    {
        let inertial = self.inertial.params;
        let magnetic = self.magnetic.params;
        Params { inertial, magnetic }
    }

    // What was worked out from the settings and the intervals.
    pub fn coeffs(self) -> Coefficients
        ensures { result ≡ coeffs self }
    {
        let inertial = self.inertial.coeffs;
        let magnetic = self.magnetic.coeffs;
        Coefficients { inertial, magnetic }
    }

    // All that changes from call to call.
    pub fn state(self) -> State
        ensures { result ≡ state self }
    {
        let inertial = self.inertial.state;
        let magnetic = self.magnetic.state;
        State { inertial, magnetic }
    }
}
