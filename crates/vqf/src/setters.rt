// The setters: each is that of the half that it sets. The disturbance switch and the reset set both.
ghost use Rattle.std.specs.Prelude.{◌≡◌};
ghost use Rattle.std.specs.Float.{binary64};
ghost use Rattle.vqf.specs.Told.{told_of};
ghost use Rattle.vqf.specs.Setters.{set_tau_acc, set_tau_mag, set_motion_bias_est_enabled, set_rest_bias_est_enabled, set_mag_dist_rejection_enabled, set_rest_detection_thresholds, set_bias_estimate, set_mag_ref, reset_state};

use crate::types::{Updated, VQF};
use algebra::Vector;
use limits::Answer;

impl VQF {
    // How slowly the tilt follows the accelerometer, in seconds.
    #[tactic(auto, unfolding(crate::specs::Setters::set_tau_acc))]
    pub fn set_tau_acc(self, tau_acc: f64) -> Updated
        ensures { told_of result ≡ set_tau_acc binary64 self tau_acc }
    {
        self.inertially(self.inertial.set_tau_acc(tau_acc))
    }

    // How slowly the heading follows the magnetometer, in seconds; 0: at once; below 0: not, but for the first sample.
    #[tactic(auto, unfolding(crate::specs::Setters::set_tau_mag))]
    pub fn set_tau_mag(self, tau_mag: f64) -> Updated
        ensures { told_of result ≡ set_tau_mag binary64 self tau_mag }
    {
        self.magnetically(self.magnetic.set_tau_mag(tau_mag))
    }

    // Whether the bias is estimated in motion.
    #[tactic(auto, unfolding(crate::specs::Setters::set_motion_bias_est_enabled))]
    pub fn set_motion_bias_est_enabled(self, enabled: bool) -> Updated
        ensures { told_of result ≡ set_motion_bias_est_enabled self enabled }
    {
        let filter = self.inertial.set_motion_bias_est_enabled(enabled);
        self.inertially(limits::Updated {
            answer: Answer::Done,
            filter,
        })
    }

    // Whether rest is detected, and the bias estimated there.
    #[tactic(auto, unfolding(crate::specs::Setters::set_rest_bias_est_enabled))]
    pub fn set_rest_bias_est_enabled(self, enabled: bool) -> Updated
        ensures { told_of result ≡ set_rest_bias_est_enabled binary64 self enabled }
    {
        let filter = self.inertial.set_rest_bias_est_enabled(enabled);
        self.inertially(limits::Updated {
            answer: Answer::Done,
            filter,
        })
    }

    // Whether a disturbed field is noticed and kept from the heading.
    #[tactic(auto, unfolding(crate::specs::Setters::set_mag_dist_rejection_enabled))]
    pub fn set_mag_dist_rejection_enabled(self, enabled: bool) -> Updated
        ensures { told_of result ≡ set_mag_dist_rejection_enabled binary64 self enabled }
    {
        if self.inertial.params.rest.mag_dist_rejection_enabled == enabled {
            Updated {
                answer: Answer::Done,
                filter: self,
            }
        } else {
            let inertial = self.inertial.set_mag_dist_rejection_enabled(enabled);
            let magnetic = self.magnetic.restarted();
            let filter = VQF { inertial, magnetic };
            Updated {
                answer: Answer::Done,
                filter,
            }
        }
    }

    // The deviations from which a sample is not quiet: in °/s and in m/s².
    #[tactic(auto, unfolding(crate::specs::Setters::set_rest_detection_thresholds))]
    pub fn set_rest_detection_thresholds(self, th_gyr: f64, th_acc: f64) -> Updated
        ensures { told_of result ≡ set_rest_detection_thresholds binary64 self th_gyr th_acc }
    {
        self.inertially(self.inertial.set_rest_detection_thresholds(th_gyr, th_acc))
    }

    // The gyro bias in rad/s, with a standard deviation in rad/s or the covariance that there is.
    #[tactic(auto, unfolding(crate::specs::Setters::set_bias_estimate))]
    pub fn set_bias_estimate(self, bias: Vector, sigma: Option<f64>) -> Updated
        ensures { told_of result ≡ set_bias_estimate binary64 self bias sigma }
    {
        self.inertially(self.inertial.set_bias_estimate(bias, sigma))
    }

    // The reference: its norm in the magnetometer's unit, its dip in radians.
    #[tactic(auto, unfolding(crate::specs::Setters::set_mag_ref))]
    pub fn set_mag_ref(self, norm: f64, dip: f64) -> Updated
        ensures { told_of result ≡ set_mag_ref binary64 self norm dip }
    {
        self.magnetically(self.magnetic.set_mag_ref(norm, dip))
    }

    // The state of a filter just built with the settings as they are now.
    #[tactic(auto, unfolding(crate::specs::Setters::reset_state))]
    pub fn reset_state(self) -> Updated
        ensures { told_of result ≡ reset_state binary64 self }
    {
        let inertial = self.inertial.reset_state();
        let magnetic = self.magnetic.reset_state();
        let filter = VQF { inertial, magnetic };
        Updated {
            answer: Answer::Done,
            filter,
        }
    }
}
