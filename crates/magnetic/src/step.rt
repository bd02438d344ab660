// The magnetometer step.
ghost use Rattle.std.specs.Prelude.{◌≡◌};
ghost use Rattle.std.specs.Float.{binary64};
ghost use Rattle.magnetic.specs.Told.{told_of};
ghost use Rattle.magnetic.specs.Step.{tried_rejecting, tried_plain, tried, mag_step, update_mag};

use crate::field::{field_step, finite_field};
use crate::heading::{Rejection, corrected, finite_heading, rejected};
use crate::types::{Magnetic, MagneticState, Seen};
use algebra::Vector;
use limits::{Answer, Tried, Updated};

impl Magnetic {
    // With disturbance rejection on, from the sample in the earth frame.
    #[tactic(auto, unfolding(crate::specs::Step::tried_rejecting))]
    fn tried_rejecting(self, mag_earth: Vector, gyr_lp: Vector) -> Tried<MagneticState>
        ensures { result ≡ tried_rejecting binary64 self.state self.params self.coeffs mag_earth gyr_lp }
    {
        let p = self.params;
        let c = self.coeffs;
        let seen = field_step(self.state.field, p, c, mag_earth, gyr_lp);
        let Rejection { k, field } = rejected(seen, p, c);
        let angle = numbers::atan2(mag_earth.0, mag_earth.1);
        let heading = corrected(self.state.heading, angle, k, p.tau_mag, c.mag_ts);
        Tried {
            finite: finite_field(field) & finite_heading(heading),
            value: MagneticState { heading, field },
        }
    }

    // With disturbance rejection off the field is left as it was.
    #[tactic(auto, unfolding(crate::specs::Step::tried_plain))]
    fn tried_plain(self, mag_earth: Vector) -> Tried<MagneticState>
        ensures { result ≡ tried_plain binary64 self.state self.params self.coeffs mag_earth }
    {
        let c = self.coeffs;
        let angle = numbers::atan2(mag_earth.0, mag_earth.1);
        let heading = corrected(
            self.state.heading,
            angle,
            c.k_mag,
            self.params.tau_mag,
            c.mag_ts,
        );
        Tried {
            finite: finite_heading(heading),
            value: MagneticState {
                heading,
                ..self.state
            },
        }
    }

    #[tactic(auto, unfolding(crate::specs::Step::tried))]
    fn tried(self, seen: Seen, mag: Vector) -> Tried<MagneticState>
        ensures { result ≡ tried binary64 self.state self.params self.coeffs seen mag }
    {
        let mag_earth = seen.quat_6d.rotate(mag);
        if seen.mag_dist_rejection_enabled {
            self.tried_rejecting(mag_earth, seen.rest_last_gyr_lp)
        } else {
            self.tried_plain(mag_earth)
        }
    }

    // The step on a sample that is taken and is not all zero.
    #[tactic(auto, unfolding(crate::specs::Step::mag_step))]
    fn mag_step(self, seen: Seen, mag: Vector) -> Updated<Magnetic>
        ensures { told_of result ≡ mag_step binary64 self seen mag }
    {
        let t = self.tried(seen, mag);
        if t.finite {
            Updated {
                answer: Answer::Done,
                filter: Magnetic {
                    state: t.value,
                    ..self
                },
            }
        } else {
            Updated {
                answer: Answer::NotFinite,
                filter: self,
            }
        }
    }

    // A magnetometer sample, always in the same unit; seen is what this half sees of the other.
    #[tactic(auto, unfolding(crate::specs::Step::update_mag))]
    pub fn update_mag(self, seen: Seen, mag: Vector) -> Updated<Magnetic>
        ensures { told_of result ≡ update_mag binary64 self seen mag }
    {
        if limits::sample::mag_taken(mag) {
            if limits::sample::zero_sample(mag) {
                Updated {
                    answer: Answer::ZeroSample,
                    filter: self,
                }
            } else {
                self.mag_step(seen, mag)
            }
        } else {
            Updated {
                answer: Answer::BadSample,
                filter: self,
            }
        }
    }
}
