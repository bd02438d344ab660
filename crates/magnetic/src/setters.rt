// The setters of the magnetic half.
ghost use Rattle.std.specs.Prelude.{◌≡◌};
ghost use Rattle.std.specs.Float.{binary64};
ghost use Rattle.magnetic.specs.Told.{told_of, state_of, with_state};
ghost use Rattle.magnetic.specs.Setters.{set_tau_mag, set_mag_ref, restarted, reset_state};

use crate::setup::restarted_field;
use crate::types::{Field, Magnetic, MagneticCoefficients, MagneticParams, MagneticState};
use limits::{Answer, Updated, setting};

impl Magnetic {
    fn with_field(self, field: Field) -> Magnetic
        ensures { result ≡ with_state self (state_of self.state.heading field) }
    {
        Magnetic {
            state: MagneticState {
                field,
                ..self.state
            },
            ..self
        }
    }

    // How slowly the heading follows the magnetometer, in seconds; 0: at once; below 0: not, but for the first sample.
    #[tactic(auto, unfolding(crate::specs::Setters::set_tau_mag))]
    pub fn set_tau_mag(self, tau_mag: f64) -> Updated<Magnetic>
        ensures { told_of result ≡ set_tau_mag binary64 self tau_mag }
    {
        if setting::gain_tau_taken(tau_mag) {
            let k_mag = filters::gain_from_tau(tau_mag, self.coeffs.mag_ts);
            if floats::finite(k_mag) {
                let params = MagneticParams {
                    tau_mag,
                    ..self.params
                };
                let coeffs = MagneticCoefficients {
                    k_mag,
                    ..self.coeffs
                };
                Updated {
                    answer: Answer::Done,
                    filter: Magnetic {
                        params,
                        coeffs,
                        ..self
                    },
                }
            } else {
                Updated {
                    answer: Answer::NotFinite,
                    filter: self,
                }
            }
        } else {
            Updated {
                answer: Answer::BadSetting,
                filter: self,
            }
        }
    }

    // The reference: its norm in the magnetometer's unit, its dip in radians.
    #[tactic(auto, unfolding(crate::specs::Setters::set_mag_ref))]
    pub fn set_mag_ref(self, norm: f64, dip: f64) -> Updated<Magnetic>
        ensures { told_of result ≡ set_mag_ref binary64 self norm dip }
    {
        if setting::ref_norm_taken(norm) & setting::ref_dip_taken(dip) {
            let field = Field {
                mag_ref_norm: norm,
                mag_ref_dip: dip,
                ..self.state.field
            };
            Updated {
                answer: Answer::Done,
                filter: self.with_field(field),
            }
        } else {
            Updated {
                answer: Answer::BadSetting,
                filter: self,
            }
        }
    }

    // What a change of the disturbance switch leaves.
    #[tactic(auto, unfolding(crate::specs::Setters::restarted))]
    pub fn restarted(self) -> Magnetic
        ensures { result ≡ restarted binary64 self }
    {
        let field = restarted_field(self.params, self.state.field.mag_norm_dip);
        self.with_field(field)
    }

    // The state of a filter just built with the settings as they are now.
    #[tactic(auto, unfolding(crate::specs::Setters::reset_state))]
    pub fn reset_state(self) -> Magnetic
        ensures { result ≡ reset_state binary64 self }
    {
        Magnetic {
            state: MagneticState::fresh(self.params),
            ..self
        }
    }
}
