// The accelerometer step.
ghost use Rattle.std.specs.Prelude.{◌≡◌};
ghost use Rattle.std.specs.Float.{binary64};
ghost use Rattle.inertial.specs.Told.{told_of};
ghost use Rattle.inertial.specs.Acc.{update_acc, acc_step, acc_settled};

use crate::kalman::bias_step;
use crate::types::{Bias, Inertial};
use algebra::{NoInverse, Vector};
use limits::{Answer, Tried, Updated};
use tilt::Rest;
use tilt::acc::{TriedInclination, acc_rest, inclined};

impl Inertial {
    // An accelerometer sample in m/s².
    #[tactic(auto, unfolding(crate::specs::Acc::update_acc))]
    pub fn update_acc(self, acc: Vector) -> Updated<Inertial>
        ensures { told_of result ≡ update_acc binary64 self acc }
    {
        if limits::sample::acc_taken(acc) {
            if limits::sample::zero_sample(acc) {
                Updated {
                    answer: Answer::ZeroSample,
                    filter: self,
                }
            } else {
                self.acc_step(acc)
            }
        } else {
            Updated {
                answer: Answer::BadSample,
                filter: self,
            }
        }
    }

    // The step on a sample that is taken and is not all zero.
    #[tactic(auto, unfolding(crate::specs::Acc::acc_step))]
    fn acc_step(self, acc: Vector) -> Updated<Inertial>
        ensures { told_of result ≡ acc_step binary64 self acc }
    {
        let ts = self.coeffs.acc_ts;
        let r = acc_rest(
            self.state.rest,
            self.params.rest,
            ts,
            self.coeffs.rest_acc_lp,
            acc,
        );
        let i = inclined(
            self.state.inclination,
            self.params.tau_acc,
            ts,
            self.coeffs.acc_lp,
            acc,
        );
        let b = bias_step(
            self.state.bias,
            self.params,
            self.coeffs,
            i.inclination,
            r.value,
            i.acc_earth,
        );
        self.acc_settled(r, i, b)
    }

    // What the three parts of a step leave: 5 comes before 6.
    #[tactic(auto, unfolding(crate::specs::Acc::acc_settled))]
    fn acc_settled(
        self,
        r: Tried<Rest>,
        i: TriedInclination,
        b: Result<Tried<Bias>, NoInverse>,
    ) -> Updated<Inertial>
        ensures { told_of result ≡ acc_settled self r i b }
    {
        match b {
            Err(_) => Updated {
                answer: Answer::Singular,
                filter: self,
            },
            Ok(b) if r.finite & i.finite & b.finite => Updated {
                answer: Answer::Done,
                filter: self.with_groups(i.inclination, b.value, r.value),
            },
            Ok(_) => Updated {
                answer: Answer::NotFinite,
                filter: self,
            },
        }
    }
}
