// What a new time constant does to the inclination.
ghost use Rattle.std.specs.Prelude.{◌≡◌};
ghost use Rattle.tilt.specs.Setters.{adapted_inclination};

use crate::types::Inclination;
use filters::Coeffs;

// The filter of the acceleration for new coefficients.
#[tactic(auto, unfolding(crate::specs::Setters::adapted_inclination, filters::specs::Banks::adapt3))]
pub fn adapted_inclination(i: Inclination, old: Coeffs, new: Coeffs) -> Inclination
    ensures { result ≡ adapted_inclination i old new }
{
    Inclination {
        acc_lp_state: filters::adapted(i.last_acc_lp.into(), old, new, i.acc_lp_state),
        ..i
    }
}
