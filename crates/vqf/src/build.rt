// The constructor and the fresh house filter.
ghost use Rattle.std.specs.Prelude.{◌≡◌};
ghost use Rattle.std.specs.Float.{binary64};
ghost use Rattle.vqf.specs.Told.{told_of};
ghost use Rattle.vqf.specs.Build.{house, taken, built, fresh, new};

use crate::types::{Params, Updated, VQF};
use inertial::{Inertial, InertialParams};
use limits::Answer;
use magnetic::{Magnetic, MagneticParams};

impl Params {
    // The house settings.
    #[tactic(auto, unfolding(crate::specs::Build::house))]
    pub fn house() -> Params
        ensures { result ≡ house binary64 }
    {
        let inertial = InertialParams::house();
        let magnetic = MagneticParams::house();
        Params { inertial, magnetic }
    }
}

#[tactic(auto, unfolding(crate::specs::Build::taken))]
fn taken(p: Params, gyr_ts: f64, acc_ts: f64, mag_ts: f64) -> bool
    ensures { result ≡ taken binary64 p gyr_ts acc_ts mag_ts }
{
    inertial::setup::taken(p.inertial, gyr_ts, acc_ts) & magnetic::setup::taken(p.magnetic, mag_ts)
}

#[tactic(auto, unfolding(crate::specs::Build::built))]
fn built(p: Params, gyr_ts: f64, acc_ts: f64, mag_ts: f64) -> VQF
    ensures { result ≡ built binary64 p gyr_ts acc_ts mag_ts }
{
    let inertial = Inertial::new(p.inertial, gyr_ts, acc_ts);
    let magnetic = Magnetic::new(p.magnetic, mag_ts);
    VQF { inertial, magnetic }
}

impl VQF {
    // The house filter, as it is before any call.
    #[tactic(auto, unfolding(crate::specs::Build::fresh))]
    pub fn fresh() -> VQF
        ensures { result ≡ fresh binary64 }
    {
        built(Params::house(), 0.01, 0.01, 0.01)
    }

    // 0 and the new filter, or 4 and a fresh house filter. An interval that is absent is the gyro's, and settings that are absent are the house's.
    #[tactic(auto, unfolding(crate::specs::Build::new))]
    pub fn new(
        gyr_ts: f64,
        acc_ts: Option<f64>,
        mag_ts: Option<f64>,
        params: Option<Params>,
    ) -> Updated
        ensures { told_of result ≡ new binary64 gyr_ts acc_ts mag_ts params }
    {
        let acc = acc_ts.unwrap_or(gyr_ts);
        let mag = mag_ts.unwrap_or(gyr_ts);
        let p = params.unwrap_or(Params::house());
        if taken(p, gyr_ts, acc, mag) {
            let filter = built(p, gyr_ts, acc, mag);
            Updated {
                answer: Answer::Done,
                filter,
            }
        } else {
            let filter = VQF::fresh();
            Updated {
                answer: Answer::BadSetting,
                filter,
            }
        }
    }
}
