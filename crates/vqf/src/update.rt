// The updates: a call takes the filter as it is and hands back the next one.
ghost use Rattle.std.specs.Prelude.{◌≡◌};
ghost use Rattle.std.specs.Float.{binary64};
ghost use Rattle.vqf.specs.Told.{told_of, all_told, inertially, magnetically};
ghost use Rattle.vqf.specs.Update.{seen, update_gyr_with_ts, update_gyr, update_acc, update_mag, update_sample, update};

use crate::types::{Updated, UpdatedAll, VQF};
use algebra::Vector;
use inertial::Inertial;
use limits::Answer;
use magnetic::{Magnetic, Seen};

#[tactic(auto, unfolding(crate::specs::Update::seen))]
fn seen(f: Inertial) -> Seen
    ensures { result ≡ seen binary64 f }
{
    Seen {
        quat_6d: f.quat_6d(),
        mag_dist_rejection_enabled: f.params.rest.mag_dist_rejection_enabled,
        rest_last_gyr_lp: f.state.rest.rest_last_gyr_lp,
    }
}

impl VQF {
    // What a call on the inertial half leaves of the filter.
    pub fn inertially(self, u: limits::Updated<Inertial>) -> Updated
        ensures { told_of result ≡ inertially self (told_of u) }
    {
        Updated {
            answer: u.answer,
            filter: VQF {
                inertial: u.filter,
                ..self
            },
        }
    }

    // What a call on the magnetic half leaves of the filter.
    pub fn magnetically(self, u: limits::Updated<Magnetic>) -> Updated
        ensures { told_of result ≡ magnetically self (told_of u) }
    {
        Updated {
            answer: u.answer,
            filter: VQF {
                magnetic: u.filter,
                ..self
            },
        }
    }

    // A gyro sample in rad/s that lasted ts seconds.
    #[tactic(auto, unfolding(crate::specs::Update::update_gyr_with_ts))]
    pub fn update_gyr_with_ts(self, gyr: Vector, ts: f64) -> Updated
        ensures { told_of result ≡ update_gyr_with_ts binary64 self gyr ts }
    {
        self.inertially(self.inertial.update_gyr_with_ts(gyr, ts))
    }

    // A gyro sample in rad/s.
    #[tactic(auto, unfolding(crate::specs::Update::update_gyr))]
    pub fn update_gyr(self, gyr: Vector) -> Updated
        ensures { told_of result ≡ update_gyr binary64 self gyr }
    {
        self.inertially(self.inertial.update_gyr(gyr))
    }

    // An accelerometer sample in m/s².
    #[tactic(auto, unfolding(crate::specs::Update::update_acc))]
    pub fn update_acc(self, acc: Vector) -> Updated
        ensures { told_of result ≡ update_acc binary64 self acc }
    {
        self.inertially(self.inertial.update_acc(acc))
    }

    // A magnetometer sample, always in the same unit.
    #[tactic(auto, unfolding(crate::specs::Update::update_mag))]
    pub fn update_mag(self, mag: Vector) -> Updated
        ensures { told_of result ≡ update_mag binary64 self mag }
    {
        let s = seen(self.inertial);
        self.magnetically(self.magnetic.update_mag(s, mag))
    }

    #[tactic(auto, unfolding(crate::specs::Update::update_sample))]
    fn update_sample(self, mag: Option<Vector>) -> Updated
        ensures { told_of result ≡ update_sample binary64 self mag }
    {
        match mag {
            None => Updated {
                answer: Answer::Done,
                filter: self,
            },
            Some(v) => self.update_mag(v),
        }
    }

    // The three calls in turn; a refused one does not stop the next.
    #[tactic(auto, unfolding(crate::specs::Update::update))]
    pub fn update(self, gyr: Vector, acc: Vector, mag: Option<Vector>) -> UpdatedAll
        ensures { all_told result ≡ update binary64 self gyr acc mag }
    {
        let g = self.update_gyr(gyr);
        let a = g.filter.update_acc(acc);
        let m = a.filter.update_sample(mag);
        UpdatedAll {
            gyr: g.answer,
            acc: a.answer,
            mag: m.answer,
            filter: m.filter,
        }
    }
}
