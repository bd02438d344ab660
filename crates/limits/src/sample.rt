// Which samples are taken. Ends are included, and a NaN is outside.
ghost use Rattle.std.specs.Prelude.{◌≡◌};
ghost use Rattle.std.specs.Float.{binary64};
ghost use Rattle.limits.specs.Limits.{within, all_within, gyr_taken, acc_taken, mag_taken, interval_taken, zero_sample};

use algebra::Vector;

const GYR_LIMIT: f64 = 200.0;

const ACC_LIMIT: f64 = 1000.0;

const MAG_LIMIT: f64 = 1000000.0;

const SHORTEST_INTERVAL: f64 = 0.0001;

const LONGEST_INTERVAL: f64 = 1.0;

// Whether x lies from lo to hi.
pub fn within(lo: f64, hi: f64, x: f64) -> bool
    ensures { result ≡ within lo hi x }
{
    (lo <= x) & (x <= hi)
}

// Every component within ±limit.
#[tactic(auto, unfolding(crate::specs::Limits::all_within))]
pub fn all_within(limit: f64, v: Vector) -> bool
    ensures { result ≡ all_within limit v }
{
    within(-limit, limit, v.0) & within(-limit, limit, v.1) & within(-limit, limit, v.2)
}

// A gyro sample in rad/s: up to 200 in each place.
pub fn gyr_taken(gyr: Vector) -> bool
    ensures { result ≡ gyr_taken binary64 gyr }
{
    all_within(GYR_LIMIT, gyr)
}

// An accelerometer sample in m/s²: up to 1000 in each place.
pub fn acc_taken(acc: Vector) -> bool
    ensures { result ≡ acc_taken binary64 acc }
{
    all_within(ACC_LIMIT, acc)
}

// A magnetometer sample in any unit: up to 1,000,000 in each place.
pub fn mag_taken(mag: Vector) -> bool
    ensures { result ≡ mag_taken binary64 mag }
{
    all_within(MAG_LIMIT, mag)
}

// A sampling interval in seconds: 0.0001 to 1.
pub fn interval_taken(ts: f64) -> bool
    ensures { result ≡ interval_taken binary64 ts }
{
    within(SHORTEST_INTERVAL, LONGEST_INTERVAL, ts)
}

// All zero, of either sign.
#[tactic(auto, unfolding(crate::specs::Limits::zero_sample))]
pub fn zero_sample(v: Vector) -> bool
    ensures { result ≡ zero_sample binary64 v }
{
    (v.0 == 0.0) & (v.1 == 0.0) & (v.2 == 0.0)
}
