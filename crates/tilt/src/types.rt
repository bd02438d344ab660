use algebra::{Quaternion, Vector};
use filters::Channel;

// What rest detection reads. The disturbance switch is here because it starts the gyro rest filter.
#[derive(Clone, Copy)]
pub struct RestParams {
    pub rest_bias_est_enabled: bool,
    pub mag_dist_rejection_enabled: bool,
    pub bias_clip: f64,
    pub rest_min_t: f64,
    pub rest_filter_tau: f64,
    pub rest_th_gyr: f64,
    pub rest_th_acc: f64,
}

#[derive(Clone, Copy)]
pub struct Inclination {
    pub gyr_quat: Quaternion,
    pub acc_quat: Quaternion,
    pub last_acc_lp: Vector,
    pub acc_lp_state: [Channel; 3],
    pub last_acc_corr_angular_rate: f64,
}

// Of the gyroscope and of the accelerometer.
#[derive(Clone, Copy)]
pub struct Deviations(pub f64, pub f64);

#[derive(Clone, Copy)]
pub struct Rest {
    pub rest_detected: bool,
    pub rest_last_squared_deviations: Deviations,
    pub rest_t: f64,
    pub rest_last_gyr_lp: Vector,
    pub rest_gyr_lp_state: [Channel; 3],
    pub rest_last_acc_lp: Vector,
    pub rest_acc_lp_state: [Channel; 3],
}
