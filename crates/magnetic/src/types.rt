use algebra::{Quaternion, Vector};
use filters::{Channel, Coeffs};

#[derive(Clone, Copy)]
pub struct MagneticParams {
    pub tau_mag: f64,
    pub mag_current_tau: f64,
    pub mag_ref_tau: f64,
    pub mag_norm_th: f64,
    pub mag_dip_th: f64,
    pub mag_new_time: f64,
    pub mag_new_first_time: f64,
    pub mag_new_min_gyr: f64,
    pub mag_min_undisturbed_time: f64,
    pub mag_max_rejection_time: f64,
    pub mag_rejection_factor: f64,
}

#[derive(Clone, Copy)]
pub struct MagneticCoefficients {
    pub mag_ts: f64,
    pub k_mag: f64,
    pub k_mag_ref: f64,
    // The filter of the norm and dip, where there is one.
    pub mag_norm_dip_lp: Option<Coeffs>,
}

// A norm and a dip.
#[derive(Clone, Copy)]
pub struct NormDip(pub f64, pub f64);

#[derive(Clone, Copy)]
pub struct Heading {
    pub delta: f64,
    pub k_mag_init: f64,
    pub last_mag_dis_angle: f64,
    pub last_mag_corr_angular_rate: f64,
}

#[derive(Clone, Copy)]
pub struct Field {
    pub mag_dist_detected: bool,
    pub mag_ref_norm: f64,
    pub mag_ref_dip: f64,
    pub mag_undisturbed_t: f64,
    pub mag_reject_t: f64,
    pub mag_candidate_norm: f64,
    pub mag_candidate_dip: f64,
    pub mag_candidate_t: f64,
    pub mag_norm_dip: NormDip,
    pub mag_norm_dip_lp_state: [Channel; 2],
}

#[derive(Clone, Copy)]
pub struct MagneticState {
    pub heading: Heading,
    pub field: Field,
}

#[derive(Clone, Copy)]
pub struct Magnetic {
    pub params: MagneticParams,
    pub coeffs: MagneticCoefficients,
    pub state: MagneticState,
}

// What a magnetometer step reads of the inertial half.
#[derive(Clone, Copy)]
pub struct Seen {
    pub quat_6d: Quaternion,
    pub mag_dist_rejection_enabled: bool,
    pub rest_last_gyr_lp: Vector,
}
