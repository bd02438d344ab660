// Plays the worked values that are run and not proved. A line of the output is the number of a line
// of what oracle/worked.calls prints, a field of that line, and its value here. The file stdout was
// written by the oracle:
//   target/oracle/expect found oracle/worked.expected <(target/oracle/port < oracle/worked.calls)
// up to line 36.
#![tactic(auto)]

use algebra::Vector;
use filters::{Channel, Phase};
use inertial::{InertialParams, InertialState};
use magnetic::MagneticParams;
use std::fmt::Display;
use std::io;
use std::io::Stdout;
use vqf::{Params, Updated, VQF};

fn main(rt: HostRuntime) -> io::Result<()> {
    let stdout = rt.stdout();
    headings(stdout)?;
    upright(stdout)?;
    upside_down(stdout)?;
    rest(stdout)?;
    rest_with_zeros(stdout)?;
    singular(stdout)?;
    first_gain(stdout)
}

// Magnetometer [0,-1,0]: delta is PI. Then [0,1,0]: delta is PI/2.
fn headings(stdout: Stdout) -> io::Result<()> {
    let f = turned(stdout, 1, VQF::fresh(), -1.0)?;
    put_delta(stdout, 2, f)?;
    put_delta(stdout, 4, turned(stdout, 3, f, 1.0)?)
}

fn turned(stdout: Stdout, line: u64, f: VQF, y: f64) -> io::Result<VQF> {
    answered(stdout, line, f.update_mag(Vector(0.0, y, 0.0)))
}

// Accelerometer [0,0,9.81]: acc_quat stays the identity.
fn upright(stdout: Stdout) -> io::Result<()> {
    put_acc_quat(stdout, 7, still(stdout, 6, VQF::fresh())?)
}

// Accelerometer [0,0,-9.81]: acc_quat becomes (0,1,0,0).
fn upside_down(stdout: Stdout) -> io::Result<()> {
    put_acc_quat(stdout, 10, level(stdout, 9, VQF::fresh(), -9.81)?)
}

// An accelerometer interval of 0.5, three samples: rest on the third.
fn rest(stdout: Stdout) -> io::Result<()> {
    let f = answered(stdout, 11, slow_house())?;
    held(stdout, 17, held(stdout, 15, held(stdout, 13, f)?)?)?;
    Ok(())
}

fn held(stdout: Stdout, line: u64, f: VQF) -> io::Result<VQF> {
    let u = f.update_acc(Vector(0.0, 0.0, 9.81));
    put_rest(stdout, line, u.filter.rest_detected())?;
    Ok(u.filter)
}

// Also with zero samples between.
fn rest_with_zeros(stdout: Stdout) -> io::Result<()> {
    let f = answered(stdout, 18, slow_house())?;
    let g = zero(stdout, 21, still(stdout, 20, zero(stdout, 19, f)?)?)?;
    put_rest(stdout, 22, g.rest_detected())?;
    rest_with_more_zeros(stdout, g)
}

fn rest_with_more_zeros(stdout: Stdout, f: VQF) -> io::Result<()> {
    let g = zero(stdout, 25, still(stdout, 24, zero(stdout, 23, f)?)?)?;
    put_rest(stdout, 26, g.rest_detected())?;
    let h = still(stdout, 27, g)?;
    put_rest(stdout, 28, h.rest_detected())
}

// bias_sigma_init and bias_sigma_motion 0: the first accelerometer sample gives 5.
fn singular(stdout: Stdout) -> io::Result<()> {
    let f = answered(stdout, 29, house_with(without_sigmas()))?;
    let g = still(stdout, 30, f)?;
    put_unmoved(stdout, 31, g.inertial.state)
}

fn without_sigmas() -> Params {
    let mut inertial = InertialParams::HOUSE;
    inertial.bias.bias_sigma_init = 0.0;
    inertial.bias.bias_sigma_motion = 0.0;
    let magnetic = MagneticParams::HOUSE;
    Params { inertial, magnetic }
}

fn put_unmoved(stdout: Stdout, line: u64, s: InertialState) -> io::Result<()> {
    put_number(stdout, line, "rest_t", s.rest.rest_t)?;
    let rest = s.rest.rest_acc_lp_state[0];
    put_count(stdout, line, "rest_acc_lp_state[0].count", rest)?;
    let level = s.inclination.acc_lp_state[0];
    put_count(stdout, line, "acc_lp_state[0].count", level)
}

// tau_mag -1: the first sample still moves delta with gain 1; the second has gain 0.
fn first_gain(stdout: Stdout) -> io::Result<()> {
    let f = answered(stdout, 32, house_with(no_gain()))?;
    moved(stdout, 34, f.update_mag(Vector(0.0, -1.0, 0.0)).filter)
}

fn no_gain() -> Params {
    Params {
        inertial: InertialParams::HOUSE,
        magnetic: MagneticParams {
            tau_mag: -1.0,
            ..MagneticParams::HOUSE
        },
    }
}

fn moved(stdout: Stdout, line: u64, f: VQF) -> io::Result<()> {
    put_delta(stdout, line, f)?;
    put_number(stdout, line, "k_mag", f.magnetic.coeffs.k_mag)?;
    put_number(
        stdout,
        line,
        "k_mag_init",
        f.magnetic.state.heading.k_mag_init,
    )?;
    unmoved(stdout, 36, f.update_mag(Vector(0.0, 1.0, 0.0)).filter)
}

fn unmoved(stdout: Stdout, line: u64, f: VQF) -> io::Result<()> {
    put_delta(stdout, line, f)?;
    let rate = f.magnetic.state.heading.last_mag_corr_angular_rate;
    put_number(stdout, line, "last_mag_corr_angular_rate", rate)
}

fn slow_house() -> Updated {
    VQF::new(0.01, Some(0.5), None, None)
}

fn house_with(p: Params) -> Updated {
    VQF::new(0.01, None, None, Some(p))
}

fn still(stdout: Stdout, line: u64, f: VQF) -> io::Result<VQF> {
    level(stdout, line, f, 9.81)
}

fn zero(stdout: Stdout, line: u64, f: VQF) -> io::Result<VQF> {
    level(stdout, line, f, 0.0)
}

fn level(stdout: Stdout, line: u64, f: VQF, z: f64) -> io::Result<VQF> {
    answered(stdout, line, f.update_acc(Vector(0.0, 0.0, z)))
}

fn answered(stdout: Stdout, line: u64, u: Updated) -> io::Result<VQF> {
    put(stdout, line, "answer", u.answer.number())?;
    Ok(u.filter)
}

fn put_delta(stdout: Stdout, line: u64, f: VQF) -> io::Result<()> {
    put_number(stdout, line, "delta", f.delta())
}

fn put_acc_quat(stdout: Stdout, line: u64, f: VQF) -> io::Result<()> {
    let q = f.inertial.state.inclination.acc_quat;
    put_number(stdout, line, "acc_quat[0]", q.0)?;
    put_number(stdout, line, "acc_quat[1]", q.1)?;
    put_number(stdout, line, "acc_quat[2]", q.2)?;
    put_number(stdout, line, "acc_quat[3]", q.3)
}

// What an averaging channel counts; a running one counts nothing.
fn put_count(stdout: Stdout, line: u64, field: &str, channel: Channel) -> io::Result<()> {
    match channel.phase {
        Phase::Averaging(count, _) => put_number(stdout, line, field, count),
        Phase::Running(_, _) => put(stdout, line, field, "running"),
    }
}

fn put_rest(stdout: Stdout, line: u64, is_resting: bool) -> io::Result<()> {
    put(stdout, line, "rest_detected", u8::from(is_resting))
}

fn put_number(stdout: Stdout, line: u64, field: &str, x: f64) -> io::Result<()> {
    let bits = floats::to_bits(x);
    println!(stdout; "{line} {field} {bits:016x}")
}

fn put<T: Display + Drop>(stdout: Stdout, line: u64, field: &str, value: T) -> io::Result<()> {
    println!(stdout; "{line} {field} {value}")
}
