// Calls of one kind on a fresh house filter.
use crate::output::{put_count, put_numbers, put_quaternion, put_vector};
use algebra::Vector;
use limits::Answer;
use std::io;
use std::io::Stdout;
use vqf::{Updated, VQF};

// The first component of the next sample: up in small steps from -1 to 1, and again.
fn next(x: f64) -> f64 {
    let y = x + 0.01;
    if y > 1.0 { y - 2.0 } else { y }
}

// Makes a call again and again, each on what the one before it left, and tells how many were answered
// 0, and what the last one left.
fn play<F: Fn(VQF, f64) -> Updated>(count: u64, call: F) -> (u64, VQF)
    requires { F.IsAlwaysCallable call }
{
    let mut f = VQF::fresh();
    let mut x = 0.0;
    let mut done = 0u64;
    for _ in 0..count {
        let u = call(f, x);
        if u.answer == Answer::Done {
            done = done.wrapping_add(1);
        }
        f = u.filter;
        x = next(x);
    }
    (done, f)
}

pub fn play_gyr(stdout: Stdout, count: u64) -> io::Result<()> {
    let (done, f) = play(count, |f, x| f.update_gyr(Vector(x, 0.1, -0.2)));
    put_count(stdout, done)?;
    put_quaternion(stdout, f.inertial.state.inclination.gyr_quat)
}

pub fn play_acc(stdout: Stdout, count: u64) -> io::Result<()> {
    let (done, f) = play(count, |f, x| f.update_acc(Vector(x, 0.5, 9.81)));
    put_count(stdout, done)?;
    put_quaternion(stdout, f.inertial.state.inclination.acc_quat)?;
    put_vector(stdout, f.inertial.state.bias.bias)
}

pub fn play_mag(stdout: Stdout, count: u64) -> io::Result<()> {
    let (done, f) = play(count, |f, x| f.update_mag(Vector(x, 20.0, -40.0)));
    put_count(stdout, done)?;
    let norm_dip = f.magnetic.state.field.mag_norm_dip;
    put_numbers(stdout, &[f.delta(), norm_dip.0, norm_dip.1])
}
