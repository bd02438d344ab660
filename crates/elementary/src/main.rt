// Writes the bits of the elementary functions at some eighteen thousand floats in hexadecimal, a
// line each. The file stdout was written by oracle/elementary.rs, from the same recipes in Rust.
#![tactic(auto)]

use draws::next;
use std::io;
use std::io::Stdout;

// The ends of the domains and of the branches, multiples of pi / 4, and the largest half angle of a gyro step.
const EDGES: [u64; 19] = [
    0x0000_0000_0000_0000,
    0x0010_0000_0000_0000,
    0x3fe0_0000_0000_0000,
    0x3fe8_0000_0000_0000,
    0x3fe9_1eb8_51eb_851f,
    0x3fe9_21fb_5444_2d18,
    0x3ff0_0000_0000_0000,
    0x3ff9_21fb_5444_2d18,
    0x4002_d97c_7f33_21d2,
    0x4009_21fb_5444_2d18,
    0x4060_0000_0000_0000,
    0x4065_d218_013e_214b,
    0x406f_cf02_16a6_4912,
    0x406f_e824_11fa_8d3f,
    0x4070_0000_0000_0000,
    0x4086_2000_0000_0000,
    0x40c3_8800_0000_0000,
    0x7fef_ffff_ffff_ffff,
    0x7ff0_0000_0000_0000,
];

const HEIGHTS: [f64; 5] = [0.0, 1.0, 5e-324, f64::MAX, f64::INFINITY];

const WIDTHS: [f64; 6] = [0.0, 1.0, 5e-324, f64::MAX, f64::INFINITY, f64::NAN];

fn put(stdout: Stdout, x: f64) -> io::Result<()> {
    let bits = floats::to_bits(x);
    println!(stdout; "{bits:016x}")
}

// The functions of one argument.
fn put_at(stdout: Stdout, x: f64) -> io::Result<()> {
    put(stdout, numbers::sin(x))?;
    put(stdout, numbers::cos(x))?;
    put(stdout, numbers::tan(x))?;
    put(stdout, numbers::exp(x))?;
    put(stdout, numbers::asin(x))?;
    put(stdout, numbers::acos(x))
}

fn put_both(stdout: Stdout, n: u64) -> io::Result<()> {
    put_at(stdout, floats::from_bits(n))?;
    put_at(stdout, -floats::from_bits(n))
}

// The float with the bits n and its two neighbours, with both signs.
fn put_about(stdout: Stdout, n: u64) -> io::Result<()> {
    put_both(stdout, n.wrapping_sub(1))?;
    put_both(stdout, n)?;
    put_both(stdout, n.wrapping_add(1))
}

fn edges(stdout: Stdout) -> io::Result<()> {
    for n in EDGES {
        put_about(stdout, n)?;
    }
    Ok(())
}

fn put_point(stdout: Stdout, y: f64, x: f64) -> io::Result<()> {
    put(stdout, numbers::atan2(y, x))?;
    put(stdout, numbers::atan2(y, -x))?;
    put(stdout, numbers::atan2(-y, x))?;
    put(stdout, numbers::atan2(-y, -x))
}

// The angles of the points with heights and widths of every kind.
fn points(stdout: Stdout) -> io::Result<()> {
    for y in HEIGHTS {
        for x in WIDTHS {
            put_point(stdout, y, x)?;
        }
    }
    Ok(())
}

// From 0 to 1.
fn part(s: u64) -> f64 {
    floats::from_bits((s >> 12) | 0x3ff0_0000_0000_0000) - 1.0
}

// Evenly in the domains.
fn even(stdout: Stdout, s: u64, t: u64) -> io::Result<()> {
    let u = part(s);
    let v = part(t);
    put(stdout, numbers::sin(512.0 * u - 256.0))?;
    put(stdout, numbers::cos(512.0 * u - 256.0))?;
    put(stdout, numbers::sin(8.0 * v - 4.0))?;
    put(stdout, numbers::cos(8.0 * v - 4.0))?;
    put(stdout, numbers::tan(0.75 * u))?;
    put(stdout, numbers::exp(-710.0 * u))?;
    put(stdout, numbers::exp(-v))?;
    put(stdout, numbers::asin(2.0 * u - 1.0))?;
    put(stdout, numbers::acos(2.0 * u - 1.0))?;
    put(stdout, numbers::atan2(2.0 * u - 1.0, 2.0 * v - 1.0))
}

// At any size: below 2, and any bits.
fn sized(stdout: Stdout, s: u64, t: u64) -> io::Result<()> {
    put_at(stdout, floats::from_bits(s >> 2))?;
    put(stdout, numbers::exp(-floats::from_bits(s >> 2)))?;
    put(
        stdout,
        numbers::atan2(floats::from_bits(s), floats::from_bits(t)),
    )?;
    put(
        stdout,
        numbers::atan2(floats::from_bits(s), floats::from_bits(s ^ (t >> 12))),
    )
}

fn drawn(stdout: Stdout, count: u64) -> io::Result<()> {
    let mut s = 0x9e37_79b9_7f4a_7c15;
    for _ in 0..count {
        let t = next(s);
        s = next(t);
        even(stdout, t, s)?;
        sized(stdout, t, s)?;
    }
    Ok(())
}

fn main(rt: HostRuntime) -> io::Result<()> {
    let stdout = rt.stdout();
    edges(stdout)?;
    points(stdout)?;
    drawn(stdout, 900)
}
