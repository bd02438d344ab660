// Writes the bits of the square roots of some thirty thousand floats in hexadecimal, a line
// each. With a number on the standard input it draws that many times in place of 1000.
// The file stdout was written by oracle/roots.rs, which takes the same floats to another root.
#![tactic(auto)]

use draws::next;
use std::io;
use std::io::{Read, Stdin, Stdout};

// The bits of the root of the float with the bits x.
fn put(stdout: Stdout, x: u64) -> io::Result<()> {
    let root = numbers::sqrt(floats::from_bits(x));
    let bits = floats::to_bits(root);
    println!(stdout; "{bits:016x}")
}

// A float and its two neighbours.
fn put_about(stdout: Stdout, x: u64) -> io::Result<()> {
    put(stdout, x.wrapping_sub(1))?;
    put(stdout, x)?;
    put(stdout, x.wrapping_add(1))
}

// The powers of two, and so of four, that are normal, and the infinity.
fn powers(stdout: Stdout) -> io::Result<()> {
    for field in 1..2048u64 {
        put_about(stdout, field << 52)?;
    }
    Ok(())
}

fn subnormals(stdout: Stdout) -> io::Result<()> {
    for place in 0..52u64 {
        put_about(stdout, 1 << place)?;
    }
    Ok(())
}

// Any bits; a sign that is clear; a small exponent; a short significand; next to a power of two.
fn drawn(stdout: Stdout, count: u64) -> io::Result<()> {
    let mut s = 0x9e37_79b9_7f4a_7c15;
    for _ in 0..count {
        s = next(s);
        put(stdout, s)?;
        put(stdout, s >> 1)?;
        put(stdout, s >> 14)?;
        put(stdout, (s >> 12) << 12)?;
        put_about(stdout, (s >> 1) | 0xf_ffff_ffff_fffe)?;
    }
    Ok(())
}

// About the square of the middle between r and the next float, which is step away.
fn put_middle(stdout: Stdout, r: f64, step: f64) -> io::Result<()> {
    put_about(stdout, floats::to_bits(r * r + r * step))
}

// About the squares of a float, of its first 26 digits, whose root is exact, and of the middle above.
fn put_squares(stdout: Stdout, r: u64) -> io::Result<()> {
    let x = floats::from_bits(r);
    let short = floats::from_bits((r >> 27) << 27);
    put_about(stdout, floats::to_bits(x * x))?;
    put_about(stdout, floats::to_bits(short * short))?;
    put_middle(stdout, x, floats::from_bits((r >> 52) << 52) * f64::EPSILON)
}

// A q below 2^52 with q * q + q equal to t modulo 2^52, for an even t. It is found digit by digit:
// left is (t - q * q - q) / 2^k.
fn middle(t: u64) -> u64 {
    let mut q = 0;
    let mut left = t;
    for k in 0..52u64 {
        if left & 1 == 1 {
            let less = left.wrapping_sub(q << 1);
            left = less.wrapping_sub((1 << k) | 1);
            q |= 1 << k;
        }
        left >>= 1;
    }
    q
}

// About the square of a middle between two floats from 1 up to 2. A square below 2, and every other
// one above, has a root that lies below the middle by t * 2^-53 of a step, or half that; above it
// where t stands for a negative number.
fn put_hard(stdout: Stdout, t: u64) -> io::Result<()> {
    put_middle(
        stdout,
        floats::from_bits(middle(t) | 0x3ff0_0000_0000_0000),
        f64::EPSILON,
    )
}

// Squares of any float from 2^-511 up to 2^513; about roots that mostly lie next to a middle; and a
// number within 2^28 steps of 1.
fn put_close(stdout: Stdout, s: u64, t: u64) -> io::Result<()> {
    put_squares(stdout, (s >> 12) | (((t >> 54) + 512) << 52))?;
    let off = (s >> ((t >> 59) + 20)) << 1;
    put_hard(stdout, off)?;
    put_hard(stdout, off.wrapping_neg())?;
    put(stdout, (s >> 35) + 0x3fef_ffff_f000_0000)
}

fn close(stdout: Stdout, count: u64) -> io::Result<()> {
    let mut s = 0xd1b5_4a32_d192_ed03;
    let mut t = 0x9e37_79b9_7f4a_7c15;
    for _ in 0..count {
        s = next(s);
        t = next(t);
        put_close(stdout, s, t)?;
    }
    Ok(())
}

fn put_all(stdout: Stdout, count: u64) -> io::Result<()> {
    put_about(stdout, 0)?;
    put_about(stdout, 0x8000_0000_0000_0000)?;
    put(stdout, 0xfff0_0000_0000_0000)?;
    powers(stdout)?;
    subnormals(stdout)?;
    drawn(stdout, count)?;
    put_about(stdout, 0x3fef_ffff_f800_0000)?;
    put_about(stdout, 0x3ff0_0000_0800_0000)?;
    close(stdout, count)
}

// The count with one more digit, where it is below 1,000,000,000; a line end adds nothing.
fn with(count: u64, byte: u8) -> Option<u64> {
    match byte {
        b'\n' => Some(count),
        b'0'..=b'9' if count < 100_000_000 => Some(count * 10 + u64::from(byte - b'0')),
        _ => None,
    }
}

// How many times to draw, where the standard input is nothing or a count.
fn read(stdin: Stdin) -> io::Result<Option<u64>> {
    // A byte at a time: the input is a few digits, and a buffer would be most of the stack that the program takes.
    let mut bytes = stdin.bytes().take(4096).peekable();
    if bytes.peek().is_none() {
        return Ok(Some(1000));
    }
    let mut count = Some(0);
    for byte in bytes {
        let byte = byte?;
        count = count.and_then(|count| with(count, byte));
    }
    Ok(count)
}

fn main(rt: HostRuntime) -> io::Result<()> {
    match read(rt.stdin())? {
        Some(count) => put_all(rt.stdout(), count),
        None => println!(rt.stderr();
            "roots: the standard input is not a whole number below 1,000,000,000"
        ),
    }
}
