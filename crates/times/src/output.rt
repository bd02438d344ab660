// A line for each number.
use algebra::{Quaternion, Vector};
use std::io;
use std::io::Stdout;

pub fn put_count(stdout: Stdout, n: u64) -> io::Result<()> {
    stdout.println(n)
}

pub fn put_numbers(stdout: Stdout, numbers: &[f64]) -> io::Result<()> {
    for x in numbers {
        let bits = floats::to_bits(*x);
        println!(stdout; "{bits:016x}")?;
    }
    Ok(())
}

pub fn put_vector(stdout: Stdout, v: Vector) -> io::Result<()> {
    put_numbers(stdout, &<[f64; 3]>::from(v))
}

pub fn put_quaternion(stdout: Stdout, q: Quaternion) -> io::Result<()> {
    put_numbers(stdout, &[q.0, q.1, q.2, q.3])
}
