// The table: line, call, answer, tilt, heading, rest, disturbed.
use readable::Tenths;
use script::Name;
use std::fmt::InlineText;
use std::io::Stdout;
use std::{fmt, io};
use vqf::VQF;

pub fn print_head(stdout: Stdout) -> io::Result<()> {
    println!(stdout;
        "  line  call     answer                            tilt heading  rest  disturbed"
    )
}

// An angle in degrees; one that is no number is a dash.
#[derive(Clone, Copy)]
struct Degrees(f64);

impl fmt::Display for Degrees {
    fn fmt<W: fmt::Write>(&self, f: &mut fmt::Formatter<W>) -> fmt::Result {
        match readable::to_tenths(self.0) {
            None => f.pad("-"),
            Some(Tenths { below, tenths }) => {
                let sign = if below && tenths > 0 { "-" } else { "" };
                let whole = tenths / 10;
                let tenth = tenths % 10;
                f.pad(InlineText::<24>::of(format_args!("{sign}{whole}.{tenth}")).as_str())
            }
        }
    }
}

fn yes_or_no(is: bool) -> &'static str {
    if is { "yes" } else { "no" }
}

// The row of a call, and the filter that it leaves.
pub fn print_row<A: fmt::Display + Drop>(
    stdout: Stdout,
    number: u64,
    name: Name,
    answer: A,
    f: VQF,
) -> io::Result<()> {
    let tilt = Degrees(readable::tilt(f.quat_6d()));
    let heading = Degrees(readable::heading(f.quat_9d()));
    let rest = yes_or_no(f.rest_detected());
    let disturbed = yes_or_no(f.mag_dist_detected());
    println!(stdout;
        "{number:>6}  {name:<7}  {answer:<30}{tilt:>8}{heading:>8}  {rest:<6}{disturbed}"
    )
}

// The row of a function's value, by its bits as `calls` prints them.
pub fn print_value(stdout: Stdout, number: u64, name: Name, x: f64) -> io::Result<()> {
    let bits = floats::to_bits(x);
    println!(stdout; "{number:>6}  {name:<7}  {bits:016x}")
}
