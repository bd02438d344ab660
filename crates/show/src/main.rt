// Plays a call script and prints a table that a person reads. Tilt is how far the third axis is from
// straight up and heading where the first axis points, both in degrees. A line that is no call is
// told on the error stream, and ends the run.
#![tactic(auto)]

mod output;

use crate::output::{print_head, print_row, print_value};
use script::{Lines, Name, Request};
use std::fmt::InlineText;
use std::io;
use std::io::{Stderr, Stdin, Stdout};
use vqf::VQF;

fn main(rt: HostRuntime) -> io::Result<()> {
    print_head(rt.stdout())?;
    play(rt.stdin(), rt.stdout(), rt.stderr())
}

fn play(stdin: Stdin, stdout: Stdout, stderr: Stderr) -> io::Result<()> {
    let mut filter = VQF::fresh();
    for (number, line) in (1..=u64::MAX).zip(Lines::from(stdin)) {
        match line?.request() {
            Err(fault) => return println!(stderr; "show: line {number}, {fault}"),
            Ok(None) => {}
            Ok(Some((name, request))) => {
                filter = answered(stdout, filter, number, name, request)?;
            }
        }
    }
    Ok(())
}

// Writes the row of a line, and hands back the next filter.
fn answered(stdout: Stdout, f: VQF, number: u64, name: Name, request: Request) -> io::Result<VQF> {
    match request {
        Request::Value(x) => {
            print_value(stdout, number, name, x)?;
            Ok(f)
        }
        Request::State | Request::Get => {
            print_row(stdout, number, name, "-", f)?;
            Ok(f)
        }
        Request::Update(samples) => {
            let u = f.update(samples.gyr, samples.acc, samples.mag);
            let answers = InlineText::<40>::of(format_args!("{0}, {1}, {2}", u.gyr, u.acc, u.mag));
            print_row(stdout, number, name, answers.as_str(), u.filter)?;
            Ok(u.filter)
        }
        Request::Call(call) => {
            let u = script::called(f, call);
            print_row(stdout, number, name, u.answer, u.filter)?;
            Ok(u.filter)
        }
    }
}
