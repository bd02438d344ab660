// Plays a call script and prints each answer and each stored number by its bits. A line that is no
// call writes `bad` and its number, says on the error stream what is wrong, and ends the run.
#![tactic(auto)]

mod output;
mod state;

use crate::output::Output;
use crate::state::{put_answers, put_state};
use script::{Fault, Lines, Name, Request};
use std::io;
use std::io::{Stderr, Stdin, Write};
use vqf::VQF;

// What was gathered is written out where the play ends by a failed read or write too.
fn main(rt: HostRuntime) -> io::Result<()> {
    let mut out = Output::from(rt.stdout());
    let played = play(rt.stdin(), rt.stderr(), &mut out);
    out.flush()?;
    played
}

fn play(stdin: Stdin, stderr: Stderr, out: &mut Output) -> io::Result<()> {
    let mut filter = VQF::fresh();
    for (number, line) in (1..=u64::MAX).zip(Lines::from(stdin)) {
        match line?.request() {
            Err(fault) => return refused(stderr, out, number, fault),
            Ok(None) => {}
            Ok(Some((name, request))) => filter = answered(out, filter, name, request)?,
        }
    }
    Ok(())
}

fn refused(stderr: Stderr, out: &mut Output, number: u64, fault: Fault) -> io::Result<()> {
    writeln!(out, "bad {number}")?;
    println!(stderr; "calls: line {number}, {fault}")
}

// Writes what a line is answered, and hands back the next filter.
fn answered(out: &mut Output, f: VQF, name: Name, request: Request) -> io::Result<VQF> {
    match request {
        Request::Value(x) => {
            write!(out, "{name}")?;
            out.numbers(&[x])?;
            writeln!(out)?;
            Ok(f)
        }
        Request::State => {
            put_state(out, f)?;
            Ok(f)
        }
        Request::Get => {
            put_answers(out, f)?;
            Ok(f)
        }
        Request::Update(samples) => {
            write!(out, "{name}")?;
            let u = f.update(samples.gyr, samples.acc, samples.mag);
            out.answers(&[u.gyr, u.acc, u.mag])?;
            Ok(u.filter)
        }
        Request::Call(call) => {
            write!(out, "{name}")?;
            let u = script::called(f, call);
            out.answers(&[u.answer])?;
            Ok(u.filter)
        }
    }
}
