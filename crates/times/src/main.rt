// Plays calls for a clock outside. A line of the standard input is gyr, acc or mag and how many
// calls of that kind a fresh house filter takes. Each line writes how many of them were answered 0
// and some numbers that the last one left. The file stdout was written by oracle/times.rs:
//   target/oracle/times_port < crates/times/stdin > crates/times/stdout
#![tactic(auto)]

mod input;
mod output;
mod play;

use std::io;

fn main(rt: HostRuntime) -> io::Result<()> {
    let mut text = [0u8; 4096];
    let n = input::read_full(rt.stdin(), &mut text)?;
    input::play_lines(rt.stdout(), &text[..n])
}
