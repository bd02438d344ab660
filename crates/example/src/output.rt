use std::io;
use std::io::Stdout;

pub(crate) fn tilt(stdout: Stdout, place: &str, down: bool) -> io::Result<()> {
    let tilt = if down {
        "pointed down, a return"
    } else {
        "held level, a shelf check"
    };
    println!(stdout; "{place}: {tilt}")
}

pub(crate) fn turn(stdout: Stdout, about: bool) -> io::Result<()> {
    let turn = if about {
        "turned about"
    } else {
        "the same way"
    };
    println!(stdout; "between two shelves: {turn}")
}
