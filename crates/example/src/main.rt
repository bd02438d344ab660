// Tells from a few samples whether the reader points down and whether it turned about. README prints
// the functions with samples in them, and oracle/readme holds it to that. The file stdout was written
// by oracle/example.rs, which makes the same calls of the Rust source:
//   target/oracle/example > crates/example/stdout
#![tactic(auto)]

mod output;

use algebra::{Quaternion, Vector};
use std::io;
use vqf::VQF;

fn points_down(f: VQF) -> bool {
    let up = f.quat_6d().rotate(Vector(0.0, 0.0, 1.0));
    up.2 < 0.0
}

fn at_the_trolley() -> VQF {
    let f = VQF::new(0.01, None, None, None).filter;
    let g = f.update_gyr(Vector(0.01, 0.0, 0.0)).filter;
    g.update_acc(Vector(0.0, 1.0, -9.7)).filter
}

// More than a quarter turn lies between the two headings.
fn turned_about(one: Quaternion, two: Quaternion) -> bool {
    let before = one.rotate(Vector(0.0, 1.0, 0.0));
    let after = two.rotate(Vector(0.0, 1.0, 0.0));
    before.0 * after.0 + before.1 * after.1 < 0.0
}

fn at_one_shelf() -> VQF {
    let f = VQF::fresh().update_acc(Vector(0.0, 0.0, 9.81)).filter;
    f.update_mag(Vector(20.0, 5.0, -40.0)).filter
}

// A second of turning at 3 rad/s.
fn at_the_other(f: VQF) -> VQF {
    let g = f.update_gyr_with_ts(Vector(0.0, 0.0, 3.0), 1.0).filter;
    g.update_mag(Vector(-19.1, -7.8, -40.0)).filter
}

fn main(rt: HostRuntime) -> io::Result<()> {
    let stdout = rt.stdout();
    let trolley = at_the_trolley();
    output::tilt(stdout, "at the trolley", points_down(trolley))?;
    let one = at_one_shelf();
    output::tilt(stdout, "at the shelf", points_down(one))?;
    let two = at_the_other(one);
    output::turn(stdout, turned_about(one.quat_9d(), two.quat_9d()))
}
