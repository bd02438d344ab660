// What the programs draw that are compared with the same in Rust.
#![tactic(auto)]

ghost use Rattle.std.specs.Prelude.{◌≡◌};
ghost use Rattle.draws.specs.Xorshift.{next};

// The 64 bits after s, by the shifts 13, 7 and 17 of a xorshift.
#[tactic(auto, unfolding(crate::specs::Xorshift::next))]
pub fn next(s: u64) -> u64
    ensures { result ≡ next s }
{
    let a = s ^ (s << 13);
    let b = a ^ (a >> 7);
    b ^ (b << 17)
}
