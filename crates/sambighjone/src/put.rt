// What a question answers, into the array that the caller lends.
ghost use Rattle.std.specs.Prelude.{◌≡◌, List};
ghost use Rattle.limits.specs.Answers.{told};
ghost use Rattle.vqf.specs.declared.types.VQF.{VQF};
ghost use Rattle.sambighjone.specs.Calls.{given, asked};

use crate::kept::WRONG_LENGTH;
use image::SIZE;
use std::convert::AsSlice;
use vqf::VQF;

// The answers, where there is room for as many.
#[tactic(auto, unfolding(crate::specs::Calls::given))]
pub fn put<T: Copy>(out: &mut [T], xs: &[T]) -> u32
    ensures { told result out.new ≡ given xs.now out.old }
{
    if out.len() != xs.len() {
        return WRONG_LENGTH;
    }
    out.copy_from_slice(xs);
    0
}

// A call that asks: it puts the numbers of what the filter answers.
#[tactic(auto, unfolding(crate::specs::Calls::asked))]
pub(crate) fn asked<T: Copy, Q, A: AsSlice<T> + Drop, F: FnOnce(VQF) -> Q, N: FnOnce(Q) -> A>(
    image: &[f64],
    out: &mut [T],
    question: F,
    numbers: N,
) -> u32
    requires question { F.IsAlwaysCallable question }
    requires numbers { N.IsAlwaysCallable numbers }
    ensures { (answer : VQF → List _) → ((f : VQF) (q : _) (xs : _) → F.post question f q → N.post numbers q xs → A.items xs ≡ answer f) → told result out.new ≡ asked answer image.now out.old }
{
    if image.len() != SIZE {
        return WRONG_LENGTH;
    }
    let answer = question(image::unpack::unpack(image));
    put(out, numbers(answer).as_slice())
}
