// The walk of each call: what is read of the image, the call by value, and what is written.
ghost use Rattle.std.specs.Prelude.{◌≡◌, Bool};
ghost use Rattle.limits.specs.Answers.{Told, told};
ghost use Rattle.vqf.specs.Told.{told_of};
ghost use Rattle.vqf.specs.declared.types.VQF.{VQF};
ghost use Rattle.image.specs.Image.{unpack};
ghost use Rattle.sambighjone.specs.Calls.{kept, fed, switched};

use limits::Answer;
use vqf::{Updated, VQF};

// The library's own numbers start here; the filter's stay below.
pub const WRONG_LENGTH: u32 = 100;

// Writes the filter that a call leaves, and gives the call's number; where the image has another
// length, nothing is written.
#[tactic(auto, unfolding(crate::specs::Calls::kept))]
pub fn keep(image: &mut [f64], u: Updated) -> u32
    ensures { told result image.new ≡ kept image.old (told_of u) }
{
    match image::pack::pack(image, u.filter) {
        Ok(()) => u.answer.number(),
        Err(_) => WRONG_LENGTH,
    }
}

// A call that changes the filter.
pub(crate) fn fed<F: FnOnce(VQF) -> Updated>(image: &mut [f64], call: F) -> u32
    requires { F.IsAlwaysCallable call }
    ensures { (step : VQF → Told VQF) → ((f : VQF) (u : _) → F.post call f u → told_of u ≡ step f) → told result image.new ≡ fed step image.old }
{
    let u = call(image::unpack::unpack(image));
    keep(image, u)
}

// A call that changes the filter by a switch, which is 0 or 1.
#[tactic(auto, unfolding(crate::specs::Calls::switched))]
pub(crate) fn switched<F: FnOnce(VQF, bool) -> Updated>(image: &mut [f64], on: u32, set: F) -> u32
    requires { F.IsAlwaysCallable set }
    ensures { (step : VQF → Bool → Told VQF) → ((f : VQF) (b : Bool) (u : _) → F.post set f b u → told_of u ≡ step f b) → told result image.new ≡ switched step on image.old }
{
    if on > 1 {
        return Answer::BadSetting.number();
    }
    let u = set(image::unpack::unpack(image), on == 1);
    keep(image, u)
}
