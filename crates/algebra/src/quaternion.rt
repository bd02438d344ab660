ghost use Rattle.std.specs.Prelude.{◌≡◌};
ghost use Rattle.std.specs.Float.{binary64};
ghost use Rattle.algebra.specs.Quaternions.{times, norm, normalize, rotate, apply_delta, finite};

use crate::vector::{EPSILON, Vector};

#[derive(Clone, Copy)]
pub struct Quaternion(pub f64, pub f64, pub f64, pub f64);

impl Quaternion {
    pub const IDENTITY: Quaternion = Quaternion(1.0, 0.0, 0.0, 0.0);

    // The turn rhs followed by self.
    #[tactic(auto, unfolding(crate::specs::Quaternions::times))]
    pub fn times(self, rhs: Quaternion) -> Quaternion
        ensures { result ≡ times binary64 self rhs }
    {
        let w = self.0 * rhs.0 - self.1 * rhs.1 - self.2 * rhs.2 - self.3 * rhs.3;
        let x = self.0 * rhs.1 + self.1 * rhs.0 + self.2 * rhs.3 - self.3 * rhs.2;
        let y = self.0 * rhs.2 - self.1 * rhs.3 + self.2 * rhs.0 + self.3 * rhs.1;
        let z = self.0 * rhs.3 + self.1 * rhs.2 - self.2 * rhs.1 + self.3 * rhs.0;
        Quaternion(w, x, y, z)
    }

    // The length.
    #[tactic(auto, unfolding(crate::specs::Quaternions::norm))]
    pub fn norm(self) -> f64
        ensures { result ≡ norm binary64 self }
    {
        numbers::sqrt(self.0 * self.0 + self.1 * self.1 + self.2 * self.2 + self.3 * self.3)
    }

    // Of length 1; as it is where it is shorter than EPSILON.
    #[tactic(auto, unfolding(crate::specs::Quaternions::normalize))]
    pub fn normalize(self) -> Quaternion
        ensures { result ≡ normalize binary64 self }
    {
        let n = self.norm();
        if n < EPSILON {
            self
        } else {
            Quaternion(self.0 / n, self.1 / n, self.2 / n, self.3 / n)
        }
    }

    // v after the turn.
    #[tactic(auto, unfolding(crate::specs::Quaternions::rotate))]
    pub fn rotate(self, v: Vector) -> Vector
        ensures { result ≡ rotate binary64 self v }
    {
        let x = (1.0 - 2.0 * self.2 * self.2 - 2.0 * self.3 * self.3) * v.0
            + 2.0 * v.1 * (self.2 * self.1 - self.0 * self.3)
            + 2.0 * v.2 * (self.0 * self.2 + self.3 * self.1);
        let y = 2.0 * v.0 * (self.0 * self.3 + self.2 * self.1)
            + v.1 * (1.0 - 2.0 * self.1 * self.1 - 2.0 * self.3 * self.3)
            + 2.0 * v.2 * (self.2 * self.3 - self.1 * self.0);
        let z = 2.0 * v.0 * (self.3 * self.1 - self.0 * self.2)
            + 2.0 * v.1 * (self.0 * self.1 + self.3 * self.2)
            + v.2 * (1.0 - 2.0 * self.1 * self.1 - 2.0 * self.2 * self.2);
        Vector(x, y, z)
    }

    // The orientation after a turn by delta radians about the vertical.
    #[tactic(auto, unfolding(crate::specs::Quaternions::apply_delta))]
    pub fn apply_delta(self, delta: f64) -> Quaternion
        ensures { result ≡ apply_delta binary64 self delta }
    {
        let c = numbers::cos(delta / 2.0);
        let s = numbers::sin(delta / 2.0);
        let w = c * self.0 - s * self.3;
        let x = c * self.1 - s * self.2;
        let y = c * self.2 + s * self.1;
        let z = c * self.3 + s * self.0;
        Quaternion(w, x, y, z)
    }

    // Whether all four numbers are finite.
    #[tactic(auto, unfolding(crate::specs::Quaternions::finite))]
    pub fn finite(self) -> bool
        ensures { result ≡ finite self }
    {
        floats::finite(self.0)
            & floats::finite(self.1)
            & floats::finite(self.2)
            & floats::finite(self.3)
    }
}
