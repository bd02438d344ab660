ghost use Rattle.std.specs.Prelude.{◌≡◌};
ghost use Rattle.std.specs.Float.{binary64};
ghost use Rattle.algebra.specs.Vectors.{norm, normalize, clipped, clip, finite, components, of_components};

// 2^-52: what is shorter is not normalized.
pub const EPSILON: f64 = 2.220446049250313e-16;

#[derive(Clone, Copy)]
pub struct Vector(pub f64, pub f64, pub f64);

#[tactic(auto, unfolding(crate::specs::Vectors::clipped))]
fn clipped(x: f64, min: f64, max: f64) -> f64
    ensures { result ≡ clipped x min max }
{
    if x < min {
        min
    } else if x > max {
        max
    } else {
        x
    }
}

impl Vector {
    pub const ZERO: Vector = Vector(0.0, 0.0, 0.0);

    // The length.
    #[tactic(auto, unfolding(crate::specs::Vectors::norm))]
    pub fn norm(self) -> f64
        ensures { result ≡ norm binary64 self }
    {
        numbers::sqrt(0.0 + self.0 * self.0 + self.1 * self.1 + self.2 * self.2)
    }

    // Of length 1; as it is where it is shorter than EPSILON.
    #[tactic(auto, unfolding(crate::specs::Vectors::normalize))]
    pub fn normalize(self) -> Vector
        ensures { result ≡ normalize binary64 self }
    {
        let n = self.norm();
        if n < EPSILON {
            self
        } else {
            Vector(self.0 / n, self.1 / n, self.2 / n)
        }
    }

    // Each component held to the range from min to max.
    #[tactic(auto, unfolding(crate::specs::Vectors::clip))]
    pub fn clip(self, min: f64, max: f64) -> Vector
        ensures { result ≡ clip self min max }
    {
        Vector(
            clipped(self.0, min, max),
            clipped(self.1, min, max),
            clipped(self.2, min, max),
        )
    }

    // Whether all three numbers are finite.
    #[tactic(auto, unfolding(crate::specs::Vectors::finite))]
    pub fn finite(self) -> bool
        ensures { result ≡ finite self }
    {
        floats::finite(self.0) & floats::finite(self.1) & floats::finite(self.2)
    }
}

impl From<Vector> for [f64; 3] {
    ghost from_gives = { λ v r. r ≡ components v };

    fn from(v: Vector) -> [f64; 3] {
        [v.0, v.1, v.2]
    }
}

impl From<[f64; 3]> for Vector {
    ghost from_gives = { λ x r. r ≡ of_components x };

    fn from(x: [f64; 3]) -> Vector {
        Vector(x[0], x[1], x[2])
    }
}
