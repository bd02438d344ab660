ghost use Rattle.std.specs.Prelude.{◌≡◌};
ghost use Rattle.std.specs.Float.{binary64};
ghost use Rattle.algebra.specs.Matrices.{plus, minus, dot, times, transpose, adjugate, determinant, divided, invert, flatten, unflatten, diagonal, finite};

use crate::vector::{EPSILON, Vector};

// Row 0, row 1, row 2.
#[derive(Clone, Copy)]
pub struct Matrix {
    pub m00: f64,
    pub m01: f64,
    pub m02: f64,
    pub m10: f64,
    pub m11: f64,
    pub m12: f64,
    pub m20: f64,
    pub m21: f64,
    pub m22: f64,
}

// Why a matrix has no inverse.
#[derive(Clone, Copy)]
pub enum NoInverse {
    // The determinant lies within EPSILON of 0.
    TooSmall,
    // The determinant is a NaN or infinite.
    NotFinite,
}

// A sum in a product starts at 0.0 and runs over k.
#[tactic(auto, unfolding(crate::specs::Matrices::dot))]
fn dot(row: Vector, column: Vector) -> f64
    ensures { result ≡ dot binary64 row column }
{
    0.0 + row.0 * column.0 + row.1 * column.1 + row.2 * column.2
}

impl Matrix {
    // The sum, place by place.
    #[tactic(auto, unfolding(crate::specs::Matrices::plus))]
    pub fn plus(self, rhs: Matrix) -> Matrix
        ensures { result ≡ plus binary64 self rhs }
    {
        Matrix {
            m00: self.m00 + rhs.m00,
            m01: self.m01 + rhs.m01,
            m02: self.m02 + rhs.m02,
            m10: self.m10 + rhs.m10,
            m11: self.m11 + rhs.m11,
            m12: self.m12 + rhs.m12,
            m20: self.m20 + rhs.m20,
            m21: self.m21 + rhs.m21,
            m22: self.m22 + rhs.m22,
        }
    }

    // The difference, place by place.
    #[tactic(auto, unfolding(crate::specs::Matrices::minus))]
    pub fn minus(self, rhs: Matrix) -> Matrix
        ensures { result ≡ minus binary64 self rhs }
    {
        Matrix {
            m00: self.m00 - rhs.m00,
            m01: self.m01 - rhs.m01,
            m02: self.m02 - rhs.m02,
            m10: self.m10 - rhs.m10,
            m11: self.m11 - rhs.m11,
            m12: self.m12 - rhs.m12,
            m20: self.m20 - rhs.m20,
            m21: self.m21 - rhs.m21,
            m22: self.m22 - rhs.m22,
        }
    }

    // The product; each sum starts at 0.
    #[tactic(auto, unfolding(crate::specs::Matrices::times))]
    pub fn times(self, rhs: Matrix) -> Matrix
        ensures { result ≡ times binary64 self rhs }
    {
        let row0 = Vector(self.m00, self.m01, self.m02);
        let row1 = Vector(self.m10, self.m11, self.m12);
        let row2 = Vector(self.m20, self.m21, self.m22);
        let column0 = Vector(rhs.m00, rhs.m10, rhs.m20);
        let column1 = Vector(rhs.m01, rhs.m11, rhs.m21);
        let column2 = Vector(rhs.m02, rhs.m12, rhs.m22);
        Matrix {
            m00: dot(row0, column0),
            m01: dot(row0, column1),
            m02: dot(row0, column2),
            m10: dot(row1, column0),
            m11: dot(row1, column1),
            m12: dot(row1, column2),
            m20: dot(row2, column0),
            m21: dot(row2, column1),
            m22: dot(row2, column2),
        }
    }

    // Rows and columns exchanged.
    #[tactic(auto, unfolding(crate::specs::Matrices::transpose))]
    pub fn transpose(self) -> Matrix
        ensures { result ≡ transpose self }
    {
        Matrix {
            m00: self.m00,
            m01: self.m10,
            m02: self.m20,
            m10: self.m01,
            m11: self.m11,
            m12: self.m21,
            m20: self.m02,
            m21: self.m12,
            m22: self.m22,
        }
    }

    // The nine cofactors, where the inverse has them.
    #[tactic(auto, unfolding(crate::specs::Matrices::adjugate))]
    fn adjugate(self) -> Matrix
        ensures { result ≡ adjugate self }
    {
        let a = self.m11 * self.m22 - self.m12 * self.m21;
        let d = self.m02 * self.m21 - self.m01 * self.m22;
        let g = self.m01 * self.m12 - self.m02 * self.m11;
        let b = self.m12 * self.m20 - self.m10 * self.m22;
        let e = self.m00 * self.m22 - self.m02 * self.m20;
        let h = self.m02 * self.m10 - self.m00 * self.m12;
        let c = self.m10 * self.m21 - self.m11 * self.m20;
        let f = self.m01 * self.m20 - self.m00 * self.m21;
        let i = self.m00 * self.m11 - self.m01 * self.m10;
        Matrix {
            m00: a,
            m01: d,
            m02: g,
            m10: b,
            m11: e,
            m12: h,
            m20: c,
            m21: f,
            m22: i,
        }
    }

    // Along the first row.
    #[tactic(auto, unfolding(crate::specs::Matrices::determinant))]
    fn determinant(self, cofactors: Matrix) -> f64
        ensures { result ≡ determinant self cofactors }
    {
        self.m00 * cofactors.m00 + self.m01 * cofactors.m10 + self.m02 * cofactors.m20
    }

    #[tactic(auto, unfolding(crate::specs::Matrices::divided))]
    fn divided(self, det: f64) -> Matrix
        ensures { result ≡ divided binary64 self det }
    {
        Matrix {
            m00: self.m00 / det,
            m01: self.m01 / det,
            m02: self.m02 / det,
            m10: self.m10 / det,
            m11: self.m11 / det,
            m12: self.m12 / det,
            m20: self.m20 / det,
            m21: self.m21 / det,
            m22: self.m22 / det,
        }
    }

    // The inverse, or why there is none.
    pub fn invert(self) -> Result<Matrix, NoInverse>
        ensures { result ≡ invert binary64 self }
    {
        let cofactors = self.adjugate();
        let det = self.determinant(cofactors);
        if (-EPSILON <= det) & (det <= EPSILON) {
            Err(NoInverse::TooSmall)
        } else if floats::finite(det) {
            Ok(cofactors.divided(det))
        } else {
            Err(NoInverse::NotFinite)
        }
    }

    // Row after row.
    #[tactic(auto, unfolding(crate::specs::Matrices::flatten))]
    pub fn flatten(self) -> [f64; 9]
        ensures { result ≡ flatten self }
    {
        [
            self.m00, self.m01, self.m02, self.m10, self.m11, self.m12, self.m20, self.m21,
            self.m22,
        ]
    }

    // The matrix with these nine numbers, row by row.
    #[tactic(auto, unfolding(crate::specs::Matrices::unflatten))]
    pub fn unflatten(m: [f64; 9]) -> Matrix
        ensures { result ≡ unflatten m }
    {
        Matrix {
            m00: m[0],
            m01: m[1],
            m02: m[2],
            m10: m[3],
            m11: m[4],
            m12: m[5],
            m20: m[6],
            m21: m[7],
            m22: m[8],
        }
    }

    // p on the diagonal and 0 elsewhere.
    #[tactic(auto, unfolding(crate::specs::Matrices::diagonal))]
    pub fn diagonal(p: f64) -> Matrix
        ensures { result ≡ diagonal binary64 p }
    {
        Matrix {
            m00: p,
            m01: 0.0,
            m02: 0.0,
            m10: 0.0,
            m11: p,
            m12: 0.0,
            m20: 0.0,
            m21: 0.0,
            m22: p,
        }
    }

    // Whether all nine numbers are finite.
    #[tactic(auto, unfolding(crate::specs::Matrices::finite))]
    pub fn finite(self) -> bool
        ensures { result ≡ finite self }
    {
        let row0 = Vector(self.m00, self.m01, self.m02);
        let row1 = Vector(self.m10, self.m11, self.m12);
        let row2 = Vector(self.m20, self.m21, self.m22);
        row0.finite() & row1.finite() & row2.finite()
    }
}
