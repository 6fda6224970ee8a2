// What a ball promises, of plain functions of a place.
ghost use Rattle.std.specs.Prelude.{◌≡◌, ℕ, ◌^◌, ℤ, pos, Some};
ghost use Rattle.mj_types.specs.declared.wants.Ball.{Ball};
ghost use Rattle.mj_quadratic.specs.Balls.{Encloses};
ghost use Rattle.mj_quadratic.specs.Forms.{IsSymmetric};
ghost use Rattle.mj_ball.specs.Shifts.{ball_of};

/// A ball around `a` holds each rational solution of `m x = s`, where `m` is symmetric.
pub fn balls_enclose()
    ensures { (n : ℕ) (m : ℕ → ℕ → ℤ) (a s : ℕ → ℤ) (b : Ball) → IsSymmetric n m
        → ball_of n m a s ≡ Some b → Encloses n m a s (pos (2 ^ 40)) b.radius }
{}
