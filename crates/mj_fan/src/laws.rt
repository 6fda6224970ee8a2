// What is read off jobs that were run in place, as a list.
ghost use Rattle.std.specs.Prelude.{◌≡◌, ℕ, List, flat_map, map};
ghost use Rattle.mj_fan.specs.InPlace.{InPlace, Ran};

use crate::jobs::Job;

/// Where each run job gives by `f` what the one in its place gave by `g` before, the lists of what
/// they give are the same.
pub fn mapped<J: Job, T>()
    ensures { (f g : J → T) (old new : List J)
        → ((x y : J) → Ran J.ran J.number_of x y → f y ≡ g x)
        → InPlace (Ran J.ran J.number_of) old new
        → map f new ≡ map g old }
{}

/// The same where each gives a list, and these are joined to one.
pub fn joined<J: Job, T>()
    ensures { (f g : J → List T) (old new : List J)
        → ((x y : J) → Ran J.ran J.number_of x y → f y ≡ g x)
        → InPlace (Ran J.ran J.number_of) old new
        → flat_map f new ≡ flat_map g old }
{}
