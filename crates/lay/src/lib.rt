// Tables of a text, laid and handed out (R-1). Beside the code, specs/Sizes has how large the tables of a content are, and what is answered where it counts more than
// rule 1 allows.
#![tactic(auto)]

ghost use Rattle.std.specs.Prelude.{◌≡◌, ◌++◌, take, drop};
ghost use Rattle.lay.specs.Copies.{CopyRoom};

pub mod name_slots;

// The first n elements over the beginning of the place.
pub fn copy_first<T: Copy>(from: &[T], n: usize, place: &mut [T])
    requires { CopyRoom from.now n place.old }
    ensures { place.new ≡ take n from.now ++ drop n place.old }
{
    place[..n].copy_from_slice(&from[..n]);
}
