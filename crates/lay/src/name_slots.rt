// The names of a text in their slots.
ghost use Rattle.std.specs.Prelude.{◌≡◌, ◌++◌, ◌*◌, drop};
ghost use Rattle.reading.specs.Layout.{names_of};
ghost use Rattle.values.specs.Ids.{ids_from};
ghost use Rattle.lay.specs.Names.{SlotRoom, slot_laid, NamesRoom};

use names::pad;
use values::noted::number_at;

// The name and zeros behind it, over the 64 bytes of the place from `at` on.
fn lay_slot(place: &mut [u8], at: usize, name: &[u8])
    requires { SlotRoom place.old at }
    ensures { place.new ≡ slot_laid place.old at name.now }
{
    place[at..at + 64].copy_from_slice(&pad(name));
}

// The n names of the text, one slot behind the other, over the beginning of the place.
pub fn lay_names(text: &[u8], slots: &[u16], n: usize, place: &mut [u8])
    requires { NamesRoom text.now slots.now n place.old }
    ensures { place.new ≡ names_of (ids_from text.now slots.now n 0) ++ drop (n * 64) place.old }
{
    for k in 0..n {
        let at = number_at(slots, k * 2);
        let long = number_at(slots, k * 2 + 1);
        let to = at + long;
        lay_slot(place, k * 64, &text[at..to]);
    }
}
