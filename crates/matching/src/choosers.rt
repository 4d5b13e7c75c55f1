// Which row chose a transition: "the first active atomic state that chose it" (R-6).
ghost use Rattle.std.specs.Prelude.{◌≡◌};
ghost use Rattle.matching.specs.Climb.{choice_of};
ghost use Rattle.matching.specs.Choosers.{NoteReady, Noted};

use numbers::{Row, Transition};

// The lent items have a place for each of at most 256 transitions in order; behind those, at 256 + t, one for the row that chose transition t.
pub const CHOOSERS: usize = 256;

pub const ITEMS: usize = 768;

// A choice that no row before i has made joins the first len items, and its place says that row i made it: how many they are then.
pub fn note_choice(items: &mut [u16], len: usize, choice: Option<Transition>, i: Row) -> usize
    requires { NoteReady items.old len (choice_of choice) }
    ensures { Noted items.old len (choice_of choice) i.0 items.new result }
{
    let Some(t) = choice else {
        return len;
    };
    let at = CHOOSERS + t.0 as usize;
    items[len] = t.0;
    items[at] = i.0 as u16;
    len + 1
}
