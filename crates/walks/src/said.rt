// What a tag says in the spot that it stands in.
ghost use Rattle.std.specs.Prelude.{◌≡◌, length};
ghost use Rattle.walks.specs.Said.{beginning_turn, TagSaid};

use facts::{Said, said_of};
use marks::begin;
use tags::is_stated;
use turns::{SpotCells, Turning};

// Before the first tag of a text.
pub fn begin_turn() -> Turning
    ensures { result ≡ beginning_turn }
{
    Turning {
        walk: begin(),
        depth: 0,
        rows: 0,
        transitions: 0,
        spot: SpotCells { what: 0, number: 0 },
    }
}

// What a tag says, its attributes being those of the cells: an end tag nothing, whether it ends an if or not.
pub fn said_in(cells: &[u16], spot: SpotCells, shape: u8, element: u8) -> Said
    requires { length cells.now ≡ 22 }
    ensures { TagSaid cells.now spot shape element result }
{
    if 2 <= shape {
        return Said::Nothing;
    }
    let plain = !is_stated(cells, 29) & !is_stated(cells, 30);
    said_of(spot, element, plain)
}
