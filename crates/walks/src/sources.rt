// How many rows and transitions a text has, and the source row of each transition in the text's order: the transitions are numbered "by source row, then by
// place" (1.18), so their sources are known before anything is laid out.
ghost use Rattle.std.specs.Prelude.{◌≡◌, ◌<◌};
ghost use Rattle.walks.specs.Counts.{CountRoom, CountedBy};
ghost use Rattle.walks.specs.Sources.{NoteRoom, SourceNoted, MarkRoom, MarkNoted, SourceRoom, Sourced};

use crate::said::{begin_turn, said_in};
use facts::Said;
use marks::{Mark, is_mark};
use turns::{SpotCells, next_turn};

#[derive(Clone, Copy)]
pub struct Counts {
    pub rows: usize,
    pub transitions: usize,
}

// One row or transition more, if the tag says one.
pub fn counted(c: Counts, said: Said) -> Counts
    requires { CountRoom c }
    ensures { CountedBy c said result }
{
    let rows = c.rows;
    let transitions = c.transitions;
    match said {
        Said::Nothing => c,
        Said::Row(q) => Counts {
            rows: rows + 1,
            transitions,
        },
        Said::List(i) => c,
        Said::Transition(i) => Counts {
            rows,
            transitions: transitions + 1,
        },
        Said::Action(b, i) => c,
    }
}

// The source of the transition that the tag says, if it says one, behind m others.
fn note_source(sources: &mut [u16], m: usize, said: Said)
    requires { NoteRoom sources.old m said }
    ensures { SourceNoted sources.old sources.new m said }
{
    match said {
        Said::Nothing => {}
        Said::Row(q) => {}
        Said::List(i) => {}
        Said::Transition(i) => {
            sources[m] = i as u16;
        }
        Said::Action(b, i) => {}
    }
}

// The tag that the mark ends, which stands in the spot.
fn note_mark(cells: &[u16], sources: &mut [u16], c: Counts, spot: SpotCells, m: Mark) -> Counts
    requires { MarkRoom cells.now sources.old c spot }
    ensures { MarkNoted cells.now sources.old sources.new c spot m result }
{
    match m {
        Mark::Nothing => c,
        Mark::Valued(e, w, a, b) => c,
        Mark::Tagged(a, s, e) => {
            let said = said_in(cells, spot, s, e);
            let n = c.transitions;
            note_source(sources, n, said);
            counted(c, said)
        }
    }
}

// The sources of all transitions of the text, and how many rows and transitions there are.
pub fn sources(
    text: &[u8],
    levels: &mut [u8],
    cells: &mut [u16],
    spots: &mut [u16],
    sources: &mut [u16],
) -> Counts
    requires { SourceRoom text.now levels.old cells.old spots.old sources.old }
    ensures { Sourced text.now levels.new cells.new spots.new sources.new result }
{
    let mut t = begin_turn();
    let mut c = Counts {
        rows: 0,
        transitions: 0,
    };
    // Kept: each turn goes on from the one before and writes the places that it reads, which no `for` does.
    loop {
        let next = next_turn(text, levels, cells, spots, t);
        let walk = next.walk;
        let m = walk.mark;
        let found = is_mark(m);
        if !found {
            return c;
        }
        let spot = next.spot;
        c = note_mark(cells, sources, c, spot, m);
        t = next;
    }
}
