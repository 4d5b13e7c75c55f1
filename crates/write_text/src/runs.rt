// The transitions of a row: rule 5 has them in order of their sources, so they stand one behind the other.
ghost use Rattle.std.specs.Prelude.{◌≡◌, map, ◌-◌};
ghost use Rattle.definition.specs.Rows.{flat, from};
ghost use Rattle.definition.specs.Tables.{transition_cell};
ghost use Rattle.tables.specs.Ranges.{CellOfTransition};
ghost use Rattle.reading.specs.Layout.{content, transition_back};
ghost use Rattle.reading.specs.Print.{transition_text};
ghost use Rattle.spell.specs.Laid.{Laid};
ghost use Rattle.write_text.specs.Runs.{RunReady, Run, TransitionsReady};

use elements::transitions::lay_transition;
use numbers::Transition;
use tables::columns;

fn source_of(numbers: &[u64], t: u64) -> u64
    requires { CellOfTransition numbers.now t 0 }
    ensures { result ≡ transition_cell numbers.now t 0 }
{
    tables::transition_cell(numbers, Transition(t as u16), columns::SOURCE)
}

// The first transition from t on that is not of row i.
pub fn run_end(numbers: &[u64], i: u64, t: u64) -> u64
    requires { RunReady numbers.now t }
    ensures { Run numbers.now i t result }
{
    let n = tables::transition_count(numbers);
    for e in t..n {
        let source = source_of(numbers, e);
        if source != i {
            return e;
        }
    }
    n
}

// The transitions from t on, before transition `end`.
pub fn lay_transitions(
    numbers: &[u64],
    names: &[u8],
    t: u64,
    end: u64,
    out: &mut [u8],
    at: usize,
) -> usize
    requires { TransitionsReady numbers.now names.now t end }
    ensures { Laid (flat (transition_text (content numbers.now names.now).rows) (map (transition_back numbers.now names.now) (from (end - t) t))) out.old at out.new result }
{
    let mut next = at;
    for k in t..end {
        next = lay_transition(numbers, names, Transition(k as u16), out, next);
    }
    next
}
