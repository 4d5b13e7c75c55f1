// Transitions: type, event, cond, target, and the block.
ghost use Rattle.reading.specs.Layout.{content, transition_back};
ghost use Rattle.reading.specs.Print.{condition_text, transition_text};
ghost use Rattle.spell.specs.Laid.{Laid};
ghost use Rattle.definition.specs.Tables.{internal_at, condition_at};
ghost use Rattle.tables.specs.Ranges.{TransitionIn};
ghost use Rattle.elements.specs.Transitions.{TransitionReady, type_text, event_text, target_text, rest_text};

use numbers::Transition;
use spell::blocks::lay_inside;
use spell::lists::{Items, lay_list};
use spell::parts::lay_part;
use spell::values::lay_condition;
use tables::{columns, limits};

// The type, if it is not the default.
fn lay_type(numbers: &[u64], t: Transition, out: &mut [u8], at: usize) -> usize
    requires { TransitionIn numbers.now t.0 }
    ensures { Laid (type_text (internal_at numbers.now t.0)) out.old at out.new result }
{
    if !tables::is_internal(numbers, t) {
        return at;
    }
    lay_part(b" type=\"internal\"", out, at)
}

fn lay_test(numbers: &[u64], names: &[u8], t: Transition, out: &mut [u8], at: usize) -> usize
    requires { TransitionReady numbers.now names.now t.0 }
    ensures { Laid (condition_text (content numbers.now names.now).rows (condition_at numbers.now t.0)) out.old at out.new result }
{
    let i = tables::transition_cell(numbers, t, columns::CONDITION);
    if i == limits::NO_NUMBER {
        return at;
    }
    lay_condition(numbers, names, b"", i, b"", out, at)
}

fn lay_events(numbers: &[u64], names: &[u8], t: Transition, out: &mut [u8], at: usize) -> usize
    requires { TransitionReady numbers.now names.now t.0 }
    ensures { Laid (event_text numbers.now names.now t.0) out.old at out.new result }
{
    let events = tables::descriptors_of(numbers, t);
    lay_list(numbers, names, b" event=", Items::Names, events, out, at)
}

fn lay_targets(numbers: &[u64], names: &[u8], t: Transition, out: &mut [u8], at: usize) -> usize
    requires { TransitionReady numbers.now names.now t.0 }
    ensures { Laid (target_text numbers.now names.now t.0) out.old at out.new result }
{
    let targets = tables::targets_of(numbers, t);
    lay_list(numbers, names, b" target=", Items::Rows, targets, out, at)
}

// The block, and the end of the element.
fn lay_rest(numbers: &[u64], names: &[u8], t: Transition, out: &mut [u8], at: usize) -> usize
    requires { TransitionReady numbers.now names.now t.0 }
    ensures { Laid (rest_text numbers.now names.now t.0) out.old at out.new result }
{
    let start = tables::transition_cell(numbers, t, columns::BLOCK);
    let count = tables::transition_cell(numbers, t, columns::BLOCK + 1);
    lay_inside(numbers, names, b"transition", start, count, out, at)
}

pub fn lay_transition(
    numbers: &[u64],
    names: &[u8],
    t: Transition,
    out: &mut [u8],
    at: usize,
) -> usize
    requires { TransitionReady numbers.now names.now t.0 }
    ensures { Laid (transition_text (content numbers.now names.now).rows (transition_back numbers.now names.now t.0)) out.old at out.new result }
{
    let begun = lay_part(b"<transition", out, at);
    let typed = lay_type(numbers, t, out, begun);
    let matched = lay_events(numbers, names, t, out, typed);
    let tested = lay_test(numbers, names, t, out, matched);
    let aimed = lay_targets(numbers, names, t, out, tested);
    lay_rest(numbers, names, t, out, aimed)
}
