// What rule 1 lets one read of a transition, of its descriptors, and of the names that they number.
ghost use Rattle.std.specs.Prelude.{◌≡◌, get_or};
ghost use Rattle.definition.specs.Tables.{transition_cell, descriptor_cell, source_at, events_at, internal_at, targets_at, descriptors_at, most_targets, most_descriptors};
ghost use Rattle.tables.specs.Ranges.{CellOfTransition, DescriptorIn, TransitionIn, DescriptorsIn, RowsIn, NamesIn, NameInList, SlotIn};
ghost use Rattle.tables.specs.Parts.{Listed, RowOf, NameOf, ConditionIn, SlotOf};

use crate::header::{descriptor_base, transition_base};
use crate::rows::references_part;
use crate::{columns, limits};
use numbers::{NameNumber, Row, Transition};

pub fn transition_cell(numbers: &[u64], t: Transition, column: usize) -> u64
    requires { CellOfTransition numbers.now t.0 column }
    ensures { result ≡ transition_cell numbers.now t.0 column }
{
    let at = transition_base(numbers) + t.0 as usize * columns::TRANSITION_WIDTH + column;
    numbers[at]
}

pub fn descriptor_cell(numbers: &[u64], k: u64) -> u64
    requires { DescriptorIn numbers.now k }
    ensures { result ≡ descriptor_cell numbers.now k }
{
    let at = descriptor_base(numbers) + k as usize;
    numbers[at]
}

fn descriptors_part(numbers: &[u64], start: u64, count: u64) -> &[u64]
    requires { DescriptorsIn numbers.now start count }
    ensures { Listed (NamesIn numbers.now) count (descriptors_at numbers.now start count) result.now }
{
    let from = descriptor_base(numbers) + start as usize;
    let to = from + count as usize;
    &numbers[from..to]
}

pub fn targets_of(numbers: &[u64], t: Transition) -> &[u64]
    requires { TransitionIn numbers.now t.0 }
    ensures { Listed (RowsIn numbers.now) most_targets (targets_at numbers.now t.0) result.now }
{
    let start = transition_cell(numbers, t, columns::TARGETS);
    let count = transition_cell(numbers, t, columns::TARGETS + 1);
    references_part(numbers, start, count)
}

pub fn descriptors_of(numbers: &[u64], t: Transition) -> &[u64]
    requires { TransitionIn numbers.now t.0 }
    ensures { Listed (NamesIn numbers.now) most_descriptors (events_at numbers.now t.0) result.now }
{
    let start = transition_cell(numbers, t, columns::EVENTS);
    let count = transition_cell(numbers, t, columns::EVENTS + 1);
    descriptors_part(numbers, start, count)
}

pub fn name_at(numbers: &[u64], list: &[u64], k: usize) -> NameNumber
    requires { NameInList numbers.now list.now k }
    ensures { NameOf numbers.now (get_or list.now k 0) result.0 }
{
    NameNumber(list[k] as u16)
}

pub fn source_of(numbers: &[u64], t: Transition) -> Row
    requires { TransitionIn numbers.now t.0 }
    ensures { RowOf numbers.now (source_at numbers.now t.0) result.0 }
{
    Row(transition_cell(numbers, t, columns::SOURCE) as u8)
}

pub fn is_internal(numbers: &[u64], t: Transition) -> bool
    requires { TransitionIn numbers.now t.0 }
    ensures { result ≡ internal_at numbers.now t.0 }
{
    transition_cell(numbers, t, columns::INTERNAL) == 1
}

pub fn condition_of(numbers: &[u64], t: Transition) -> Option<Row>
    requires { TransitionIn numbers.now t.0 }
    ensures { ConditionIn numbers.now t.0 result }
{
    let x = transition_cell(numbers, t, columns::CONDITION);
    if x == limits::NO_NUMBER {
        return None;
    }
    Some(Row(x as u8))
}

// The slot of a name.
pub fn slot_of(names: &[u8], n: NameNumber) -> &[u8]
    requires { SlotIn names.now n.0 }
    ensures { SlotOf names.now n.0 result.now }
{
    let from = n.0 as usize * limits::SLOT_SIZE;
    let to = from + limits::SLOT_SIZE;
    &names[from..to]
}
