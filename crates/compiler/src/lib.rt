// A chart's numbers into a compiled chart: the sets that the rows give, behind the numbers.
#![tactic(auto)]

ghost use Rattle.std.specs.Prelude.{◌≡◌, cond, ◌*◌};
ghost use Rattle.definition.specs.Tables.{name_count, slot_size};
ghost use Rattle.definition.specs.Compiled.{is_compiled};
ghost use Rattle.definition.specs.Rules.{counts_fit, compiled_size};
ghost use Rattle.compiler.specs.Results.{Compiles};

use crate::columns::write_columns;
use crate::judging::{ancestors_hold, has_columns};
use definition::Answer;
use places::copy;
use tables::limits;

mod columns;
mod judging;

// The sizes that a chart's counts ask of the two places; 0 where the counts break rule 1.
// Kept: C is answered this number (auttervil_raw3_numbers_size, auttervil_raw3_names_size), so 0 stands in place of an Option.
pub fn numbers_size(numbers: &[u64]) -> usize
    ensures { result ≡ cond (counts_fit numbers.now) (compiled_size numbers.now) 0 }
{
    if !tables::counts_fit(numbers) {
        return 0;
    }
    tables::compiled_size(numbers)
}

pub fn names_size(numbers: &[u64]) -> usize
    ensures { result ≡ cond (counts_fit numbers.now) (name_count numbers.now * slot_size) 0 }
{
    if !tables::counts_fit(numbers) {
        return 0;
    }
    tables::name_count(numbers) as usize * limits::SLOT_SIZE
}

// Compile a chart into two lent places. Answers 1 to 5 leave them as they were.
pub fn compile(numbers: &[u64], names: &[u8], place: &mut [u64], name_place: &mut [u8]) -> Answer
    ensures { Compiles numbers.now names.now place.old name_place.old result place.new name_place.new }
{
    let answer = rules::verdict(numbers, names, place.len(), name_place.len());
    let Answer::Done = answer else {
        return answer;
    };
    let size = numbers.len();
    copy(numbers, place);
    write_columns(numbers, &mut place[size..]);
    copy(names, name_place);
    Answer::Done
}

// The check behind refusal 8: the place holds what its own numbers compile to, and they keep the rules. Rule 4 reads the ancestors that it holds, once
// they are judged.
pub fn check(place: &[u64], names: &[u8]) -> bool
    ensures { result ≡ is_compiled place.now names.now }
{
    if !tables::counts_fit(place) {
        return false;
    }
    let size = tables::tables_size(place);
    if place.len() < size {
        return false;
    }
    let numbers = &place[..size];
    let sets = &place[size..];
    if !rules::keeps_tables(numbers, names, place.len(), names.len()) {
        return false;
    }
    if !ancestors_hold(numbers, sets) {
        return false;
    }
    if !rules::lists_keep(numbers, sets) {
        return false;
    }
    if !rules::keeps_transitions(numbers) {
        return false;
    }
    has_columns(numbers, sets)
}
