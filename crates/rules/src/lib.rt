// Whether a lent chart is well formed: rules 4 and 5, and the verdict over all five.
#![tactic(auto)]

ghost use Rattle.std.specs.Prelude.{◌≡◌};
ghost use Rattle.definition.specs.Rules.{verdict, keeps_rules};
ghost use Rattle.rules.specs.Verdict.{first_three};

use definition::Answer;
use lists::keeps_lists;
pub use lists::lists_keep;
pub use transitions::keeps_transitions;

mod apart;
pub mod branches;
pub mod initial;
mod lists;
mod transitions;

// Rules 1 to 3: what has to hold before the sets of a compiled chart are looked at.
pub fn keeps_tables(numbers: &[u64], names: &[u8], room: usize, name_room: usize) -> bool
    ensures { result ≡ first_three numbers.now names.now room name_room }
{
    if !rules1::keeps_sizes(numbers, names, room, name_room) {
        return false;
    }
    if !rules1::keeps_names(numbers, names) {
        return false;
    }
    rules3::keeps_tree(numbers)
}

// The answer to compiling the chart into places of room numbers and name_room bytes: the first rule broken, for any numbers and bytes.
pub fn verdict(numbers: &[u64], names: &[u8], room: usize, name_room: usize) -> Answer
    ensures { result ≡ verdict numbers.now names.now room name_room }
{
    if !rules1::keeps_sizes(numbers, names, room, name_room) {
        return Answer::Size;
    }
    if !rules1::keeps_names(numbers, names) {
        return Answer::Names;
    }
    if !rules3::keeps_tree(numbers) {
        return Answer::Tree;
    }
    if !keeps_lists(numbers) {
        return Answer::Lists;
    }
    if !keeps_transitions(numbers) {
        return Answer::Transitions;
    }
    Answer::Done
}

// The same where the places are of the right size: does the chart keep the rules.
pub fn keeps_rules(numbers: &[u64], names: &[u8]) -> Answer
    ensures { result ≡ keeps_rules numbers.now names.now }
{
    if !tables::counts_fit(numbers) {
        return Answer::Size;
    }
    verdict(numbers, names, tables::compiled_size(numbers), names.len())
}
