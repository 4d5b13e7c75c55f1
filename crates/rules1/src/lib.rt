// Rules 1 and 2: every number within its table or range, the places lent of the right size; names, ids and raises.
#![tactic(auto)]

ghost use Rattle.std.specs.Prelude.{◌≡◌, true, ◌||◌, ◌<◌, eqb};
ghost use Rattle.definition.specs.Rows.{all, from};
ghost use Rattle.definition.specs.Names.{is_name};
ghost use Rattle.definition.specs.Tables.{no_number, action_count, name_count, name_at};
ghost use Rattle.definition.specs.Rules.{optional_below, slot_fits, action_named, rule2};
ghost use Rattle.tables.specs.Ranges.{InTables, ActionIn, SlotsIn};

use definition::Action;
use filled::fits;
use ids::ids_fit;
use numbers::NameNumber;
pub use sizes::{has_no_parts, keeps_sizes};
use tables::limits;

mod classes;
mod filled;
mod ids;
mod keys;
mod sizes;
mod spelling;

// ---- rule 2

fn slots_fit(numbers: &[u64], names: &[u8]) -> bool
    requires { InTables numbers.now × SlotsIn numbers.now names.now }
    ensures { result ≡ all (slot_fits names.now) (from (name_count numbers.now) 0) }
{
    (0..tables::name_count(numbers)).all(|i| fits(tables::slot_of(names, NameNumber(i as u16))))
}

fn is_named(numbers: &[u64], names: &[u8], n: u64) -> bool
    requires { InTables numbers.now × SlotsIn numbers.now names.now × (n < name_count numbers.now) }
    ensures { result ≡ is_name (name_at names.now n) }
{
    names::is_name(names::name_of(tables::slot_of(names, NameNumber(n as u16))))
}

// A send id, if there is one.
fn is_named_or_none(numbers: &[u64], names: &[u8], n: u64) -> bool
    requires { InTables numbers.now × SlotsIn numbers.now names.now × (optional_below (name_count numbers.now) n ≡ true) }
    ensures { result ≡ (eqb n no_number || is_name (name_at names.now n)) }
{
    if n == limits::NO_NUMBER {
        return true;
    }
    is_named(numbers, names, n)
}

fn action_named(numbers: &[u64], names: &[u8], a: u64) -> bool
    requires { ActionIn numbers.now a × SlotsIn numbers.now names.now }
    ensures { result ≡ action_named numbers.now names.now a }
{
    match tables::action_at(numbers, a) {
        Action::Raise(n) => is_named(numbers, names, n),
        Action::Host(_) => true,
        Action::If(_) => true,
        Action::ElseIf(_) => true,
        Action::Else => true,
        Action::End => true,
        Action::Send(n, _, id) => {
            is_named(numbers, names, n) & is_named_or_none(numbers, names, id)
        }
        Action::Cancel(n) => is_named(numbers, names, n),
    }
}

fn actions_named(numbers: &[u64], names: &[u8]) -> bool
    requires { InTables numbers.now × SlotsIn numbers.now names.now }
    ensures { result ≡ all (action_named numbers.now names.now) (from (action_count numbers.now) 0) }
{
    (0..tables::action_count(numbers)).all(|a| action_named(numbers, names, a))
}

pub fn keeps_names(numbers: &[u64], names: &[u8]) -> bool
    requires { InTables numbers.now × SlotsIn numbers.now names.now }
    ensures { result ≡ rule2 numbers.now names.now }
{
    if !slots_fit(numbers, names) {
        return false;
    }
    if !ids_fit(numbers, names) {
        return false;
    }
    actions_named(numbers, names)
}
