// Rule 5 of transitions: their order, their sources, what they are for, their conditions.
ghost use Rattle.std.specs.Prelude.{◌≡◌};
ghost use Rattle.definition.specs.Rows.{all, from, mem};
ghost use Rattle.definition.specs.Tables.{transition_count, kind_at, source_at, condition_at, transition_at, chart_of};
ghost use Rattle.definition.specs.Rules.{is_in_order, is_source_kind, has_use, condition_fits, spins, transition_fits, rule5};
ghost use Rattle.tables.specs.Ranges.{InTables, TransitionIn};

use crate::branches::{keeps_branches, may_be_asked};
use numbers::{Row, Transition};

fn is_in_order(numbers: &[u64], t: Transition) -> bool
    requires { TransitionIn numbers.now t.0 }
    ensures { result ≡ is_in_order (chart_of numbers.now) t.0 }
{
    let k = t.0;
    if k == 0 {
        return true;
    }
    let before = tables::source_of(numbers, Transition(k - 1));
    let own = tables::source_of(numbers, t);
    before.0 <= own.0
}

fn has_source(numbers: &[u64], t: Transition) -> bool
    requires { TransitionIn numbers.now t.0 }
    ensures { result ≡ is_source_kind (kind_at numbers.now (source_at numbers.now t.0)) }
{
    let kind = tables::kind_of(numbers, tables::source_of(numbers, t));
    tables::is_state(kind) | tables::is_parallel(kind)
}

fn has_use(numbers: &[u64], t: Transition) -> bool
    requires { TransitionIn numbers.now t.0 }
    ensures { result ≡ has_use (transition_at numbers.now t.0) }
{
    let descriptors = tables::descriptors_of(numbers, t);
    if descriptors.len() != 0 {
        return true;
    }
    let targets = tables::targets_of(numbers, t);
    if targets.len() != 0 {
        return true;
    }
    tables::condition_of(numbers, t).is_some()
}

fn condition_fits(numbers: &[u64], t: Transition) -> bool
    requires { TransitionIn numbers.now t.0 }
    ensures { result ≡ condition_fits (chart_of numbers.now) (condition_at numbers.now t.0) }
{
    match tables::condition_of(numbers, t) {
        None => true,
        Some(r) => may_be_asked(numbers, r),
    }
}

// Whether row r is in the list.
fn has_row(list: &[u64], r: Row) -> bool
    ensures { result ≡ mem r.0 list.now }
{
    list.contains(&u64::from(r.0))
}

// Whether a transition is eventless and either has no targets, or has no condition and its own source among them.
fn spins(numbers: &[u64], t: Transition) -> bool
    requires { TransitionIn numbers.now t.0 }
    ensures { result ≡ spins (transition_at numbers.now t.0) }
{
    let descriptors = tables::descriptors_of(numbers, t);
    if descriptors.len() != 0 {
        return false;
    }
    let targets = tables::targets_of(numbers, t);
    if targets.len() == 0 {
        return true;
    }
    match tables::condition_of(numbers, t) {
        None => has_row(targets, tables::source_of(numbers, t)),
        Some(_) => false,
    }
}

fn transition_fits(numbers: &[u64], t: Transition) -> bool
    requires { TransitionIn numbers.now t.0 }
    ensures { result ≡ transition_fits (chart_of numbers.now) t.0 }
{
    is_in_order(numbers, t)
        & has_source(numbers, t)
        & has_use(numbers, t)
        & condition_fits(numbers, t)
        & !spins(numbers, t)
}

fn transitions_fit(numbers: &[u64]) -> bool
    requires { InTables numbers.now }
    ensures { result ≡ all (transition_fits (chart_of numbers.now)) (from (transition_count numbers.now) 0) }
{
    let n = tables::transition_count(numbers);
    (0..n).all(|i| transition_fits(numbers, Transition(i as u16)))
}

pub fn keeps_transitions(numbers: &[u64]) -> bool
    requires { InTables numbers.now }
    ensures { result ≡ rule5 (chart_of numbers.now) }
{
    if !transitions_fit(numbers) {
        return false;
    }
    keeps_branches(numbers)
}
