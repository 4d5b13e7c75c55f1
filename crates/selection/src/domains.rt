// The domain and the exit set of a transition; the domains that no history moves.
ghost use Rattle.std.specs.Prelude.{◌≡◌};
ghost use Rattle.definition.specs.Tables.{transition_at, chart_of};
ghost use Rattle.follower.specs.Selection.{holds_all, is_own_domain, domain_of, domain, exit_set};
ghost use Rattle.rowset.specs.Member.{rows_of};
ghost use Rattle.chart.specs.Ready.{Ready, RowReady, TransitionReady};
ghost use Rattle.paths.specs.History.{stored_at};
ghost use Rattle.selection.specs.FixedDomains.{has_fixed_targets, FixedDomain, DomainsFixed};
ghost use Rattle.selection.specs.Ready.{MoveReady, FixedReady, DomainIs};

use crate::FixedDomains;
use crate::targets::effective_targets;
use numbers::{Row, Transition};
use rowset::RowSet;

// Whether the source is the domain, since the transition is internal.
fn is_own_domain(chart: &[u64], t: Transition, targets: RowSet) -> bool
    requires { TransitionReady chart.now t.0 }
    ensures { result ≡ is_own_domain (chart_of chart.now) (transition_at chart.now t.0) (rows_of targets) }
{
    if !tables::is_internal(chart, t) {
        return false;
    }
    let source = tables::source_of(chart, t);
    if !chart::is_compound(chart, source) {
        return false;
    }
    targets.subset(chart::descendants_of(chart, source))
}

// Whether row a is compound or root and has all targets as proper descendants.
fn holds_all(chart: &[u64], targets: RowSet, a: Row) -> bool
    requires { RowReady chart.now a.0 }
    ensures { result ≡ holds_all (chart_of chart.now) (rows_of targets) a.0 }
{
    if !chart::is_domain_kind(chart, a) {
        return false;
    }
    targets.subset(chart::descendants_of(chart, a))
}

// The domain of a transition with these effective targets.
pub fn domain_of(chart: &[u64], t: Transition, targets: RowSet) -> Row
    requires { TransitionReady chart.now t.0 }
    ensures { DomainIs chart.now (domain_of (chart_of chart.now) (transition_at chart.now t.0) (rows_of targets)) result.0 }
{
    let source = tables::source_of(chart, t);
    if is_own_domain(chart, t, targets) {
        return source;
    }
    let mut a = source.0;
    loop {
        let p = tables::parent_of(chart, Row(a));
        if a as u64 <= p {
            return Row(0);
        }
        a = p as u8;
        if holds_all(chart, targets, Row(a)) {
            return Row(a);
        }
    }
}

pub fn domain(chart: &[u64], history: &[u64], t: Transition) -> Row
    requires { MoveReady chart.now history.now t.0 }
    ensures { DomainIs chart.now (domain (chart_of chart.now) (stored_at history.now) (transition_at chart.now t.0)) result.0 }
{
    domain_of(chart, t, effective_targets(chart, history, t))
}

// What stands for no domain: no row has this number.
// Kept: the domains stand in the lent index (lookup::put_index), whose cells are numbers.
pub const NO_DOMAIN: u16 = 256;

// Whether a transition has targets, and no history among them.
fn has_fixed_targets(chart: &[u64], t: Transition) -> bool
    requires { TransitionReady chart.now t.0 }
    ensures { result ≡ has_fixed_targets (chart_of chart.now) t.0 }
{
    let targets = tables::targets_of(chart, t);
    for i in 0..targets.len() {
        let x = tables::row_at(chart, targets, i);
        if kinds::is_history(tables::kind_of(chart, x)) {
            return false;
        }
    }
    0 < targets.len()
}

fn fixed_domain(chart: &[u64], t: Transition) -> u16
    requires { TransitionReady chart.now t.0 }
    ensures { FixedDomain (chart_of chart.now) t.0 result }
{
    if !has_fixed_targets(chart, t) {
        return NO_DOMAIN;
    }
    let d = domain_of(chart, t, chart::anchors_of(chart, t));
    d.0 as u16
}

pub fn fixed_domains(chart: &[u64]) -> FixedDomains
    requires { Ready chart.now }
    ensures { DomainsFixed (chart_of chart.now) result.domains }
{
    let n = tables::transition_count(chart) as usize;
    let mut domains = [NO_DOMAIN; 512];
    for t in 0..n {
        domains[t] = fixed_domain(chart, Transition(t as u16));
    }
    FixedDomains { domains: domains }
}

pub fn exit_set(
    chart: &[u64],
    domains: &[u16],
    conf: RowSet,
    history: &[u64],
    t: Transition,
) -> RowSet
    requires { FixedReady chart.now domains.now history.now t.0 }
    ensures { rows_of result ≡ exit_set (chart_of chart.now) (rows_of conf) (stored_at history.now) (transition_at chart.now t.0) }
{
    let at = t.0 as usize;
    let fixed = domains[at];
    if fixed < NO_DOMAIN {
        return conf.intersection(chart::descendants_of(chart, Row(fixed as u8)));
    }
    if tables::targets_of(chart, t).len() == 0 {
        return RowSet::empty();
    }
    conf.intersection(chart::descendants_of(chart, domain(chart, history, t)))
}
