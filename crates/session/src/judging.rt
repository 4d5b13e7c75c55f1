// "a session is not well formed": the test behind refusal 9.
ghost use Rattle.std.specs.Prelude.{◌≡◌, ◌+◌, ◌*◌, ◌≤◌, ◌<◌, eqb, length};
ghost use Rattle.definition.specs.Rows.{all, from};
ghost use Rattle.definition.specs.Tables.{chart_of};
ghost use Rattle.rowset.specs.Member.{rows_of};
ghost use Rattle.chart.specs.Ready.{Ready};
ghost use Rattle.session.specs.Sessions.{session, is_session};
ghost use Rattle.session.specs.Judged.{Lengths, holds_place, mode_holds};

use definition::Mode;
use numbers::Row;
use rowset::RowSet;
use tables::columns::SET_WIDTH;

// So many places are judged one by one; with more of them it takes less to judge all together.
const FEW_PLACES: u64 = 32;

// "is closing exactly if a final under root is active; is ended exactly if nothing is active, its queues then empty"; legal unless ended.
pub fn mode_holds(chart: &[u64], conf: RowSet, internal: u64, external: u64, mode: u64) -> bool
    requires { Ready chart.now }
    ensures { result ≡ mode_holds (chart_of chart.now) (rows_of conf) internal external mode }
{
    let most = u64::from(Mode::Closing);
    if most < mode {
        return false;
    }
    let known = Mode::from(mode);
    if let Mode::Ended = known {
        return conf.is_empty() & (internal == 0) & (external == 0);
    }
    if !legality::is_legal(chart, conf) {
        return false;
    }
    let closing = legality::has_final(chart, conf);
    if let Mode::Running = known {
        return !closing;
    }
    closing
}

// Nothing is stored at place h, or row h is a history that may have stored the set.
fn place_holds(chart: &[u64], history: &[u64], h: usize) -> bool
    requires { Ready chart.now × (length history.now ≡ 1024) × (h < 256) }
    ensures { result ≡ holds_place (chart_of chart.now) history.now h }
{
    let set = chart::set_at(history, h * SET_WIDTH);
    if set.is_empty() {
        return true;
    }
    if tables::row_count(chart) <= h as u64 {
        return false;
    }
    let r = Row(h as u8);
    if !chart::is_history(tables::kind_of(chart, r)) {
        return false;
    }
    legality::is_storable(chart, r, set)
}

// Whether every word is zero. All are put together before any is judged: so many are read at a time as the machine takes.
fn are_zero(words: &[u64]) -> bool
    ensures { result ≡ all (eqb 0) words.now }
{
    let mut any: u64 = 0;
    for i in 0..words.len() {
        any = any | words[i];
    }
    any == 0
}

// Whether more places store something than are judged one by one.
fn are_many(history: &[u64], rows: usize) -> bool
    requires { (rows ≤ 256) × (length history.now ≡ 1024) }
{
    let mut left = FEW_PLACES;
    for h in 0..rows {
        if !chart::set_at(history, h * SET_WIDTH).is_empty() {
            if left == 0 {
                return true;
            }
            left -= 1;
        }
    }
    false
}

// Nothing may be stored behind the rows of the chart. Most sessions store nothing at all: that is told before any place is looked at. Many places are judged
// together, in a time that grows with the rows; one by one each takes as long as the rows below its history's parent are many.
pub fn history_holds(chart: &[u64], history: &[u64]) -> bool
    requires { Ready chart.now × (length history.now ≡ 1024) }
    ensures { result ≡ all (holds_place (chart_of chart.now) history.now) (from 256 0) }
{
    let rows = tables::row_count(chart) as usize;
    let end = rows * SET_WIDTH;
    if !are_zero(&history[end..]) {
        return false;
    }
    if are_zero(&history[..end]) {
        return true;
    }
    if are_many(history, rows) {
        return histories::places_hold(chart, history);
    }
    for h in 0..rows {
        if !place_holds(chart, history, h) {
            return false;
        }
    }
    true
}

// The same test over a session's parts, which are lent for it.
pub fn parts_hold<'a>(
    chart: &[u64],
    configuration: &'a [u64],
    history: &'a [u64],
    internal: &'a [u8],
    external: &'a [u8],
    internal_count: u64,
    external_count: u64,
    mode: u64,
) -> bool
    requires { Ready chart.now × Lengths configuration.now history.now internal.now external.now }
    ensures { result ≡ is_session (chart_of chart.now) (session configuration.now history.now internal.now external.now internal_count external_count mode) }
{
    let queues = queue::queue_fits(internal, internal_count)
        & queue::queue_fits(external, external_count);
    let conf = chart::set_at(configuration, 0);
    queues
        & mode_holds(chart, conf, internal_count, external_count, mode)
        & history_holds(chart, history)
}
