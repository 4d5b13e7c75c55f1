// The numbers of a session, and the state in them, which is handed on by value while a call works.
#![tactic(auto)]

ghost use Rattle.std.specs.Prelude.{◌≡◌, [], ◌∷◌, length};
ghost use Rattle.definition.specs.Compiled.{words};
ghost use Rattle.definition.specs.Answers.{mode_no};
ghost use Rattle.rowset.specs.Member.{rows_of};
ghost use Rattle.state.specs.State.{history_in, state_in, numbers_of};

use definition::Mode;
use rowset::RowSet;

// The configuration, how many names wait in each queue, and the mode.
#[derive(Clone, Copy)]
pub struct State {
    pub configuration: RowSet,
    pub internal: u64,
    pub external: u64,
    pub mode: Mode,
}

// A configuration as a session holds it.
pub fn words_of(conf: RowSet) -> [u64; 4]
    ensures { result ≡ words (rows_of conf) }
{
    [conf.w0, conf.w1, conf.w2, conf.w3]
}

// ---- the numbers: the configuration, the stored history, how many names wait in the internal and in the external queue, the mode

pub const NUMBERS: usize = 1031;

pub const HISTORY: usize = 4;

pub const INTERNAL: usize = 1028;

pub const EXTERNAL: usize = 1029;

pub const MODE: usize = 1030;

// The state in the numbers.
pub fn state_in(numbers: &[u64]) -> State
    requires { length numbers.now ≡ 1031 }
    ensures { result ≡ state_in numbers.now }
{
    State {
        configuration: chart::set_at(numbers, 0),
        internal: numbers[INTERNAL],
        external: numbers[EXTERNAL],
        mode: Mode::from(numbers[MODE]),
    }
}

// The state into the numbers, whose stored history stays.
pub fn put_state(numbers: &mut [u64], state: State)
    requires { length numbers.old ≡ 1031 }
    ensures { numbers.new ≡ numbers_of (words (rows_of state.configuration)) (history_in numbers.old) state.internal state.external (mode_no state.mode) }
{
    tables::put_set(numbers, 0, state.configuration);
    let counts = [state.internal, state.external, u64::from(state.mode)];
    numbers[INTERNAL..NUMBERS].copy_from_slice(&counts);
}
