// The kinds of a row, and which may stand under which.
#![tactic(auto)]

ghost use Rattle.std.specs.Prelude.{◌≡◌};
ghost use Rattle.definition.specs.Chart.{is_root, is_state, is_parallel, is_final, is_shallow, is_history};
ghost use Rattle.definition.specs.Rules.{may_stand};

use definition::Kind;

// A row for each parent, a column for each child.
const MAY_STAND: [[bool; 6]; 6] = [
    [false, true, true, true, false, false],
    [false, true, true, true, true, true],
    [false, true, true, false, true, true],
    [false, false, false, false, false, false],
    [false, false, false, false, false, false],
    [false, false, false, false, false, false],
];

pub fn is_root(k: Kind) -> bool
    ensures { result ≡ is_root k }
{
    matches!(k, Kind::Root)
}

pub fn is_state(k: Kind) -> bool
    ensures { result ≡ is_state k }
{
    matches!(k, Kind::State)
}

pub fn is_parallel(k: Kind) -> bool
    ensures { result ≡ is_parallel k }
{
    matches!(k, Kind::Parallel)
}

pub fn is_final(k: Kind) -> bool
    ensures { result ≡ is_final k }
{
    matches!(k, Kind::Final)
}

pub fn is_shallow(k: Kind) -> bool
    ensures { result ≡ is_shallow k }
{
    matches!(k, Kind::Shallow)
}

pub fn is_history(k: Kind) -> bool
    ensures { result ≡ is_history k }
{
    matches!(k, Kind::Shallow | Kind::Deep)
}

pub fn may_stand(parent: Kind, child: Kind) -> bool
    ensures { result ≡ may_stand parent child }
{
    let p = u64::from(parent) as usize;
    let c = u64::from(child) as usize;
    MAY_STAND[p][c]
}
