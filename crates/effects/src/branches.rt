// How far a block is in its ifs: its actions are performed, or they are passed over. "In reads the configuration at that moment."
ghost use Rattle.std.specs.Prelude.{◌≡◌, true, ◌<◌};
ghost use Rattle.definition.specs.Tables.{most_actions};
ghost use Rattle.follower.specs.Blocks.{at_if, at_else, at_end, after};
ghost use Rattle.rowset.specs.Member.{rows_of};
ghost use Rattle.effects.specs.Kinds.{ActionFits};
ghost use Rattle.effects.specs.Branches.{is_branch, depth_of};

use definition::{Action, Reach};
use numbers::Row;
use rowset::RowSet;

// Whether an action is a part of an if: one that asks which rows are active, or hangs on the answer.
pub fn is_branch(action: Action) -> bool
    ensures { result ≡ is_branch action }
{
    match action {
        Action::Raise(_) => false,
        Action::Host(_) => false,
        Action::If(_) => true,
        Action::ElseIf(_) => true,
        Action::Else => true,
        Action::End => true,
        Action::Send(_, _, _) => false,
        Action::Cancel(_) => false,
    }
}

// An if of that test begins.
fn at_if(holds: bool, r: Reach) -> Reach
    requires { depth_of r < most_actions }
    ensures { result ≡ at_if holds r }
{
    match r {
        Reach::Live => {
            if holds {
                Reach::Live
            } else {
                Reach::Waiting(0)
            }
        }
        Reach::Waiting(n) => Reach::Waiting(n + 1),
        Reach::Past(n) => Reach::Past(n + 1),
    }
}

// Another branch of it, of that test.
fn at_else(holds: bool, r: Reach) -> Reach
    ensures { result ≡ at_else holds r }
{
    match r {
        Reach::Live => Reach::Past(0),
        Reach::Waiting(n) => {
            if n == 0 {
                if holds {
                    Reach::Live
                } else {
                    Reach::Waiting(0)
                }
            } else {
                Reach::Waiting(n)
            }
        }
        Reach::Past(n) => Reach::Past(n),
    }
}

fn at_end(r: Reach) -> Reach
    ensures { result ≡ at_end r }
{
    match r {
        Reach::Live => Reach::Live,
        Reach::Waiting(n) => {
            if n == 0 {
                Reach::Live
            } else {
                Reach::Waiting(n - 1)
            }
        }
        Reach::Past(n) => {
            if n == 0 {
                Reach::Live
            } else {
                Reach::Past(n - 1)
            }
        }
    }
}

// Once the action has been seen, where these rows are active.
pub fn reach_after(active: RowSet, a: Action, r: Reach) -> Reach
    requires { ActionFits a × (depth_of r < most_actions) }
    ensures { result ≡ after (rows_of active) a r }
{
    match a {
        Action::Raise(_) => r,
        Action::Host(_) => r,
        Action::If(i) => at_if(active.has(Row(i as u8)), r),
        Action::ElseIf(i) => at_else(active.has(Row(i as u8)), r),
        Action::Else => at_else(true, r),
        Action::End => at_end(r),
        Action::Send(_, _, _) => r,
        Action::Cancel(_) => r,
    }
}
