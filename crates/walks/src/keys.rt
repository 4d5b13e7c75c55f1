// The keys of a tag's items: which list or block of the tables they belong to (crate items). One that is in no table has the number of the bins as its key.
ghost use Rattle.std.specs.Prelude.{◌≡◌, cond, ltb, get_or};
ghost use Rattle.items.specs.Items.{list_key, element_key, target_key, descriptor_key, bin_count, key_of_block};
ghost use Rattle.walks.specs.Keys.{Few, KeysAre};

use crate::plan::Plan;
use crate::sources::Counts;
use facts::Said;
use values::noted::number_at;

// The key of the items, and that of a transition's descriptors.
#[derive(Clone, Copy)]
pub struct Keys {
    pub key: usize,
    pub other: usize,
}

// The rank of a transition by its number in the text.
pub fn rank_of(ranks: &[u16], m: usize) -> usize
    ensures { result ≡ get_or ranks.now m 0 }
{
    if m < ranks.len() {
        return number_at(ranks, m);
    }
    0
}

pub fn bin_count(n: usize, t: usize) -> usize
    requires { Few n t }
    ensures { result ≡ bin_count n t }
{
    n * 2 + t + t + n * 3 + t
}

// What the attribute initial of the row i states.
fn list_key(n: usize, t: usize, i: usize) -> usize
    requires { Few n t }
    ensures { result ≡ cond (ltb i n) (list_key i) (bin_count n t) }
{
    if i < n {
        return i * 2;
    }
    bin_count(n, t)
}

// What its initial element or default transition states.
fn element_key(n: usize, t: usize, i: usize) -> usize
    requires { Few n t }
    ensures { result ≡ cond (ltb i n) (element_key i) (bin_count n t) }
{
    if i < n {
        return i * 2 + 1;
    }
    bin_count(n, t)
}

// The targets of the transition of a rank.
fn target_key(n: usize, t: usize, r: usize) -> usize
    requires { Few n t }
    ensures { result ≡ cond (ltb r t) (target_key n r) (bin_count n t) }
{
    if r < t {
        return n * 2 + r;
    }
    bin_count(n, t)
}

fn descriptor_key(n: usize, t: usize, r: usize) -> usize
    requires { Few n t }
    ensures { result ≡ cond (ltb r t) (descriptor_key n t r) (bin_count n t) }
{
    if r < t {
        return n * 2 + t + r;
    }
    bin_count(n, t)
}

// A block: part 1 is the entry, 2 the exit block of a row, 3 that of its list, 4 that of a transition by its number in the text.
pub fn block_key(ranks: &[u16], n: usize, t: usize, part: usize, owner: usize) -> usize
    requires { Few n t }
    ensures { result ≡ key_of_block n t ranks.now part owner }
{
    if part == 0 {
        return bin_count(n, t);
    }
    if 3 < part {
        let r = rank_of(ranks, owner);
        if r < t {
            return n * 2 + t + t + n * 3 + r;
        }
        return bin_count(n, t);
    }
    if owner < n {
        return n * 2 + t + t + (owner * 3 + (part - 1));
    }
    bin_count(n, t)
}

// The keys of what a tag says, with so many rows and transitions before it.
pub fn keys_of(ranks: &[u16], p: Plan, c: Counts, said: Said) -> Keys
    requires { Few p.rows p.transitions }
    ensures { KeysAre p.rows p.transitions ranks.now c said result }
{
    let n = p.rows;
    let t = p.transitions;
    let none = bin_count(n, t);
    let i = c.rows;
    let r = rank_of(ranks, c.transitions);
    match said {
        Said::Nothing => Keys {
            key: none,
            other: none,
        },
        Said::Row(q) => Keys {
            key: list_key(n, t, i),
            other: none,
        },
        Said::List(j) => Keys {
            key: element_key(n, t, j),
            other: none,
        },
        Said::Transition(s) => Keys {
            key: target_key(n, t, r),
            other: descriptor_key(n, t, r),
        },
        Said::Action(b, o) => Keys {
            key: block_key(ranks, n, t, b, o),
            other: none,
        },
    }
}
