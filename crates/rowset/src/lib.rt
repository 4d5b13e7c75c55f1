// Sets of rows, by value: 256 bits in four words. What a set means is its ascending list of rows, `rows_of`, and each contract is an
// equation with the definition's own functions of such lists.
#![tactic(auto)]

ghost use Rattle.std.specs.Prelude.{◌≡◌, [], ◌∷◌, min};
ghost use Rattle.definition.specs.Rows.{from, mem, is_empty, is_single, insert, union, intersection, minus, meets, subset, same};
ghost use Rattle.rowset.specs.Member.{rows_of, next_in, prev_in};

use crate::words::{high_below, low_from, ones_below, placed};
use numbers::Row;
pub use rows::{Rows, RowsDown};

pub mod rows;
pub mod words;

// Bit r % 64 of word r / 64 stands for row r.
#[derive(Clone, Copy, PartialEq, Eq)]
pub struct RowSet {
    pub w0: u64,
    pub w1: u64,
    pub w2: u64,
    pub w3: u64,
}

impl RowSet {
    pub fn empty() -> RowSet
        ensures { rows_of result ≡ [] }
    {
        RowSet {
            w0: 0,
            w1: 0,
            w2: 0,
            w3: 0,
        }
    }

    // The set of one row.
    pub fn single(r: Row) -> RowSet
        ensures { rows_of result ≡ r.0 ∷ [] }
    {
        let k = r.0;
        RowSet {
            w0: placed(k, 0),
            w1: placed(k, 1),
            w2: placed(k, 2),
            w3: placed(k, 3),
        }
    }

    // The rows below n. There are 256 in all.
    pub fn below(n: u16) -> RowSet
        ensures { rows_of result ≡ from (min n 256) 0 }
    {
        RowSet {
            w0: ones_below(n),
            w1: ones_below(n.saturating_sub(64)),
            w2: ones_below(n.saturating_sub(128)),
            w3: ones_below(n.saturating_sub(192)),
        }
    }

    // The word is chosen by branches here and in `with`: most rows stand in the first.
    pub fn has(self, r: Row) -> bool
        ensures { result ≡ mem r.0 (rows_of self) }
    {
        let k = r.0;
        if k < 64 {
            return (self.w0 >> k) % 2 == 1;
        }
        if k < 128 {
            return (self.w1 >> (k - 64)) % 2 == 1;
        }
        if k < 192 {
            return (self.w2 >> (k - 128)) % 2 == 1;
        }
        (self.w3 >> (k - 192)) % 2 == 1
    }

    // One word changes, and no other is touched.
    pub fn with(self, r: Row) -> RowSet
        ensures { rows_of result ≡ insert r.0 (rows_of self) }
    {
        let k = r.0;
        if k < 64 {
            return RowSet {
                w0: self.w0 | (1u64 << k),
                w1: self.w1,
                w2: self.w2,
                w3: self.w3,
            };
        }
        if k < 128 {
            return RowSet {
                w0: self.w0,
                w1: self.w1 | (1u64 << (k - 64)),
                w2: self.w2,
                w3: self.w3,
            };
        }
        if k < 192 {
            return RowSet {
                w0: self.w0,
                w1: self.w1,
                w2: self.w2 | (1u64 << (k - 128)),
                w3: self.w3,
            };
        }
        RowSet {
            w0: self.w0,
            w1: self.w1,
            w2: self.w2,
            w3: self.w3 | (1u64 << (k - 192)),
        }
    }

    pub fn without(self, r: Row) -> RowSet
        ensures { rows_of result ≡ minus (rows_of self) (r.0 ∷ []) }
    {
        self.minus(RowSet::single(r))
    }

    pub fn union(self, o: RowSet) -> RowSet
        ensures { rows_of result ≡ union (rows_of self) (rows_of o) }
    {
        RowSet {
            w0: self.w0 | o.w0,
            w1: self.w1 | o.w1,
            w2: self.w2 | o.w2,
            w3: self.w3 | o.w3,
        }
    }

    pub fn intersection(self, o: RowSet) -> RowSet
        ensures { rows_of result ≡ intersection (rows_of self) (rows_of o) }
    {
        RowSet {
            w0: self.w0 & o.w0,
            w1: self.w1 & o.w1,
            w2: self.w2 & o.w2,
            w3: self.w3 & o.w3,
        }
    }

    // `a & (a ^ b)` is what a has and b has not.
    pub fn minus(self, o: RowSet) -> RowSet
        ensures { rows_of result ≡ minus (rows_of self) (rows_of o) }
    {
        RowSet {
            w0: self.w0 & (self.w0 ^ o.w0),
            w1: self.w1 & (self.w1 ^ o.w1),
            w2: self.w2 & (self.w2 ^ o.w2),
            w3: self.w3 & (self.w3 ^ o.w3),
        }
    }

    pub fn is_empty(self) -> bool
        ensures { result ≡ is_empty (rows_of self) }
    {
        (self.w0 | self.w1 | self.w2 | self.w3) == 0
    }

    pub fn meets(self, o: RowSet) -> bool
        ensures { result ≡ meets (rows_of self) (rows_of o) }
    {
        !self.intersection(o).is_empty()
    }

    pub fn subset(self, o: RowSet) -> bool
        ensures { result ≡ subset (rows_of self) (rows_of o) }
    {
        self.minus(o).is_empty()
    }

    pub fn same(self, o: RowSet) -> bool
        ensures { result ≡ same (rows_of self) (rows_of o) }
    {
        self == o
    }

    // The first row at or above k. The four words are written out: a loop would choose the word anew each time.
    pub fn next_from(self, k: u16) -> Option<Row>
        ensures { result ≡ next_in (rows_of self) k }
    {
        if k < 64 {
            let b = low_from(self.w0, k);
            if b < 64 {
                return Some(Row(b as u8));
            }
        }
        if k < 128 {
            let b = low_from(self.w1, k.saturating_sub(64));
            if b < 64 {
                return Some(Row((64 + b) as u8));
            }
        }
        if k < 192 {
            let b = low_from(self.w2, k.saturating_sub(128));
            if b < 64 {
                return Some(Row((128 + b) as u8));
            }
        }
        if k < 256 {
            let b = low_from(self.w3, k.saturating_sub(192));
            if b < 64 {
                return Some(Row((192 + b) as u8));
            }
        }
        None
    }

    // The last row below k.
    pub fn prev_below(self, k: u16) -> Option<Row>
        ensures { result ≡ prev_in (rows_of self) k }
    {
        if 192 < k {
            let b = high_below(self.w3, k - 192);
            if b < 64 {
                return Some(Row((192 + b) as u8));
            }
        }
        if 128 < k {
            let b = high_below(self.w2, k - 128);
            if b < 64 {
                return Some(Row((128 + b) as u8));
            }
        }
        if 64 < k {
            let b = high_below(self.w1, k - 64);
            if b < 64 {
                return Some(Row((64 + b) as u8));
            }
        }
        let b = high_below(self.w0, k);
        if b < 64 {
            return Some(Row(b as u8));
        }
        None
    }

    // Its rows, upward.
    pub fn iter(self) -> Rows
        ensures set { result.set ≡ self }
        ensures at { result.at ≡ 0 }
    {
        Rows { set: self, at: 0 }
    }

    // Its rows, downward.
    pub fn down(self) -> RowsDown
        ensures set { result.set ≡ self }
        ensures below { result.below ≡ 256 }
    {
        RowsDown {
            set: self,
            below: 256,
        }
    }

    pub fn first(self) -> Option<Row>
        ensures { result ≡ next_in (rows_of self) 0 }
    {
        self.next_from(0)
    }

    // The set has exactly one row.
    pub fn is_single(self) -> bool
        ensures { result ≡ is_single (rows_of self) }
    {
        match self.first() {
            Some(r) => self.without(r).is_empty(),
            None => false,
        }
    }
}
