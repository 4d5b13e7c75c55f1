// Names noted one behind the other, by place and length, each found in about the time of reading it. A new name stands in the tree of its key, which is ten bits of a hash of its bytes; from name to name the way goes on by
// the other bits of the hash, and past these by the bits of the name. So no name is deeper than it has bits and those of the hash, whatever the others are. The place that they are noted in ends with one number for each
// key, the tree's root, and before these, backwards, with three for each name: the roots of the two trees below it, and a tag, the hash's highest bits, by which most others are told from it unread. A root is the name's
// number and one; 0 tells of none.
ghost use Rattle.std.specs.Prelude.{◌≡◌, ◌+◌, ◌*◌, ◌-◌, ◌/◌, ◌≤◌, ◌<◌, length, get_or, take, drop};
ghost use Rattle.definition.specs.Rows.{same};
ghost use Rattle.reading.specs.Faults.{is_among};
ghost use Rattle.reading.specs.Content.{place_of};
ghost use Rattle.values.specs.Ids.{id_at, ids_from, Noted};
ghost use Rattle.values.specs.Trees.{hash_from, side_of};
ghost use Rattle.values.specs.Places.{IdRoom, NodeRoom};
ghost use Rattle.values.specs.Spots.{Planted, Free};
ghost use Rattle.values.specs.Notes.{Forgotten, EnterRoom, entered, NoteRoom, NotedMore};

use names::equal;

const KEYS: usize = 1024;

pub fn number_at(numbers: &[u16], i: usize) -> usize
    requires { i < length numbers.now }
    ensures { result ≡ get_or numbers.now i 0 }
{
    usize::from(numbers[i])
}

// Any function of the bytes serves: names of different hashes differ. 48 bits, so that many names of one hash are not easily made.
fn hash_of(name: &[u8]) -> usize
    ensures { (result ≡ hash_from 0 name.now) × (result < 281474976710656) }
{
    let mut hash = 0;
    for &b in name {
        hash = (hash * 40503 + usize::from(b)) % 281474976710656;
    }
    hash
}

// Past the last byte 0, which is in no name.
fn byte_at(name: &[u8], i: usize) -> usize
    ensures { result ≡ get_or name.now i 0 }
{
    match name.get(i) {
        Some(&b) => usize::from(b),
        None => 0,
    }
}

// The way on from a name so deep in the name's tree, 0 or 1: by the 38 bits of the hash that are no key, then by those of the bytes.
fn side_of(name: &[u8], hash: usize, depth: usize) -> usize
    ensures { (result ≡ side_of name.now hash depth) × (result < 2) }
{
    if depth < 38 {
        return (hash >> (depth + 10)) % 2;
    }
    (byte_at(name, (depth - 38) / 8) >> ((depth - 38) % 8)) % 2
}

// Is the name what stands in the text between two offsets. Most names differ in length or in their last byte, so these are asked first.
fn is_at(text: &[u8], at: usize, to: usize, name: &[u8]) -> bool
    requires { (at ≤ to) × (to ≤ length text.now) }
    ensures { result ≡ same name.now (take (to - at) (drop at text.now)) }
{
    let long = to - at;
    if long != name.len() {
        return false;
    }
    if 0 < long {
        if text[to - 1] != name[long - 1] {
            return false;
        }
    }
    equal(name, &text[at..to])
}

// Is it the name noted as number k.
fn is_name(text: &[u8], ids: &[u16], k: usize, name: &[u8]) -> bool
    requires { IdRoom text.now ids.now k }
    ensures { result ≡ same name.now (id_at text.now ids.now k) }
{
    let at = number_at(ids, k * 2);
    let long = number_at(ids, k * 2 + 1);
    let to = at + long;
    is_at(text, at, to, name)
}

// Is it the name that is the root x. Most others have another tag.
fn is_root(text: &[u8], ids: &[u16], x: usize, name: &[u8], tag: usize) -> bool
    requires { NodeRoom text.now ids.now name.now x tag }
    ensures { result ≡ same name.now (id_at text.now ids.now (x - 1)) }
{
    let there = number_at(ids, ids.len() - KEYS - x * 3 + 2);
    if there != tag {
        return false;
    }
    is_name(text, ids, x - 1, name)
}

// Which of n names the name is: the first of those that are the same; n where it is none of them.
pub fn place_of(text: &[u8], ids: &[u16], n: usize, name: &[u8]) -> usize
    requires { Noted text.now ids.now n }
    ensures { result ≡ place_of name.now (ids_from text.now ids.now n 0) }
{
    let end = ids.len() - KEYS;
    let hash = hash_of(name);
    let tag = hash / 4294967296;
    let mut x = number_at(ids, end + hash % KEYS);
    let mut depth = 0;
    // Kept: a way down a tree, here and in spot_of, which no `for` over a range goes.
    while 0 < x {
        if is_root(text, ids, x, name, tag) {
            return (x - 1).min(n);
        }
        let side = side_of(name, hash, depth);
        x = number_at(ids, end - x * 3 + side);
        depth += 1;
    }
    n
}

// Is the name one of the n.
pub fn is_id(text: &[u8], ids: &[u16], n: usize, name: &[u8]) -> bool
    requires { Noted text.now ids.now n }
    ensures { result ≡ is_among name.now (ids_from text.now ids.now n 0) }
{
    place_of(text, ids, n, name) < n
}

// No name is noted.
pub fn forget(ids: &mut [u16])
    requires { 1024 ≤ length ids.old }
    ensures { Forgotten ids.old ids.new }
{
    let end = ids.len() - KEYS;
    ids[end..].fill(0);
}

// Where the root of a new name is to be written: where the name's way ends.
fn spot_of(ids: &[u16], name: &[u8], hash: usize) -> usize
    requires { Planted ids.now × (hash ≡ hash_from 0 name.now) }
    ensures { Free ids.now name.now result }
{
    let end = ids.len() - KEYS;
    let mut spot = end + hash % KEYS;
    let mut x = number_at(ids, spot);
    let mut depth = 0;
    while 0 < x {
        let side = side_of(name, hash, depth);
        spot = end - x * 3 + side;
        x = number_at(ids, spot);
        depth += 1;
    }
    spot
}

// The numbers of a name behind n others: where it begins, how long it is, two empty trees and its tag.
fn enter(ids: &mut [u16], n: usize, at: usize, long: usize, tag: usize)
    requires { EnterRoom ids.old n at long tag }
    ensures { ids.new ≡ entered ids.old n at long tag }
{
    let own = ids.len() - KEYS - (n + 1) * 3;
    ids[n * 2] = at as u16;
    ids[n * 2 + 1] = long as u16;
    ids[own] = 0;
    ids[own + 1] = 0;
    ids[own + 2] = tag as u16;
}

// The name behind the n that are noted, of which `place` is the first that is the same.
pub fn note(text: &[u8], ids: &mut [u16], n: usize, at: usize, to: usize, place: usize) -> usize
    requires { NoteRoom text.now ids.old n at to place }
    ensures { NotedMore text.now ids.old ids.new n at to result }
{
    let hash = hash_of(&text[at..to]);
    let spot = spot_of(ids, &text[at..to], hash);
    enter(ids, n, at, to - at, hash / 4294967296);
    if place < n {
        return n + 1;
    }
    ids[spot] = (n + 1) as u16;
    n + 1
}
