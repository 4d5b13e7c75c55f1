// Runs each function of `names`, and the one pass of `onepass`, over the cases of standard input and prints what it answers. A line of the input is a letter, a space, a word, and
// for some a space and another word; a word may be empty. A mark is 1 for yes, 0 for no.
//   b NAME           every byte value at each place of the name: for each test and each place a line of 256 marks
//   v NAME           the same of the functions that make bytes, see `digest_made`: a line of 256 numbers
//   t NAME           the slot of the name with a stray byte at each of its 64 places, see `show_strays`
//   l UNIT TAIL      names of 0 to 70 bytes of the unit, over and over, and the tail behind them: for each test a line of 71 marks
//   s UNIT           such names without a tail in slots, see `show_slots`
//   m D E            the marks of the descriptor on the event and of the two compared, and the descriptor without its ".*"
//   p D E            every byte value at each place of the descriptor, then of the event: for each place a line of 256 marks, matched and compared
//   q UNIT TAIL      names of 0 to 70 bytes of the unit with the tail behind them as descriptors on those without: a line of 71 marks a descriptor,
//                    then the same compared
//   w LETTERS MORE   every word of up to four of the letters as a descriptor on every word of up to four of the others: a line of marks a descriptor
//   e LETTERS MORE   the same words compared
//   f D D D D E      which of four descriptors match the event, in one pass: a mark for each, and one for any of them
//   o LETTERS MORE   every word of up to three of the letters beside every such word as descriptors on every word of up to three of the others, in one
//                    pass: a line a pair, see `mark_two`
#![tactic(auto)]

use lines::{put, read_whole};
use pairs::{each_changed_pair, each_length_of_pair, each_word, pair};
use reading::{after, find};
use several::{each_two, four};
use single::{FUNCTIONS, TESTS, each_length, each_place};
use slotted::{each_slot, show_strays};
use std::io;

mod pairs;
mod printing;
mod reading;
mod several;
mod single;
mod slotted;

// The most bytes that are read.
const TEXT: usize = 65536;

fn run_line(rt: &impl Print, line: &[u8]) -> io::Result<()> {
    let [case, _, rest @ ..] = line else {
        return Ok(());
    };
    let k = find(rest, b' ');
    let one = &rest[..k];
    let two = after(rest, k);
    match *case {
        b'b' => each_place(rt, 0, TESTS, one),
        b'v' => each_place(rt, TESTS, FUNCTIONS, one),
        b't' => show_strays(rt, one),
        b'l' => each_length(rt, one, two),
        b's' => each_slot(rt, one),
        b'm' => pair(rt, one, two),
        b'p' => each_changed_pair(rt, one, two),
        b'q' => each_length_of_pair(rt, one, two),
        b'w' => each_word(rt, false, one, two),
        b'e' => each_word(rt, true, one, two),
        b'f' => four(rt, rest),
        b'o' => each_two(rt, one, two),
        _ => put(rt, b'?'),
    }
}

fn run_all(rt: &impl Print, text: &[u8]) -> io::Result<()> {
    for line in text.split(|b| *b == b'\n') {
        run_line(rt, line)?;
    }
    Ok(())
}

fn main(rt: HostRuntime) -> io::Result<()> {
    let mut text = [0u8; TEXT];
    let len = read_whole(&mut rt.reader(), &mut text)?;
    run_all(&rt, &text[..len])
}
