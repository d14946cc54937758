// The program `ending`: a pack on standard input, its shortest ending on standard output, for T 4, K 3 and E 2.
#![tactic(auto)]

mod text;

ghost use Rattle.std.specs.Prelude.{◌≡◌, ◌≤◌, length};
ghost use Rattle.ending.specs.Put.{Printed};

use planner::limits::{Foresight, Nesting, Story};
use planner::search::search;
use std::io::{Read, Stdin, Write};
use text::put_answer;

// What is printed of a pack, put at the start of the text.
fn ending(pack: &[u8], list: &mut [u8], work: &mut [u8], text: &mut [u8]) -> usize
    requires list_len { length list.old ≡ 8 }
    requires work_len { 49152 ≤ length work.old }
    requires text_len { 385 ≤ length text.old }
    ensures { Printed pack.now text.new result }
{
    let answer = search(pack, Story(4), Foresight(3), Nesting(2), list, work);
    put_answer(text, answer, list)
}

// Reads until the buffer is full, the input ends or a read fails, and hands back how many bytes it put at the start.
fn read_full(input: &mut Stdin, buffer: &mut [u8]) -> usize
    ensures { result ≤ length buffer.new }
{
    let mut done = 0;
    // How much a read gives is known only then.
    while done < buffer.len() {
        let count = read_some(input, &mut buffer[done..]);
        if count == 0 {
            break;
        }
        done += count;
    }
    done
}

// One read. One that fails counts as the end of the input.
fn read_some(input: &mut Stdin, buffer: &mut [u8]) -> usize
    ensures { result ≤ length buffer.new }
{
    match input.read(buffer) {
        Ok(count) => count,
        Err(_) => 0,
    }
}

// Reads on, and says whether anything came.
fn more(input: &mut Stdin) -> bool {
    let mut rest = [0u8; 4096];
    read_some(input, &mut rest) > 0
}

// Reads to the input's end. A proved loop has to end, and nothing says that the input does: it has more turns than any
// run takes.
fn drain(input: &mut Stdin) {
    for _ in 0..u64::MAX {
        if !more(input) {
            break;
        }
    }
}

// One byte more than a pack may have is enough to see that it has too many. A write that fails ends the output.
fn main(rt: HostRuntime) {
    let mut input = rt.stdin();
    let mut pack = [0u8; 8193];
    let length = read_full(&mut input, &mut pack);
    if length == 8193 {
        drain(&mut input);
    }
    let mut list = [0u8; 8];
    let mut work = [0u8; 49152];
    let mut text = [0u8; 385];
    let end = ending(&pack[..length], &mut list, &mut work, &mut text);
    let _ = rt.stdout().write_all(&text[..end]);
}
