// The text that the program prints, put into a lent buffer piece by piece. Each function is handed the place to begin
// at and hands back the place after what it put.
ghost use Rattle.std.specs.Prelude.{◌≡◌, [], ◌∷◌, ◌+◌, ◌*◌, ◌%◌, ◌≤◌, length, take};
ghost use Rattle.ending.specs.Text.{digits, decimal, line, steps, worths, refusal};
ghost use Rattle.ending.specs.Put.{Put, Listed, answer_text};

use pack::refusal::Refusal;
use planner::Ending;

// A byte.
pub fn put(text: &mut [u8], at: usize, byte: u8) -> usize
    requires { at + 1 ≤ length text.old }
    ensures { Put (byte ∷ []) text.old at text.new result }
{
    text[at] = byte;
    at + 1
}

// A word, byte by byte.
pub fn put_word(text: &mut [u8], at: usize, word: &[u8]) -> usize
    requires { at + length word.now ≤ length text.old }
    ensures { Put word.now text.old at text.new result }
{
    let end = at + word.len();
    text[at..end].copy_from_slice(word);
    end
}

// The last digit of a number.
fn digit(n: usize) -> u8
    ensures { result ≡ 48 + n % 10 }
{
    48 + (n % 10) as u8
}

// The digits of a number, the last so many of them.
pub fn put_digits(text: &mut [u8], at: usize, n: usize, most: usize) -> usize
    requires { at + most ≤ length text.old }
    ensures { Put (digits most n) text.old at text.new result }
{
    if most == 0 {
        return at;
    }
    if n < 10 {
        return put(text, at, digit(n));
    }
    let last = put_digits(text, at, n / 10, most - 1);
    put(text, last, digit(n))
}

// A number.
pub fn put_number(text: &mut [u8], at: usize, n: usize) -> usize
    requires { at + 20 ≤ length text.old }
    ensures { Put (decimal n) text.old at text.new result × (result ≤ at + 20) }
{
    put_digits(text, at, n, 20)
}

// A step's line: its place and its action.
pub fn put_step(text: &mut [u8], at: usize, place: usize, action: usize) -> usize
    requires { at + 42 ≤ length text.old }
    ensures { Put (line (decimal place) (decimal action ∷ [])) text.old at text.new result
        × (result ≤ at + 42) }
{
    let mut end = put_number(text, at, place);
    end = put(text, end, b' ');
    end = put_number(text, end, action);
    put(text, end, b'\n')
}

// The lines of the first so many steps of a list.
pub fn put_steps(text: &mut [u8], list: &[u8], count: usize) -> usize
    requires { (count ≤ length list.now) × (count * 42 ≤ length text.old) }
    ensures { Put (steps 1 (take count list.now)) text.old 0 text.new result
        × (result ≤ count * 42) }
{
    let mut end = 0;
    for i in 0..count {
        end = put_step(text, end, i + 1, usize::from(list[i]));
    }
    end
}

// The author's line: the utility ("worth") before and after.
pub fn put_worths(text: &mut [u8], at: usize, before: usize, after: usize) -> usize
    requires { at + 49 ≤ length text.old }
    ensures { Put (worths before after) text.old at text.new result × (result ≤ at + 49) }
{
    let mut end = put_word(text, at, b"author ");
    end = put_number(text, end, before);
    end = put(text, end, b' ');
    end = put_number(text, end, after);
    put(text, end, b'\n')
}

// The line of a refusal.
pub fn put_refusal(text: &mut [u8], number: usize, place: usize) -> usize
    requires { 53 ≤ length text.old }
    ensures { Put (refusal number place) text.old 0 text.new result × (result ≤ 53) }
{
    let mut end = put_word(text, 0, b"refused ");
    end = put_number(text, end, number);
    end = put_word(text, end, b" at ");
    end = put_number(text, end, place);
    put(text, end, b'\n')
}

// The text of what Search handed back and the list that it wrote.
pub fn put_answer(text: &mut [u8], answer: Result<Ending, Refusal>, list: &[u8]) -> usize
    requires listed { Listed answer list.now }
    requires in_bounds { 385 ≤ length text.old }
    ensures { Put (answer_text answer list.now) text.old 0 text.new result
        × (result ≤ 385) }
{
    match answer {
        Ok(ending) => {
            let end = put_steps(text, list, ending.length);
            put_worths(text, end, ending.before, ending.after)
        }
        Err(why) => put_refusal(text, usize::from(why.number()), why.place()),
    }
}
