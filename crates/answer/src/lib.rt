// A solver's answer read into a table, and an assignment written as a line.
#![tactic(auto)]

ghost use Rattle.std.specs.Prelude.{◌≡◌, ◌+◌, ◌-◌, ◌≤◌, ◌<◌, ◌^◌, length, get_or, drop};
ghost use Rattle.definition.specs.Checked.{through};
ghost use Rattle.definition.specs.Text.{bytes, same_bytes, words_by};
ghost use Rattle.definition.specs.Assignments.{true_in, has_true};
ghost use Rattle.definition.specs.Answer.{begins_with, space_or_tab, read_answer_word, read_answer_line, read_answer};
ghost use Rattle.definition.specs.Calls.{answer_text};
ghost use Rattle.text.specs.Output.{Put};
ghost use Rattle.tables.specs.Sizes.{log_reach};
ghost use Rattle.answer.specs.Table.{entry_of, marked, naming};
ghost use Rattle.answer.specs.Output.{value_text, values_text};
ghost use Rattle.answer.specs.Reading.{open_at, read_literal, Steps, StepsOpen, ReadAs, Ends};

use refusals::Refusal;
use text::NumberError;

// How many entries a table of values has: one for each variable of a log, and one for 0.
pub const VALUES: usize = 70001;

// ---- what a line is

// Whether a line begins with `c`.
fn is_comment(line: &[u8]) -> bool
    ensures { result ≡ begins_with (bytes "c") line.now }
{
    text::begins(line, b"c")
}

// Whether a line begins with `v` and a blank.
fn is_values(line: &[u8]) -> bool
    ensures { result ≡ begins_with (bytes "v ") line.now }
{
    text::begins(line, b"v ")
}

// Whether a line is the `s` line.
fn is_status(line: &[u8]) -> bool
    ensures { result ≡ same_bytes line.now (bytes "s SATISFIABLE") }
{
    line == b"s SATISFIABLE".as_slice()
}

// ---- a table of the literals named: an entry for each variable, 0 not named, 1 named true, 2 named false

// The entry of a variable; past the table's end no variable is named.
fn entry_at(marks: &[u8], v: u32) -> u8
    ensures { result ≡ get_or marks.now v 0 }
{
    marks.get(v as usize).copied().unwrap_or(0)
}

// The entry that names a literal.
fn entry_of(l: i32) -> u8
    ensures { result ≡ entry_of l }
{
    if literals::is_negative(l) { 2 } else { 1 }
}

// Makes a literal true, where the table has its variable.
pub fn make_true(marks: &mut [u8], l: i32)
    ensures { marks.new ≡ naming l marks.old }
{
    slices::put(marks, literals::variable(l) as usize, entry_of(l));
}

// Whether a literal is true.
fn true_literal(marks: &[u8], l: i32) -> bool
    ensures { result ≡ true_in (marked marks.now) l }
{
    let named_true = entry_at(marks, literals::variable(l)) == 1;
    named_true != literals::is_negative(l)
}

// Whether a clause has a true literal.
pub fn has_true(marks: &[u8], clause: &[i32]) -> bool
    ensures { result ≡ has_true (marked marks.now) clause.now }
{
    clause.iter().any(|l| true_literal(marks, *l))
}

// ---- reading an answer

// How far an answer is read: nothing yet, the `s` line, the closing 0.
#[derive(Clone, Copy, Debug, PartialEq, Eq)]
enum State {
    Waiting,
    Open,
    Closed,
}

// Reads a number of a `v ` line before the closing 0.
fn read_literal(l: i32, x: u32, marks: &mut [u8]) -> Result<State, Refusal>
    requires { x < length marks.old }
    ensures { StepsOpen (λ c. read_literal x c l) marks.old result marks.new }
{
    let v = literals::variable(l);
    let named = entry_at(marks, v);
    if v == 0 {
        return Ok(State::Closed);
    }
    if x < v {
        return Err(Refusal::UnknownVariable);
    }
    if 0 < named {
        return Err(Refusal::NamedTwice);
    }
    make_true(marks, l);
    Ok(State::Open)
}

// Reads a word of a `v ` line before the closing 0.
fn read_open_word(word: &[u8], x: u32, marks: &mut [u8]) -> Result<State, Refusal>
    requires { (x ≤ log_reach) × (x < length marks.old) }
    ensures { StepsOpen (λ c. read_answer_word x (open_at c) word.now) marks.old result marks.new }
{
    match text::read_number(word) {
        Ok(l) => read_literal(l, x, marks),
        Err(NumberError::TooLarge) => Err(Refusal::UnknownVariable),
        Err(NumberError::NotANumber) => Err(Refusal::BadLayout),
    }
}

// Reads a word of a `v ` line.
fn read_word(state: State, word: &[u8], x: u32, marks: &mut [u8]) -> Result<State, Refusal>
    requires { (x ≤ log_reach) × (x < length marks.old) }
    ensures { Steps (λ a. read_answer_word x a word.now) state marks.old result marks.new }
{
    match state {
        State::Waiting | State::Open => read_open_word(word, x, marks),
        State::Closed => Err(Refusal::BadLayout),
    }
}

// Reads a `v ` line after the `s` line and before the closing 0, word by word.
fn read_values(line: &[u8], x: u32, marks: &mut [u8]) -> Result<State, Refusal>
    requires { (x ≤ log_reach) × (x < length marks.old) }
    ensures { StepsOpen (λ c. through (read_answer_word x) (open_at c) (words_by space_or_tab (drop 2 line.now))) marks.old result marks.new }
{
    let mut state = State::Open;
    let mut at: usize = 2;
    // where a word ends shows only once it is found
    while let Some(word) = text::next_word_of_line(line, at) {
        state = read_word(state, &line[word.start..word.end], x, marks)?;
        at = word.end;
    }
    Ok(state)
}

// Reads a line of an answer.
fn read_line(state: State, line: &[u8], x: u32, marks: &mut [u8]) -> Result<State, Refusal>
    requires { (x ≤ log_reach) × (x < length marks.old) }
    ensures { Steps (λ a. read_answer_line x a line.now) state marks.old result marks.new }
{
    if is_comment(line) {
        return Ok(state);
    }
    match state {
        State::Waiting if is_status(line) => Ok(State::Open),
        State::Open if is_values(line) => read_values(line, x, marks),
        _ => Err(Refusal::BadLayout),
    }
}

// The outcome at the text's end: the closing 0 must have come.
fn outcome(state: State) -> Result<(), Refusal>
    ensures { Ends state result }
{
    match state {
        State::Waiting => Err(Refusal::BadLayout),
        State::Open => Err(Refusal::BadLayout),
        State::Closed => Ok(()),
    }
}

// Reads an answer with variables up to x into a table.
pub fn read_answer(text: &[u8], x: u32, marks: &mut [u8]) -> Result<(), Refusal>
    requires { (x ≤ log_reach) × (x < length marks.old) }
    ensures { ReadAs (read_answer x text.now) result marks.new }
{
    marks.fill(0);
    let mut state = State::Waiting;
    let mut at: usize = 0;
    // where a line ends shows only once it is found
    while let Some(line) = text::next_line(text, at) {
        state = read_line(state, &text[line.start..line.end], x, marks)?;
        at = line.next;
    }
    outcome(state)
}

// ---- the line of an assignment

// Writes a blank and the true literal of a variable.
fn put_value(buf: &mut [u8], at: usize, i: u32, marks: &[u8]) -> usize
    requires { (at + 12 < 2 ^ 64) × (i < 2 ^ 31) }
    ensures { Put buf.old at (value_text (marked marks.now) i) result buf.new }
{
    let is_true = entry_at(marks, i) == 1;
    let l = literals::signed(!is_true, i);
    let a = text::put_byte(buf, at, b' ');
    text::put_literal(buf, a, l)
}

// Writes the true literals of the variables 1 to v, a blank before each.
fn put_values(buf: &mut [u8], at: usize, v: u32, marks: &[u8]) -> usize
    requires { (at < 2 ^ 32) × (v < 2 ^ 31) }
    ensures { Put buf.old at (values_text (marked marks.now) v) result buf.new }
{
    let mut a = at;
    for i in 0..v {
        a = put_value(buf, a, i + 1, marks);
    }
    a
}

// Writes the line of an assignment for the variables 1 to v.
pub fn write_answer(buf: &mut [u8], v: u32, marks: &[u8]) -> usize
    requires { v < 2 ^ 31 }
    ensures { Put buf.old 0 (answer_text v (marked marks.now)) result buf.new }
{
    let a = text::put_byte(buf, 0, b'v');
    let b = put_values(buf, a, v, marks);
    text::put_text(buf, b, b" 0\n")
}
