// Proof lines: written into a log; the kept lines of a log are read into a store.
#![tactic(auto)]

ghost use Rattle.std.specs.Prelude.{◌≡◌, [], ◌+◌, ◌*◌, ◌≤◌, ◌<◌, ◌^◌, length, drop, position};
ghost use Rattle.definition.specs.Text.{bytes, same_bytes, number};
ghost use Rattle.definition.specs.LogReading.{read_log};
ghost use Rattle.definition.specs.Log.{log_line_text};
ghost use Rattle.text.specs.Numbers.{number_class};
ghost use Rattle.text.specs.Output.{Put};
ghost use Rattle.theory_text.specs.LogLines.{first_read, rest_read};
ghost use Rattle.tables.specs.Sizes.{log_size};
ghost use Rattle.tables.specs.Stamps.{Fresh, AtMost};
ghost use Rattle.drat.specs.Lines.{line_clause, line_said};
ghost use Rattle.drat.specs.Loaded.{line_header};
ghost use Rattle.drat.specs.Reading.{stops, literal_said, line_word, ClauseReads, LineReads, LogReads};

use refusals::Refusal;
use tables::Marked;

// ---- writing

// A proof line: a clause added, or one deleted.
#[derive(Clone, Copy, Debug, PartialEq, Eq)]
pub enum ProofLine<'a> {
    Addition(&'a [i32]),
    Deletion(&'a [i32]),
}

// Writes a proof line from the start of a buffer: an added clause, or a deleted one with `d` before.
#[tactic(auto, using(crate::proofs::Writing::addition_size, crate::proofs::Writing::deletion_size))]
pub fn write_line(buf: &mut [u8], line: ProofLine) -> usize
    requires { 12 * length (line_clause line) + 4 < 2 ^ 64 }
    ensures written { Put buf.old 0 (log_line_text (line_said line.entry)) result buf.new }
    ensures within { result ≤ 12 * length (line_clause line.entry) + 4 }
{
    match line {
        ProofLine::Addition(clause) => text::put_clause(buf, 0, clause),
        ProofLine::Deletion(clause) => {
            let a = text::put_byte(buf, 0, b'd');
            let b = text::put_byte(buf, a, b' ');
            text::put_clause(buf, b, clause)
        }
    }
}

// Writes a proof line into what is left of the log's buffer.
pub fn log_line(log: &mut [u8], at: usize, line: ProofLine) -> usize
    requires { at + 12 * length (line_clause line) + 4 < 2 ^ 64 }
    ensures written { Put log.old at (log_line_text (line_said line.entry)) result log.new }
    ensures within { result ≤ at + 12 * length (line_clause line.entry) + 4 }
{
    let start = at.min(log.len());
    at + write_line(&mut log[start..], line)
}

// ---- reading kept lines

// A word of a line, and the place past it and the byte after it.
#[derive(Clone, Copy, Debug, PartialEq, Eq)]
enum LineWord {
    // a literal of a variable up to 70,000, a blank after it
    Literal { next: usize, literal: i32 },
    // the 0, LF after it
    End { next: usize },
}

// The literal that a word with a blank after it says.
fn literal_word(word: &[u8]) -> Option<i32>
    ensures { result ≡ literal_said (number_class (number word.now)) }
{
    text::read_number(word).ok().filter(|l| *l != 0)
}

// Whether a word is 0.
#[tactic(auto, using(crate::proofs::Words::zero_word))]
fn is_zero_word(word: &[u8]) -> bool
    ensures { result ≡ same_bytes word.now (bytes "0") }
{
    word == b"0".as_slice()
}

// The size of the word at the start of what is left of a line, which a blank or LF ends.
fn word_size(rest: &[u8]) -> Option<usize>
    ensures { result ≡ position stops rest.now }
{
    rest.iter().position(|b| matches!(*b, b' ' | b'\n'))
}

// The word at a place of a text.
#[tactic(auto, unfolding(crate::specs::Reading::line_word))]
fn read_word(text: &[u8], at: usize) -> Option<LineWord>
    requires { at ≤ length text.now }
    ensures { result ≡ line_word text.now at }
{
    let end = at + word_size(&text[at..])?;
    let word = &text[at..end];
    let next = end + 1;
    if text[end] == b' ' {
        let literal = literal_word(word)?;
        Some(LineWord::Literal { next, literal })
    } else if is_zero_word(word) {
        Some(LineWord::End { next })
    } else {
        None
    }
}

// A line read: the place past it, how many literals, the highest variable.
#[derive(Clone, Copy, Debug, PartialEq, Eq)]
struct LineRead {
    next: usize,
    count: usize,
    highest: u32,
}

// Reads the clause of a line that starts at a place, each literal looked up in a table of stamps; the literals and their number are stored.
fn read_clause(
    text: &[u8],
    from: usize,
    seen: &mut [u32],
    stamp: u32,
    store: &mut [i32],
    to: usize,
) -> Option<LineRead>
    requires log_size_in_bounds { log_size ≤ length seen.old }
    requires fresh { Fresh seen.old stamp }
    requires from_in_bounds { from ≤ length text.now }
    requires text_bound { to + length text.now ≤ 2 ^ 64 }
    ensures read { ClauseReads (rest_read from [] (drop from text.now)) result store.old to store.new }
    ensures table { AtMost seen.new stamp }
{
    let mut at = from;
    let mut count: usize = 0;
    let mut highest: u32 = 0;
    // the words of a line end where its `0` stands, and each word says where the next begins
    loop {
        let word = read_word(text, at)?;
        match word {
            LineWord::Literal { next, literal } => match tables::mark(seen, stamp, literal) {
                Marked::New => {
                    slices::put(store, to + count, literal);
                    at = next;
                    count += 1;
                    highest = highest.max(literals::variable(literal));
                }
                Marked::Repeated | Marked::Opposed => return None,
            },
            LineWord::End { next } => {
                slices::put(store, to + count, literals::header(count));
                return Some(LineRead {
                    next,
                    count,
                    highest,
                });
            }
        }
    }
}

// The header of a line, by whether its text says that it is a deletion.
fn line_header(is_deletion: bool, count: usize) -> i32
    ensures { result ≡ line_header is_deletion count }
{
    let h = literals::header(count);
    if is_deletion { literals::flipped(h) } else { h }
}

// Reads the first line of a text, each literal looked up in a table of stamps; the line's entry is stored.
fn read_line(
    text: &[u8],
    seen: &mut [u32],
    stamp: u32,
    store: &mut [i32],
    to: usize,
) -> Option<LineRead>
    requires log_size_in_bounds { log_size ≤ length seen.old }
    requires fresh { Fresh seen.old stamp }
    requires text_nonzero { (0 < length text.now) × (to + length text.now < 2 ^ 64) }
    ensures read { LineReads (first_read text.now) result store.old to store.new }
    ensures table { AtMost seen.new stamp }
{
    let deletes = text.starts_with(b"d ");
    let from = if deletes { 2 } else { 0 };
    let line = read_clause(text, from, seen, stamp, store, to + 1)?;
    slices::put(store, to, line_header(deletes, line.count));
    Some(line)
}

// The kept lines of a log.
#[derive(Clone, Copy, Debug, PartialEq, Eq)]
pub struct KeptLines {
    // how many numbers, zeros counted
    pub numbers: usize,
    // the highest variable
    pub highest: u32,
    // how many elements the lines' entries fill
    pub filled: usize,
}

// Reads the kept lines of a log, each with a stamp of its own; their entries are stored from the store's start on, as far as it reaches.
pub fn read_log(log: &[u8], kept: usize, store: &mut [i32]) -> Result<KeptLines, Refusal>
    ensures { LogReads (read_log kept log.now) result store.old 0 store.new }
{
    let mut seen = [0u32; tables::LOG_SIZE];
    let mut stamp: u32 = 1;
    let mut at = 0;
    let mut filled: usize = 0;
    let mut highest: u32 = 0;
    for _ in 0..kept {
        if log.len() <= at {
            return Err(Refusal::TooFewLines);
        }
        let Some(line) = read_line(&log[at..], &mut seen, stamp, store, filled) else {
            return Err(Refusal::BadLogLine);
        };
        stamp = tables::next_stamp(&mut seen, stamp);
        at += line.next;
        filled += line.count + 2;
        highest = highest.max(line.highest);
    }
    Ok(KeptLines {
        numbers: filled - kept,
        highest,
        filled,
    })
}

// Reads the kept lines of a log; their entries are stored behind what fills the store up to a place, which may lie past its end.
pub fn read_log_behind(
    log: &[u8],
    kept: usize,
    store: &mut [i32],
    to: usize,
) -> Result<KeptLines, Refusal>
    ensures { LogReads (read_log kept log.now) result store.old to store.new }
{
    let start = to.min(store.len());
    read_log(log, kept, &mut store[start..])
}
