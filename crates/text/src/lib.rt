// Bytes to words, lines and numbers; numbers and clauses to bytes.
#![tactic(auto)]

ghost use Rattle.std.specs.Prelude.{◌≡◌, ℕ, Bool, true, false, [], ◌∷◌, ◌++◌, ◌+◌, ◌*◌, ◌-◌, ◌≤◌, ◌<◌, ◌^◌, ◌==◌, min, length, drop, set, replicate};
ghost use Rattle.std.specs.List.{position};
ghost use Rattle.definition.specs.Text.{bytes, blank, digit, digits, literal_text, natural, number};
ghost use Rattle.definition.specs.Answer.{begins_with, space_or_tab};
ghost use Rattle.definition.specs.Log.{clause_text};
ghost use Rattle.theory_text.specs.Runs.{run_end};
ghost use Rattle.theory_text.specs.ClauseText.{literals_text};
ghost use Rattle.theory_text.specs.TextLines.{Trimmed};
ghost use Rattle.text.specs.Numbers.{all_digits, natural_class, number_class, with_sign};
ghost use Rattle.text.specs.Words.{Tests, word_at};
ghost use Rattle.text.specs.Lines.{LineSays};
ghost use Rattle.text.specs.Output.{Put};

// ---- bytes

// Whether a byte is a space or a tab, which part the words of a line.
#[tactic(auto, unfolding(definition::specs::Answer::space_or_tab, definition::specs::Text::is))]
pub fn is_space_or_tab(b: u8) -> bool
    ensures { result ≡ space_or_tab b }
{
    matches!(b, b' ' | b'\t')
}

// Whether a byte is a blank, which parts the words of a text: space, tab, CR or LF.
#[tactic(auto, unfolding(definition::specs::Answer::space_or_tab, definition::specs::Text::blank, definition::specs::Text::is))]
pub fn is_blank(b: u8) -> bool
    ensures { result ≡ blank b }
{
    is_space_or_tab(b) || b == b'\r' || b == b'\n'
}

// Whether a byte is a decimal digit.
#[tactic(auto, unfolding(definition::specs::Text::digit))]
pub fn is_digit(b: u8) -> bool
    ensures { result ≡ digit b }
{
    b.is_ascii_digit()
}

// ---- numbers

// Why a word is not read as a number.
#[derive(Clone, Copy, Debug, PartialEq, Eq)]
pub enum NumberError {
    // a number above what is asked for
    TooLarge,
    NotANumber,
}

// The value of a word of digits only; on the way it is cut off at 1,000,001.
fn digits_value(word: &[u8], most: u32) -> Result<u32, NumberError>
    requires { most ≤ 1_000_000 }
    ensures { result ≡ natural_class most (all_digits 0 word.now) }
{
    let mut value: u32 = 0;
    for b in word {
        if !is_digit(*b) {
            return Err(NumberError::NotANumber);
        }
        value = (value * 10 + u32::from(*b - b'0')).min(1_000_001);
    }
    if value <= most {
        Ok(value)
    } else {
        Err(NumberError::TooLarge)
    }
}

// The number that a word says: 0, or digits that begin with 1 to 9.
#[tactic(auto, using(crate::proofs::Numbers::natural_none, crate::proofs::Numbers::natural_zeros))]
fn natural_up_to(word: &[u8], most: u32) -> Result<u32, NumberError>
    requires { most ≤ 1_000_000 }
    ensures { result ≡ natural_class most (natural word.now) }
{
    match word {
        [] | [b'0', _, ..] => Err(NumberError::NotANumber),
        _ => digits_value(word, most),
    }
}

// The number without a sign that a word says, up to 1,000,000.
pub fn read_natural(word: &[u8]) -> Result<u32, NumberError>
    ensures { result ≡ natural_class 1_000_000 (natural word.now) }
{
    natural_up_to(word, 1_000_000)
}

// The number of a sign and what is read after it; 0 takes no sign.
fn signed_number(negative: bool, n: Result<u32, NumberError>) -> Result<i32, NumberError>
    ensures { result ≡ with_sign negative n }
{
    let v = n?;
    if negative && v == 0 {
        return Err(NumberError::NotANumber);
    }
    Ok(literals::signed(negative, v))
}

// The number that a word says, up to the absolute value of a log's highest variable.
pub fn read_number(word: &[u8]) -> Result<i32, NumberError>
    ensures { result ≡ number_class (number word.now) }
{
    match word {
        [b'-', digits @ ..] => signed_number(true, natural_up_to(digits, tables::LOG_REACH)),
        _ => signed_number(false, natural_up_to(word, tables::LOG_REACH)),
    }
}

// ---- words

// A word's start and the place past it.
#[derive(Clone, Copy, Debug, PartialEq, Eq)]
pub struct Word {
    pub start: usize,
    pub end: usize,
}

// The place past a run that starts at a place: of bytes that part words, or of others.
fn run_end<S: Fn(u8) -> bool>(text: &[u8], at: usize, separates: S, parting: bool) -> usize
    requires { S.IsAlwaysCallable separates }
    ensures { (p : ℕ → Bool) → Tests S.post separates p → result ≡ run_end p parting text.now at }
{
    for i in at..text.len() {
        if separates(text[i]) != parting {
            return i;
        }
    }
    text.len().max(at)
}

// The first word at a place or after it, by the test of what parts words.
fn word_from<S: Fn(u8) -> bool>(text: &[u8], at: usize, separates: S) -> Option<Word>
    requires { S.IsAlwaysCallable separates }
    ensures { (p : ℕ → Bool) → Tests S.post separates p → result ≡ word_at p text.now at }
{
    let start = run_end(text, at, &separates, true);
    let end = run_end(text, start, &separates, false);
    if start < end {
        Some(Word { start, end })
    } else {
        None
    }
}

// The first word of a text at a place or after it.
pub fn next_word(text: &[u8], at: usize) -> Option<Word>
    ensures { result ≡ word_at blank text.now at }
{
    word_from(text, at, is_blank)
}

// The first word of a line at a place or after it.
pub fn next_word_of_line(line: &[u8], at: usize) -> Option<Word>
    ensures { result ≡ word_at space_or_tab line.now at }
{
    word_from(line, at, is_space_or_tab)
}

// ---- lines

// A line of a text without its end, and the place past it.
#[derive(Clone, Copy, Debug, PartialEq, Eq)]
pub struct Line {
    pub start: usize,
    pub end: usize,
    pub next: usize,
}

// The place of a text's first LF.
fn newline(text: &[u8]) -> Option<usize>
    ensures { result ≡ position (λ b. b == 10) text.now }
{
    text.iter().position(|b| *b == b'\n')
}

// The end of a line that ends with LF, without a CR directly before it.
#[tactic(auto, using(theory_text::proofs::TextLines::trimmed_cr, theory_text::proofs::TextLines::trimmed_empty))]
fn without_cr(text: &[u8], start: usize, end: usize) -> usize
    requires { (start ≤ end) × (end ≤ length text.now) }
    ensures { Trimmed text.now start end result }
{
    if start == end {
        return end;
    }
    if text[end - 1] == b'\r' {
        return end - 1;
    }
    end
}

// The first line of the rest of a text.
pub fn next_line(text: &[u8], at: usize) -> Option<Line>
    ensures { LineSays text.now at result }
{
    if text.len() <= at {
        return None;
    }
    match newline(&text[at..]) {
        Some(n) => {
            let end = without_cr(text, at, at + n);
            Some(Line {
                start: at,
                end,
                next: at + n + 1,
            })
        }
        None => Some(Line {
            start: at,
            end: text.len(),
            next: text.len(),
        }),
    }
}

// Whether a line begins with some bytes.
pub fn begins(line: &[u8], prefix: &[u8]) -> bool
    ensures { result ≡ begins_with prefix.now line.now }
{
    line.starts_with(prefix)
}

// ---- output: a writer counts past the buffer's end and stores nothing there, so only the last caller asks whether all fitted

// Writes a byte.
pub fn put_byte(buf: &mut [u8], at: usize, b: u8) -> usize
    requires { at + 1 < 2 ^ 64 }
    ensures { Put buf.old at (b ∷ []) result buf.new }
{
    slices::put(buf, at, b);
    at + 1
}

// How many digits a number of at most five has, found by comparing.
#[tactic(auto, using(crate::proofs::FewDigits::one_digit, crate::proofs::FewDigits::two_digits, crate::proofs::FewDigits::three_digits, crate::proofs::FewDigits::four_digits, crate::proofs::FewDigits::five_digits))]
fn few_digits(n: u32) -> usize
    requires { n < 100000 }
    ensures { result ≡ length (digits n) }
{
    if n < 1000 {
        if n < 10 {
            return 1;
        }
        if n < 100 {
            return 2;
        }
        return 3;
    }
    if n < 10000 { 4 } else { 5 }
}

// How many digits a number has; variables of a log have at most five.
#[tactic(auto, using(crate::proofs::FewDigits::digits_by_power))]
fn decimal_length(n: u32) -> usize
    ensures { result ≡ length (digits n) }
{
    if n < 100000 {
        few_digits(n)
    } else {
        n.ilog10() as usize + 1
    }
}

// The same, found by dividing: a number that is written is counted so, as telling sizes may cost a share of writing at most.
fn digit_count(n: u32) -> usize
    ensures { result ≡ length (digits n) }
{
    let mut count: usize = 1;
    let mut m = n;
    while 10 <= m {
        m /= 10;
        count += 1;
    }
    count
}

// Writes a number in decimal, the last digit first.
#[tactic(auto, using(crate::proofs::Output::number_length))]
pub fn put_number(buf: &mut [u8], at: usize, n: u32) -> usize
    requires { at + 10 < 2 ^ 64 }
    ensures written { Put buf.old at (digits n) result buf.new }
    ensures within { result ≤ at + 10 }
{
    if n < 10 {
        return put_byte(buf, at, b'0' + n as u8);
    }
    let end = at + digit_count(n);
    let mut m = n;
    for k in (at + 1..end).rev() {
        slices::put(buf, k, b'0' + (m % 10) as u8);
        m /= 10;
    }
    slices::put(buf, at, b'0' + m as u8);
    end
}

// Writes a literal in decimal.
pub fn put_literal(buf: &mut [u8], at: usize, l: i32) -> usize
    requires { at + 11 < 2 ^ 64 }
    ensures written { Put buf.old at (literal_text l) result buf.new }
    ensures within { result ≤ at + 11 }
{
    let v = literals::variable(l);
    if literals::is_negative(l) {
        let a = put_byte(buf, at, b'-');
        put_number(buf, a, v)
    } else {
        put_number(buf, at, v)
    }
}

// Writes bytes.
pub fn put_text(buf: &mut [u8], at: usize, text: &[u8]) -> usize
    requires { at + length text.now < 2 ^ 64 }
    ensures { Put buf.old at text.now result buf.new }
{
    let mut end = at;
    for b in text {
        end = put_byte(buf, end, *b);
    }
    end
}

// ---- clauses

// How many bytes a literal and a blank take.
#[tactic(auto, using(crate::proofs::Output::number_length))]
fn item_length(l: i32) -> usize
    ensures { result ≡ length (literal_text l ++ bytes " ") }
{
    let n = decimal_length(literals::variable(l)) + 1;
    if literals::is_negative(l) { n + 1 } else { n }
}

// Writes a literal and a blank; past the buffer's end they are only counted.
#[tactic(auto, using(crate::proofs::Writing::item_few))]
pub fn put_item(buf: &mut [u8], at: usize, l: i32) -> usize
    requires { at + 12 < 2 ^ 64 }
    ensures written { Put buf.old at (literal_text l ++ bytes " ") result buf.new }
    ensures within { result ≤ at + 12 }
{
    if buf.len() <= at {
        return at + item_length(l);
    }
    let a = put_literal(buf, at, l);
    put_byte(buf, a, b' ')
}

// Writes literals, a blank after each.
fn put_items(buf: &mut [u8], at: usize, clause: &[i32]) -> usize
    requires { at + 12 * length clause.now < 2 ^ 64 }
    ensures written { Put buf.old at (literals_text clause.now) result buf.new }
    ensures within { result ≤ at + 12 * length clause.now }
{
    let mut end = at;
    for l in clause {
        end = put_item(buf, end, *l);
    }
    end
}

// Writes a clause: its literals and 0, single blanks, LF after.
pub fn put_clause(buf: &mut [u8], at: usize, clause: &[i32]) -> usize
    requires { at + 12 * length clause.now + 2 < 2 ^ 64 }
    ensures written { Put buf.old at (clause_text clause.now) result buf.new }
    ensures within { result ≤ at + 12 * length clause.now + 2 }
{
    let a = put_items(buf, at, clause);
    let b = put_byte(buf, a, b'0');
    put_byte(buf, b, b'\n')
}

// ---- a buffer made zero
