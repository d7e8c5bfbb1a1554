// DIMACS CNF: a formula read into a store, and written from one.
#![tactic(auto)]

ghost use Rattle.std.specs.Prelude.{◌≡◌, List, [], ◌+◌, ◌*◌, ◌≤◌, ◌<◌, ◌^◌, ℤ, length, drop};
ghost use Rattle.std.specs.List.{position};
ghost use Rattle.definition.specs.Lists.{for_each};
ghost use Rattle.definition.specs.Literals.{Clause};
ghost use Rattle.definition.specs.Text.{is, number, words, fields};
ghost use Rattle.definition.specs.Reading.{input_limits, read_back_limits, read_header_fields, read_header, read_clauses, read_formula};
ghost use Rattle.definition.specs.Log.{clause_text, formula_text};
ghost use Rattle.text.specs.Output.{Put};
ghost use Rattle.store.specs.Store.{Formed, stored};
ghost use Rattle.tables.specs.Sizes.{log_reach};
ghost use Rattle.theory_base.specs.Clauses.{Fit};
ghost use Rattle.tables.specs.Stamps.{Fresh};
ghost use Rattle.dimacs.specs.Limits.{limits_of, Countable};
ghost use Rattle.refusals.specs.Numbers.{number as number_of};
ghost use Rattle.refusals.specs.Outcomes.{outcome, outcome as outcome_defined, showing};
ghost use Rattle.dimacs.specs.HeaderLine.{HeaderLine, counts_by, counts_of, HeaderPost};
ghost use Rattle.dimacs.specs.Clause.{number_item, ended, first_clause, past_clause, SkipPost, Holding, HoldPost, GatherPost, first_kept, ClausePost};
ghost use Rattle.dimacs.specs.Outcome.{header_of, summary, Filled};
ghost use Rattle.dimacs.specs.FormulaText.{header_text};

use refusals::Refusal;
use tables::Marked;
use text::{Line, NumberError};

// ---- limits

// The most that a text may have.
#[derive(Clone, Copy)]
pub struct Limits {
    pub variables: u32,
    pub clauses: u32,
    pub literals: u32,
}

// The limits of a formula that is given.
pub fn input_limits() -> Limits
    ensures { (limits_of result ≡ input_limits) × Countable result }
{
    Limits {
        variables: tables::INPUT_REACH,
        clauses: 20000,
        literals: 60000,
    }
}

// The limits of a new formula that is read back.
pub fn read_back_limits() -> Limits
    ensures { (limits_of result ≡ read_back_limits) × Countable result }
{
    Limits {
        variables: tables::LOG_REACH,
        clauses: 300000,
        literals: 1000000,
    }
}

// How many entries of workspace a formula needs.
pub fn workspace_need(variables: u32, clauses: u32, literals: u32) -> usize
    ensures { result ≡ 40 * literals + 4 * clauses + 12 * variables + 8192 }
{
    40 * (literals as usize) + 4 * (clauses as usize) + 12 * (variables as usize) + 8192
}

// ---- the header

// V and C.
#[derive(Clone, Copy)]
struct Counts {
    variables: u32,
    clauses: u32,
}

// What the header line says, and the place past it.
#[derive(Clone, Copy)]
struct Header {
    counts: Counts,
    next: usize,
}

// The first line that does not begin with `c`.
fn header_line(text: &[u8]) -> Option<Line>
    ensures { HeaderLine text.now result }
{
    let mut at = 0;
    // a line begins where the one before it ends
    while let Some(line) = text::next_line(text, at) {
        if text[at] != b'c' {
            return Some(line);
        }
        at = line.next;
    }
    None
}

// V and C by what their words say.
fn counts_from(
    v: Result<u32, NumberError>,
    c: Result<u32, NumberError>,
    most: Limits,
) -> Result<Counts, Refusal>
    ensures { outcome result ≡ counts_by most v c }
{
    match (v, c) {
        (Err(NumberError::NotANumber), _) | (_, Err(NumberError::NotANumber)) => {
            Err(Refusal::NoHeader)
        }
        (Ok(variables), Ok(clauses)) if variables <= most.variables && clauses <= most.clauses => {
            Ok(Counts { variables, clauses })
        }
        _ => Err(Refusal::CountTooLarge),
    }
}

// The place of the first blank.
#[tactic(auto, unfolding(definition::specs::Text::is))]
fn first_blank(text: &[u8]) -> Option<usize>
    ensures { result ≡ position (is " ") text.now }
{
    text.iter().position(|b| *b == b' ')
}

// V and C of a line.
fn read_counts(line: &[u8], most: Limits) -> Result<Counts, Refusal>
    requires { Countable most }
    ensures { outcome result ≡ showing counts_of (read_header_fields (limits_of most) (fields line.now) []) }
{
    let Some(rest) = line.strip_prefix(b"p cnf ") else {
        return Err(Refusal::NoHeader);
    };
    let Some(first) = first_blank(rest) else {
        return Err(Refusal::NoHeader);
    };
    let v = text::read_natural(&rest[..first]);
    let c = text::read_natural(&rest[first + 1..]);
    counts_from(v, c, most)
}

// The header of a text, after the lines that begin with `c`.
fn read_header(text: &[u8], most: Limits) -> Result<Header, Refusal>
    requires { Countable most }
    ensures { HeaderPost text.now (read_header (limits_of most) text.now) result }
{
    let Some(line) = header_line(text) else {
        return Err(Refusal::NoHeader);
    };
    let counts = read_counts(&text[line.start..line.end], most)?;
    Ok(Header {
        counts,
        next: line.next,
    })
}

// ---- a clause

// What a word of a clause says: a literal, or nothing at the 0 that ends the clause.
fn number_item(word: &[u8], variables: u32) -> Result<Option<i32>, Refusal>
    requires { variables ≤ log_reach }
    ensures { outcome result ≡ number_item variables (number word.now) }
{
    match text::read_number(word) {
        Err(NumberError::NotANumber) => Err(Refusal::NotANumber),
        Err(NumberError::TooLarge) => Err(Refusal::VariableTooHigh),
        Ok(0) => Ok(None),
        Ok(l) if variables < literals::variable(l) => Err(Refusal::VariableTooHigh),
        Ok(l) => Ok(Some(l)),
    }
}

// Why a text that ends after so many literals of a clause is turned back.
fn ended(count: usize) -> Refusal
    ensures { number_of result ≡ ended count }
{
    if count == 0 {
        Refusal::ClauseCount
    } else {
        Refusal::UnendedClause
    }
}

// Reads from a place inside a clause to its end; the result is the place past it.
fn skip_clause(text: &[u8], from: usize, variables: u32) -> Result<usize, Refusal>
    requires variables_le_log_reach { variables ≤ log_reach }
    requires from_in_bounds { from ≤ length text.now }
    ensures { SkipPost text.now (past_clause variables (words (drop from text.now))) result }
{
    let mut at = from;
    // a word is looked for where the one before it ends
    while let Some(word) = text::next_word(text, at) {
        at = word.end;
        if number_item(&text[word.start..word.end], variables)?.is_none() {
            return Ok(at);
        }
    }
    Err(Refusal::UnendedClause)
}

// A clause: the place past it, and how many literals are held, unless it is left out.
#[derive(Clone, Copy)]
struct Gathered {
    next: usize,
    kept: Option<usize>,
}

// A clause that is read: the place past it, and of what is kept the literals and the elements that are stored.
#[derive(Clone, Copy)]
struct ClauseRead {
    next: usize,
    literals: usize,
    filled: usize,
}

// A clause's header, and as many literals as a clause without opposed ones can have.
const HELD: usize = 70001;

// What the reading of clauses works on: for each literal the number of the clause in which it was last read; and the literals of
// the clause at hand, behind the place of its header.
#[derive(Drop)]
struct ClauseReader {
    seen: [u32; tables::LOG_SIZE],
    held: [i32; HELD],
}

impl ClauseReader {
    // Holds a literal behind count others unless it is one of them; the result is how many are held then, or nothing where its
    // negation is.
    fn hold(&mut self, number: u32, count: usize, l: i32) -> Option<usize>
        requires fit { Fit log_reach l }
        requires count_bound { count + 1 < 2 ^ 64 }
        ensures { (old : List ℤ) (here : Clause) → Holding old self.old number here count → HoldPost old self.new number here l result }
    {
        match tables::mark(&mut self.seen, number, l) {
            Marked::Repeated => Some(count),
            Marked::Opposed => None,
            Marked::New => {
                slices::put(&mut self.held, count + 1, l);
                Some(count + 1)
            }
        }
    }

    // Reads the clause at the start of a text and holds it as an entry, each literal at its first place, unless it has a
    // literal and its negation.
    fn gather(&mut self, number: u32, text: &[u8], variables: u32) -> Result<Gathered, Refusal>
        requires variables_le_log_reach { variables ≤ log_reach }
        requires fresh { Fresh self.old.seen number }
        ensures { GatherPost text.now (first_clause variables [] (words text.now)) self.new number variables result }
    {
        let mut at = 0;
        let mut count: usize = 0;
        // a word is looked for where the one before it ends
        while let Some(word) = text::next_word(text, at) {
            at = word.end;
            let Some(l) = number_item(&text[word.start..word.end], variables)? else {
                self.held[0] = literals::header(count);
                return Ok(Gathered {
                    next: at,
                    kept: Some(count),
                });
            };
            let Some(more) = self.hold(number, count, l) else {
                let next = skip_clause(text, at, variables)?;
                return Ok(Gathered { next, kept: None });
            };
            count = more;
        }
        Err(ended(count))
    }

    // Reads the clause at the start of a text, and stores what is kept of it, at most room literals, at the start of a store.
    fn read(
        &mut self,
        number: u32,
        text: &[u8],
        variables: u32,
        room: usize,
        store: &mut [i32],
    ) -> Result<ClauseRead, Refusal>
        requires variables_le_log_reach { variables ≤ log_reach }
        requires fresh { Fresh self.old.seen number }
        ensures { ClausePost text.now (first_kept variables room [] (words text.now)) room store.old store.new self.new number result }
    {
        let clause = self.gather(number, text, variables)?;
        let next = clause.next;
        let Some(count) = clause.kept else {
            return Ok(ClauseRead {
                next,
                literals: 0,
                filled: 0,
            });
        };
        if room < count {
            return Err(Refusal::TooManyLiterals);
        }
        let filled = count + 1;
        store::copy_at(store, 0, &self.held[..filled]);
        Ok(ClauseRead {
            next,
            literals: count,
            filled,
        })
    }
}

// ---- the formula

// V, C and L of a formula, and how many elements of a store its clauses fill.
#[derive(Clone, Copy)]
pub struct Formula {
    pub variables: u32,
    pub clauses: u32,
    pub literals: u32,
    pub filled: usize,
}

// Reads the clauses of a text that begins after its header, and stores what is kept. What lies past the store's end is counted,
// but not stored.
fn read_clauses(
    text: &[u8],
    counts: Counts,
    most: Limits,
    store: &mut [i32],
) -> Result<Formula, Refusal>
    requires variables_le_log_reach { counts.variables ≤ log_reach }
    requires clauses_bound { counts.clauses ≤ 1000000 }
    requires literals_bound { most.literals ≤ 1000000 }
    ensures outcome { outcome_defined result ≡ showing summary (read_clauses (limits_of most) (header_of counts text.now)) }
    ensures stored { Filled (read_clauses (limits_of most) (header_of counts text.now)) store.old store.new }
{
    let mut reader = ClauseReader {
        seen: [0u32; tables::LOG_SIZE],
        held: [0i32; HELD],
    };
    let mut at = 0;
    let mut total: usize = 0;
    let mut filled: usize = 0;
    for done in 0..counts.clauses {
        let room = most.literals as usize - total;
        let end = filled.min(store.len());
        let clause = reader.read(
            done + 1,
            &text[at..],
            counts.variables,
            room,
            &mut store[end..],
        )?;
        at += clause.next;
        total += clause.literals;
        filled += clause.filled;
    }
    if text::next_word(text, at).is_some() {
        return Err(Refusal::ClauseCount);
    }
    Ok(Formula {
        variables: counts.variables,
        clauses: counts.clauses,
        literals: total as u32,
        filled,
    })
}

// Reads a text as a formula within limits, and stores its clauses, each its length and its literals, from the store's start
// on, as far as the store goes.
pub fn read(text: &[u8], most: Limits, store: &mut [i32]) -> Result<Formula, Refusal>
    requires { Countable most }
    ensures outcome { outcome_defined result ≡ showing summary (read_formula (limits_of most) text.now) }
    ensures stored { Filled (read_formula (limits_of most) text.now) store.old store.new }
{
    let header = read_header(text, most)?;
    read_clauses(&text[header.next..], header.counts, most, store)
}

// ---- the text of a formula

// Writes the header line of a formula.
fn put_header(buf: &mut [u8], at: usize, h: u32, m: u32) -> usize
    requires { at + 28 < 2 ^ 64 }
    ensures written { Put buf.old at (header_text h m) result buf.new }
    ensures within { result ≤ at + 28 }
{
    let a = text::put_text(buf, at, b"p cnf ");
    let b = text::put_number(buf, a, h);
    let c = text::put_byte(buf, b, 32);
    let d = text::put_number(buf, c, m);
    text::put_byte(buf, d, b'\n')
}

// Writes the clauses that stand in a store, one a line.
fn put_entries(buf: &mut [u8], from: usize, store: &[i32]) -> usize
    requires formed { Formed store.now }
    requires store_bound { from + 12 * length store.now < 2 ^ 64 }
    ensures { Put buf.old from (for_each (stored store.now) clause_text) result buf.new }
{
    let mut end = from;
    for clause in store::standing(store) {
        end = text::put_clause(buf, end, clause);
    }
    end
}

// Writes the formula of the clauses that stand in a store, m of them.
pub fn write_formula(buf: &mut [u8], h: u32, m: u32, store: &[i32]) -> usize
    requires formed { Formed store.now }
    requires m_value { m ≡ length (stored store.now) }
    requires store_bound { 12 * length store.now + 28 < 2 ^ 64 }
    ensures { Put buf.old 0 (formula_text h (stored store.now)) result buf.new }
{
    let end = put_header(buf, 0, h, m);
    put_entries(buf, end, store)
}
