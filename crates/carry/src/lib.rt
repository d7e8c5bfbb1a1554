// An assignment tested against a store, carried back or forward over the loaded lines of a log, and written.
#![tactic(auto)]

ghost use Rattle.std.specs.Prelude.{◌≡◌, cond, ℕ, ◌≤◌, ◌<◌, ◌^◌, length, take, drop};
ghost use Rattle.definition.specs.Checked.{Checked};
ghost use Rattle.definition.specs.Literals.{highest};
ghost use Rattle.definition.specs.Text.{Bytes};
ghost use Rattle.definition.specs.Standing.{literals as literals_of_line, highest_in};
ghost use Rattle.definition.specs.Assignments.{satisfies, repaired, carried_back, carried_forward};
ghost use Rattle.definition.specs.Calls.{fitting_line, buffer_after};
ghost use Rattle.theory_base.specs.Slices.{between};
ghost use Rattle.literals.specs.Literal.{negative};
ghost use Rattle.store.specs.Store.{Formed, stored};
ghost use Rattle.drat.specs.Loaded.{Loaded, lines_in, line_at, past_line};
ghost use Rattle.answer.specs.Table.{marked};
ghost use Rattle.carry.specs.Lines.{LastLine, over, repairs};
ghost use Rattle.carry.specs.Carried.{holds_at, carried_answer, carried_plan, replayed_text, Carries, CarriesBy, Carryable};

use refusals::Refusal;

// ---- testing an assignment

// The store of read clauses or the store of added ones; `is_added` is a bool as in `store::clause_part`, to which it goes on.
fn one_of<'a>(read: &'a [i32], added: &'a [i32], is_added: bool) -> &'a [i32]
    ensures { result.now ≡ cond is_added added.now read.now }
{
    if is_added { added } else { read }
}

// Whether the clause at a place of one of the two stores is deleted or has a true literal.
fn holds_at<'a>(marks: &[u8], read: &'a [i32], added: &'a [i32], is_added: bool, at: usize) -> bool
    requires { (at < length (cond is_added added.now read.now)) × Formed (drop at (cond is_added added.now read.now)) }
    ensures { result ≡ holds_at (marked marks.now) (cond is_added added.now read.now) at }
{
    let header = one_of(read, added, is_added)[at];
    if literals::is_negative(header) {
        return true;
    }
    let n = literals::header_length(header);
    let clause = store::clause_part(read, added, is_added, at + 1, n);
    answer::has_true(marks, clause)
}

// Whether an assignment satisfies what stands in the store of read clauses or the store of added ones.
pub fn satisfied<'a>(marks: &[u8], read: &'a [i32], added: &'a [i32], is_added: bool) -> bool
    requires { Formed (cond is_added added.now read.now) }
    ensures { result ≡ satisfies (marked marks.now) (stored (cond is_added added.now read.now)) }
{
    let store = one_of(read, added, is_added);
    let mut at = 0;
    // A walk over entries of different lengths: each clause is a part of one of the two lent stores, as `store::clause_part` gives it.
    while at < store.len() {
        if !holds_at(marks, read, added, is_added, at) {
            return false;
        }
        at = store::next_at(store, at);
    }
    true
}

// Whether an assignment satisfies the clauses before a place.
pub fn satisfied_before(marks: &[u8], work: &[i32], n: usize) -> bool
    requires { (n ≤ length work.now) × Formed (take n work.now) }
    ensures { result ≡ satisfies (marked marks.now) (stored (take n work.now)) }
{
    let formula = &work[..n];
    satisfied(marks, formula, formula, false)
}

// ---- carrying an assignment over lines

// An answer is carried back, a plan forward.
#[derive(Clone, Copy, Debug, PartialEq, Eq)]
pub enum Direction {
    Back,
    Forward,
}

// Makes the first literal of a clause true if all its literals are false.
pub fn repair(marks: &mut [u8], clause: &[i32])
    ensures { highest clause.now < length marks.old → marked marks.new ≡ repaired clause.now (marked marks.old) }
{
    if answer::has_true(marks, clause) {
        return;
    }
    if let Some(first) = clause.first() {
        answer::make_true(marks, *first);
    }
}

// Whether a line with this header is repaired: forward an addition, back a deletion.
fn is_repaired(header: i32, direction: Direction) -> bool
    ensures { result ≡ repairs direction (negative header) }
{
    let deletes = literals::is_negative(header);
    match direction {
        Direction::Back => deletes,
        Direction::Forward => !deletes,
    }
}

// Carries an assignment over the line at a place.
fn carry_line(marks: &mut [u8], lines: &[i32], at: usize, direction: Direction)
    requires { past_line lines.now at ≤ length lines.now }
    ensures { highest (literals_of_line (line_at lines.now at)) < length marks.old → marked marks.new ≡ over direction (marked marks.old) (line_at lines.now at) }
{
    if is_repaired(lines[at], direction) {
        let next = store::next_at(lines, at);
        let first = at + 1;
        repair(marks, &lines[first..next]);
    }
}

// Where the last line before a place starts.
fn line_start(lines: &[i32], end: usize) -> usize
    requires { (0 < end) × (end ≤ length lines.now) × Loaded (take end lines.now) }
    ensures { LastLine lines.now end result }
{
    let last = end - 1;
    end - (literals::header_length(lines[last]) + 2)
}

// Carries an assignment back over the lines, the last one first.
pub fn carry_back(marks: &mut [u8], lines: &[i32])
    requires { Loaded lines.now }
    ensures { highest_in (lines_in lines.now) < length marks.old → marked marks.new ≡ carried_back (marked marks.old) (lines_in lines.now) }
{
    let mut end = lines.len();
    // A walk over lines of different lengths, from their end.
    while 0 < end {
        let start = line_start(lines, end);
        carry_line(marks, lines, start, Direction::Back);
        end = start;
    }
}

// Carries an assignment forward over the lines, the first one first.
pub fn carry_forward(marks: &mut [u8], lines: &[i32])
    requires { Loaded lines.now }
    ensures { highest_in (lines_in lines.now) < length marks.old → marked marks.new ≡ carried_forward (marked marks.old) (lines_in lines.now) }
{
    let mut at = 0;
    // A walk over lines of different lengths.
    while at < lines.len() {
        carry_line(marks, lines, at, Direction::Forward);
        at = store::next_at(lines, at) + 1;
    }
}

// ---- an answer or a plan carried and written: how many bytes its line has, or why it is refused

// Writes the line of an assignment for the variables 1 to v, where it fits.
fn write_fitting(out: &mut [u8], v: u32, marks: &[u8]) -> Result<usize, Refusal>
    requires { v < 2 ^ 31 }
    ensures { Carries (fitting_line (length out.old) v (marked marks.now)) out.old result out.new }
{
    let n = answer::write_answer(out, v, marks);
    if out.len() < n {
        return Err(Refusal::ShortLineBuffer);
    }
    Ok(n)
}

// Tests an answer against what stands, carries it back over the lines, tests it against the formula and writes its line.
fn carry_answer<'a>(
    out: &mut [u8],
    v: u32,
    formula: &'a [i32],
    lines: &[i32],
    standing: &'a [i32],
    marks: &mut [u8],
) -> Result<usize, Refusal>
    requires { (v < 2 ^ 31) × Formed formula.now × Loaded lines.now × Formed standing.now × (highest_in (lines_in lines.now) < length marks.old) }
    ensures { Carries (carried_answer (length out.old) v (stored formula.now) (lines_in lines.now) (stored standing.now) (marked marks.old)) out.old result out.new }
{
    if !satisfied(marks, formula, standing, true) {
        return Err(Refusal::AnswerFails);
    }
    carry_back(marks, lines);
    if !satisfied(marks, formula, standing, false) {
        return Err(Refusal::CarriedBackFails);
    }
    write_fitting(out, v, marks)
}

// Carries a plan forward over the lines, tests it against what stands and writes its line.
fn carry_plan<'a>(
    out: &mut [u8],
    x: u32,
    formula: &'a [i32],
    lines: &[i32],
    standing: &'a [i32],
    marks: &mut [u8],
) -> Result<usize, Refusal>
    requires { (x < 2 ^ 31) × Loaded lines.now × Formed standing.now × (highest_in (lines_in lines.now) < length marks.old) }
    ensures { Carries (carried_plan (length out.old) x (lines_in lines.now) (stored standing.now) (marked marks.old)) out.old result out.new }
{
    carry_forward(marks, lines);
    if !satisfied(marks, formula, standing, true) {
        return Err(Refusal::CarriedForwardFails);
    }
    write_fitting(out, x, marks)
}

// Replays the lines at n..m over the formula before n, carries an answer back or a plan forward, and writes its line for the variables 1 to v.
pub fn replay_and_carry(
    out: &mut [u8],
    v: u32,
    work: &mut [i32],
    n: usize,
    m: usize,
    marks: &mut [u8],
    direction: Direction,
) -> Result<usize, Refusal>
    requires { Carryable work.old n m v marks.old }
    ensures { Carries (replayed_text direction (length out.old) v (stored (take n work.old)) (lines_in (between n m work.old)) (marked marks.old)) out.old result out.new }
{
    let end = replay::replay(work, n, m).ok_or(Refusal::NoSuchClause)?;
    let all = &work[..];
    let formula = &all[..n];
    let lines = &all[n..m];
    let standing = &all[m..end];
    match direction {
        Direction::Back => carry_answer(out, v, formula, lines, standing, marks),
        Direction::Forward => carry_plan(out, v, formula, lines, standing, marks),
    }
}

// Hands an answer on, and makes the buffer zero where it is a refusal, of whatever type: f tells its number.
pub fn settle<E>(out: &mut [u8], r: Result<usize, E>) -> Result<usize, E>
    ensures same { result ≡ r }
    ensures buffer { (f : E → ℕ) (o : Checked Bytes) (old : Bytes) → CarriesBy f o old r out.old → length out.old ≡ length old → out.new ≡ buffer_after 0 o (λ t. t) old }
{
    if r.is_err() {
        out.fill(0);
    }
    r
}
