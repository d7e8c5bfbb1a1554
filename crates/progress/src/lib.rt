// Recording: proof lines go into the log's buffer, and are counted.
#![tactic(auto)]

ghost use Rattle.std.specs.Prelude.{◌≡◌, true, [], ◌∷◌, ◌++◌, ◌+◌, ◌-◌, ◌*◌, ◌≤◌, ◌<◌, ◌^◌, length, take, drop};
ghost use Rattle.definition.specs.Text.{Bytes, bytes, literal_text};
ghost use Rattle.definition.specs.Literals.{without, with_first};
ghost use Rattle.definition.specs.Standing.{deletion};
ghost use Rattle.theory_text.specs.ClauseText.{literals_text};
ghost use Rattle.literals.specs.Literal.{largest};
ghost use Rattle.text.specs.Output.{Put};
ghost use Rattle.theory_base.specs.Cells.{cells_of};
ghost use Rattle.store.specs.Store.{clause_at, marked, Formed};
ghost use Rattle.drat.specs.Lines.{line_clause, line_said};
ghost use Rattle.index.specs.Index.{nodes, Indexed, Roomy};
ghost use Rattle.progress.specs.Progress.{Written, standing, Runs};
ghost use Rattle.progress.specs.Growth.{GrowRoom, Grown, EntryThere};

use drat::ProofLine;

// How far a run is: the store's end, the log's end and the lines in the log.
#[derive(Clone, Copy)]
pub struct Progress {
    pub end: usize,
    pub at: usize,
    pub lines: usize,
}

// Records a proof line.
pub fn record_line(log: &mut [u8], p: Progress, line: ProofLine) -> Progress
    requires clause_bound { p.at + 12 * length (line_clause line) + 4 < 2 ^ 64 }
    requires lines_bound { p.lines + 1 < 2 ^ 64 }
    ensures written { Written (line_said line.entry ∷ []) log.old p log.new result }
    ensures kept { result.end ≡ p.end }
{
    let at = drat::log_line(log, p.at, line);
    Progress {
        at,
        lines: p.lines + 1,
        ..p
    }
}

// ---- a deletion with a literal first

// Writes a literal and a blank, unless it is the first one.
#[tactic(auto, using(crate::proofs::Writing::skipped, crate::proofs::Writing::one_other))]
fn put_other(log: &mut [u8], at: usize, first: i32, l: i32) -> usize
    requires { at + 12 < 2 ^ 64 }
    ensures written { Put log.old at (literals_text (without first (l ∷ []))) result log.new }
    ensures within { result ≤ at + 12 }
{
    if first == l {
        return at;
    }
    text::put_item(log, at, l)
}

// Writes the literals of a clause without the first one, a blank after each.
fn put_others(log: &mut [u8], at: usize, first: i32, clause: &[i32]) -> usize
    requires { at + 12 * length clause.now < 2 ^ 64 }
    ensures written { Put log.old at (literals_text (without first clause.now)) result log.new }
    ensures within { result ≤ at + 12 * length clause.now }
{
    let mut end = at;
    for l in clause {
        end = put_other(log, end, first, *l);
    }
    end
}

// Writes `d` and a literal, a blank after each.
fn put_first(log: &mut [u8], at: usize, first: i32) -> usize
    requires { at + 14 < 2 ^ 64 }
    ensures written { Put log.old at (bytes "d " ++ literal_text first ++ bytes " ") result log.new }
    ensures within { result ≤ at + 14 }
{
    let a = text::put_byte(log, at, b'd');
    let b = text::put_byte(log, a, b' ');
    text::put_item(log, b, first)
}

// Records the deletion of a clause with a literal first and the others in order.
fn record_first(log: &mut [u8], p: Progress, first: i32, clause: &[i32]) -> Progress
    requires clause_bound { p.at + 12 * length clause.now + 16 < 2 ^ 64 }
    requires lines_bound { p.lines + 1 < 2 ^ 64 }
    ensures written { Written (deletion (with_first first clause.now) ∷ []) log.old p log.new result }
    ensures kept { result.end ≡ p.end }
{
    let a = put_first(log, p.at, first);
    let b = put_others(log, a, first, clause);
    let c = text::put_byte(log, b, b'0');
    let at = text::put_byte(log, c, b'\n');
    Progress {
        at,
        lines: p.lines + 1,
        ..p
    }
}

// Deletes the clause at a place, and records it with a literal first.
pub fn delete_first(work: &mut [i32], at: usize, log: &mut [u8], p: Progress, l: i32) -> Progress
    requires at_in_bounds { (at < length work.old) × Formed (drop at work.old) }
    requires at_bound { (p.at < 2 ^ 63) × (p.lines < 2 ^ 63) }
    ensures written { Written (deletion (with_first l (clause_at work.old at)) ∷ []) log.old p log.new result }
    ensures kept { result.end ≡ p.end }
    ensures marked { work.new ≡ marked work.old at }
{
    // the header, read here, bounds the clause's length
    let next = at + (1 + literals::header_length(work[at]));
    let q = record_first(log, p, l, &work[at + 1..next]);
    store::mark_deleted(work, at);
    q
}

// ---- the store in a workspace, with its index

// Makes room for so many elements, where that is less than what is asked.
pub fn make_room(work: &mut [i32], newest: &mut [u32], p: Progress, cells: usize) -> Progress
    requires { Indexed work.old p.end newest.old × (cells_of (standing work.old p) + cells ≤ length work.old) }
    ensures runs { (log : Bytes) → Runs [] work.old log p work.new log result }
    ensures indexed { Indexed work.new result.end newest.new }
    ensures roomy { Roomy cells work.new result.end newest.new }
{
    let end = index::make_room(work, newest, p.end, cells);
    Progress { end, ..p }
}

// ---- clauses added behind the store

// Enters the clause whose entry was written from the store's end up to another place, and records it as added.
pub fn record_added(
    work: &mut [i32],
    newest: &mut [u32],
    log: &mut [u8],
    p: Progress,
    next: usize,
) -> Progress
    requires indexed { Indexed work.old p.end newest.old × EntryThere work.old p.end next }
    requires end_in_bounds { next + 2 * (nodes newest.old + (next - (p.end + 1))) ≤ length work.old }
    requires at_bound { (p.at < 2 ^ 63) × (p.lines < 2 ^ 63) }
    ensures { Grown (clause_at work.old p.end ∷ []) work.old newest.old log.old p work.new newest.new log.new result }
{
    let end = p.end;
    index::enter(work, newest, end, next);
    let q = record_line(log, p, ProofLine::Addition(&work[end + 1..next]));
    Progress { end: next, ..q }
}

// Adds a clause to the store, and records it.
pub fn add_clause(
    work: &mut [i32],
    newest: &mut [u32],
    log: &mut [u8],
    p: Progress,
    clause: &[i32],
) -> Progress
    requires { (length clause.now ≤ largest) × GrowRoom (clause.now ∷ []) work.old newest.old p }
    ensures { Grown (clause.now ∷ []) work.old newest.old log.old p work.new newest.new log.new result }
{
    let from = p.end;
    match store::append_clause(work, from, clause) {
        Some(end) => record_added(work, newest, log, p, end),
        None => p,
    }
}
