// The pairs of a choice in a store: looked up by literal, deleted and counted, and their deletions recorded by the counts.
#![tactic(auto)]

ghost use Rattle.std.specs.Prelude.{◌≡◌, ◌<◌, ◌≤◌, nat_abs, length, take, drop, replicate};
ghost use Rattle.definition.specs.Standing.{deletion};
ghost use Rattle.theory_base.specs.Clauses.{FitAll};
ghost use Rattle.tables.specs.Sizes.{input_reach, log_reach};
ghost use Rattle.tables.specs.Places.{Places};
ghost use Rattle.store.specs.Store.{Formed, stored};
ghost use Rattle.index.specs.Index.{Indexed};
ghost use Rattle.progress.specs.Progress.{Written, LogRoom};
ghost use Rattle.pairs.specs.Pairs.{slots, ordered_slot as slot_for, slot_of, as_slot, PairStep, Countable, PairsLess, NoPairWith, PairsTaken, PairCounts, cell_lines, row_lines, pair_lines};

use drat::ProofLine;
use progress::Progress;

// How many slots a table of counts has, one for each two places of a choice.
pub const SLOTS: usize = 4096;

// ---- slots

// The slot of a pair by its places, of which the first is the lower.
fn ordered_slot(a: usize, b: usize) -> Option<usize>
    ensures { result ≡ as_slot (slot_for a b) }
{
    if 0 < a && a < b && b <= 64 {
        return Some((a - 1) * 64 + (b - 1));
    }
    None
}

// The slot of a clause by the table of the choice's places, if it is a pair.
fn pair_slot(places: &[u32], clause: &[i32]) -> Option<usize>
    ensures { result ≡ as_slot (slot_of places.now clause.now) }
{
    if let [l, m] = clause {
        let a = tables::place_of(places, *l) as usize;
        let b = tables::place_of(places, *m) as usize;
        return ordered_slot(a.min(b), a.max(b));
    }
    None
}

// ---- deleted and counted

// Deletes and counts the clause at a place if it stands and is a pair.
fn take_pair(store: &mut [i32], at: usize, places: &[u32], counts: &mut [u32])
    requires { (at < length store.old) × Formed (drop at store.old) }
    ensures { PairStep places.now store.old at counts.old store.new counts.new }
{
    if literals::is_negative(store[at]) {
        return;
    }
    if let Some(slot) = pair_slot(places, store::clause_at(store, at)) {
        tables::count_at(counts, slot);
        store::mark_deleted(store, at);
    }
}

// Deletes and counts the pairs that hold a literal.
fn take_with(
    work: &mut [i32],
    newest: &[u32],
    end: usize,
    places: &[u32],
    counts: &mut [u32],
    l: i32,
)
    requires indexed_2 { Indexed work.old end newest.now × (nat_abs l ≤ log_reach) }
    requires countable { Countable places.now (stored (take end work.old)) counts.old }
    ensures less { PairsLess places.now (take end work.old) counts.old (take end work.new) counts.new }
    ensures none { NoPairWith l places.now (take end work.new) }
    ensures indexed { Indexed work.new end newest.now }
{
    let mut node = index::last_node(newest, l);
    // from each node to the one before with the same literal
    while 0 < node {
        let at = index::place_at(work, node);
        let before = index::older(work, node);
        take_pair(&mut work[..end], at, places, counts);
        node = before;
    }
}

// Deletes all pairs of a choice, and counts them in a table of zeros.
pub fn take_pairs(
    work: &mut [i32],
    newest: &[u32],
    end: usize,
    places: &[u32],
    choice: &[i32],
    counts: &mut [u32],
)
    requires indexed_2 { Indexed work.old end newest.now × Places places.now choice.now × FitAll input_reach choice.now × (length choice.now ≤ 64) }
    requires counts_value { counts.old ≡ replicate slots 0 }
    ensures taken { PairsTaken places.now (stored (take end work.old)) (take end work.new) counts.new }
    ensures indexed { Indexed work.new end newest.now }
{
    for l in choice {
        take_with(work, newest, end, places, counts, literals::negated(*l));
    }
}

// ---- lines

// Records the deletion of a pair some times.
fn record_times(log: &mut [u8], p: Progress, pair: &[i32], times: u32) -> Progress
    requires pair_len { length pair.now ≡ 2 }
    requires log_room { LogRoom (replicate times (deletion pair.now)) p }
    ensures written { Written (replicate times (deletion pair.now)) log.old p log.new result }
    ensures kept { result.end ≡ p.end }
{
    let mut q = p;
    for _ in 0..times {
        q = progress::record_line(log, q, ProofLine::Deletion(pair));
    }
    q
}

// Records the deletions of the pair of the literals at two places.
fn record_cell(
    log: &mut [u8],
    p: Progress,
    counts: &[u32],
    choice: &[i32],
    i: usize,
    j: usize,
) -> Progress
    requires i_lt_j { (i < j) × (j < length choice.now) × (length choice.now ≤ 64) }
    requires log_room { LogRoom (cell_lines counts.now choice.now i j) p }
    ensures written { Written (cell_lines counts.now choice.now i j) log.old p log.new result }
    ensures kept { result.end ≡ p.end }
{
    let times = tables::entry_at(counts, i * 64 + j);
    // most pairs of a long choice stand nowhere
    if times == 0 {
        return p;
    }
    let pair = [literals::negated(choice[i]), literals::negated(choice[j])];
    record_times(log, p, &pair, times)
}

// Records the deletions of the pairs of the literal at a place with those behind it.
fn record_row(log: &mut [u8], p: Progress, counts: &[u32], choice: &[i32], i: usize) -> Progress
    requires i_in_bounds { (i < length choice.now) × (length choice.now ≤ 64) }
    requires log_room { LogRoom (row_lines counts.now choice.now i) p }
    ensures written { Written (row_lines counts.now choice.now i) log.old p log.new result }
    ensures kept { result.end ≡ p.end }
{
    let mut q = p;
    for j in i + 1..choice.len() {
        q = record_cell(log, q, counts, choice, i, j);
    }
    q
}

// Records the deletions of all pairs of a choice, each as often as it is counted.
pub fn record_pairs(log: &mut [u8], p: Progress, counts: &[u32], choice: &[i32]) -> Progress
    requires choice_len_bound { length choice.now ≤ 64 }
    requires log_room { LogRoom (pair_lines counts.now choice.now) p }
    ensures written { Written (pair_lines counts.now choice.now) log.old p log.new result }
    ensures kept { result.end ≡ p.end }
{
    let mut q = p;
    for i in 0..choice.len() {
        q = record_row(log, q, counts, choice, i);
    }
    q
}

// ---- counts made zero

// Makes the counts of a choice's pairs zero again; there are no others.
pub fn clear_counts(counts: &mut [u32], choice: &[i32])
    requires { PairCounts counts.old (length choice.now) × (length choice.now ≤ 64) }
    ensures { counts.new ≡ replicate slots 0 }
{
    let used = choice.len() * 64;
    counts[..used].fill(0);
}
