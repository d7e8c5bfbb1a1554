// Clauses in a lent slice, the store: a clause is a header and its literals; -1 - n in place of the header n says that it is deleted.
#![tactic(auto)]

ghost use Rattle.std.specs.Prelude.{◌≡◌, cond, ◌+◌, ◌≤◌, ◌<◌, ◌^◌, length, set, take, drop, Some};
ghost use Rattle.std.proofs.lemmas.List.Edits.{sets};
ghost use Rattle.definition.specs.Lists.{all};
ghost use Rattle.definition.specs.Literals.{holds as holds_literal, same_set as same_literals};
ghost use Rattle.definition.specs.Calls.{numbers_of};
ghost use Rattle.tables.specs.Entries.{tallied_all};
ghost use Rattle.std.specs.Iterator.{YieldsFirstBy, item_count};
ghost use Rattle.store.specs.Store.{Formed, stored, clause_at as clause_there, past, EntryAt, marked, begins_with, place_of, end_after, with_entry, slid, slid_to, Compacted};

use std::marker::Model;

// What a header counts at most.
const MOST_LITERALS: usize = i32::MAX as usize;

// ---- a clause's part of one of two slices

// The clause's own part of the store of read clauses or the store of added ones.
pub fn clause_part<'a>(
    read: &'a [i32],
    added: &'a [i32],
    is_added: bool,
    at: usize,
    len: usize,
) -> &'a [i32]
    requires { at + len ≤ length (cond is_added added.now read.now) }
    ensures { result.now ≡ take len (drop at (cond is_added added.now read.now)) }
{
    let store = if is_added { added } else { read };
    &store[at..at + len]
}

// ---- sets of literals

// Whether a literal is in a clause; on the few literals of one, `contains` and chains take more steps than a loop.
fn holds(clause: &[i32], l: &i32) -> bool
    ensures { result ≡ holds_literal l.now clause.now }
{
    for m in clause {
        if *m == *l {
            return true;
        }
    }
    false
}

// Whether every literal of a clause is in another.
fn all_in(a: &[i32], b: &[i32]) -> bool
    ensures { result ≡ all (λ l. holds_literal l b.now) a.now }
{
    for l in a {
        if !holds(b, l) {
            return false;
        }
    }
    true
}

// Whether two clauses have the same set of literals.
#[tactic(auto, unfolding(definition::specs::Literals::same_set))]
fn same_set(a: &[i32], b: &[i32]) -> bool
    ensures { result ≡ same_literals a.now b.now }
{
    all_in(a, b) && all_in(b, a)
}

// ---- the entries of a store

// The place past the entry at a place.
pub fn next_at(store: &[i32], at: usize) -> usize
    requires { at < length store.now }
    ensures { result ≡ past store.now at }
{
    at + (1 + literals::header_length(store[at]))
}

// The literals of the entry at a place.
pub fn clause_at(store: &[i32], at: usize) -> &[i32]
    requires { EntryAt store.now at }
    ensures { result.now ≡ clause_there store.now at }
{
    let next = next_at(store, at);
    &store[at + 1..next]
}

// Whether the clause at a place stands and has the same set of literals; the entry is walked first, so that most entries fail at their first literal.
#[tactic(auto, using(crate::proofs::Finding::entry_begins))]
fn matches(store: &[i32], at: usize, clause: &[i32]) -> bool
    requires { EntryAt store.now at }
    ensures { result ≡ begins_with clause.now (drop at store.now) }
{
    if literals::is_negative(store[at]) {
        return false;
    }
    same_set(clause_at(store, at), clause)
}

// The place of the first standing clause with the same set of literals.
pub fn find_same_set(store: &[i32], clause: &[i32]) -> Option<usize>
    requires { Formed store.now }
    ensures { result ≡ place_of clause.now store.now }
{
    let mut at = 0;
    // a walk, since the answer is an entry's place
    while at < store.len() {
        if matches(store, at, clause) {
            return Some(at);
        }
        at = next_at(store, at);
    }
    None
}

// The clause at a place if it stands and has the same set of literals, else the best match so far.
#[tactic(auto, using(crate::proofs::Finding::begins_at))]
pub fn better(store: &[i32], at: usize, clause: &[i32], best: Option<usize>) -> Option<usize>
    requires { EntryAt store.now at }
    ensures { result ≡ cond (begins_with clause.now (drop at store.now)) (Some at) best }
{
    if literals::is_negative(store[at]) {
        return best;
    }
    if same_set(clause, clause_at(store, at)) {
        return Some(at);
    }
    best
}

// Marks the clause at a place as deleted.
pub fn mark_deleted(store: &mut [i32], at: usize)
    requires { at < length store.old }
    ensures { store.new ≡ marked store.old at }
{
    let h = store[at];
    store[at] = literals::flipped(h);
}

// ---- adding

// Copies elements to a place, as far as the store goes.
pub fn copy_at(store: &mut [i32], at: usize, elements: &[i32])
    requires { at + length elements.now < 2 ^ 64 }
    ensures { store.new ≡ sets store.old at elements.now }
{
    for (i, l) in elements.iter().enumerate() {
        slices::put(store, at + i, *l);
    }
}

// Writes a clause's entry at the end of what is filled, if there is room.
pub fn append_clause(work: &mut [i32], end: usize, clause: &[i32]) -> Option<usize>
    requires { end ≤ length work.old }
    ensures end { result ≡ end_after (length work.old) end clause.now }
    ensures written { work.new ≡ with_entry work.old end clause.now }
{
    let n = clause.len();
    if MOST_LITERALS < n || work.len() - end < n + 1 {
        return None;
    }
    work[end] = literals::header(n);
    copy_at(work, end + 1, clause);
    Some(end + (n + 1))
}

// ---- sliding the standing clauses down

// Moves the clause at a place down if it stands; the result is the place past it.
fn slide(store: &mut [i32], to: usize, from: usize) -> usize
    requires { (to ≤ from) × EntryAt store.old from }
    ensures next { result ≡ slid_to store.old to from }
    ensures moved { store.new ≡ slid store.old to from }
{
    if literals::is_negative(store[from]) {
        return to;
    }
    let next = next_at(store, from);
    store.copy_within(from..next, to);
    to + (next - from)
}

// Slides the standing clauses down; the result is how many elements they fill.
pub fn compact(store: &mut [i32]) -> usize
    requires { Formed store.old }
    ensures { Compacted store.old result store.new }
{
    let mut to = 0;
    let mut from = 0;
    // a walk, since it writes the entries that it has read
    while from < store.len() {
        let next = next_at(store, from);
        to = slide(store, to, from);
        from = next;
    }
    to
}

// ---- the standing clauses one by one

// The standing clauses that an iterator has not given yet, those from a place on.
#[derive(Drop)]
pub struct Clauses<'a> {
    store: &'a [i32],
    at: usize,
}

impl<'a> Model for Clauses<'a> {
    ghost use Rattle.std.specs.Prelude.{drop};
    ghost use Rattle.definition.specs.Literals.{Formula};
    ghost use Rattle.store.specs.Store.{Formed, stored};

    ghost Value = { Formula };

    ghost view = { λ c. stored (drop c.at c.store.now) };

    ghost invariant = { λ c. Formed (drop c.at c.store.now) };
}

impl<'a> Iterator for Clauses<'a> {
    type Item = &'a [i32];

    ghost next_gives = { YieldsFirstBy (λ c. c.now) (λ left. left) };

    ghost remaining = { item_count (λ left. left) };

    // A walk, since entries differ in length; deleted ones are passed over.
    #[tactic(auto, using(crate::proofs::Laws::next_formed, crate::proofs::Laws::rest_deleted, crate::proofs::Laws::rest_stands, crate::proofs::Laws::stored_end))]
    fn next(&mut self) -> Option<&'a [i32]> {
        while self.at < self.store.len() {
            let at = self.at;
            self.at = next_at(self.store, at);
            if !literals::is_negative(self.store[at]) {
                return Some(clause_at(self.store, at));
            }
        }
        None
    }
}

// The standing clauses in their order.
pub fn standing(store: &[i32]) -> Clauses<'_>
    requires { Formed store.now }
    ensures { result ≡ stored store.now }
{
    Clauses { store, at: 0 }
}

// ---- how often each literal stands

// Counts the literals of the standing clauses.
#[tactic(auto, unfolding(tables::specs::Entries::tallied_all))]
pub fn count_all(table: &mut [u32], store: &[i32])
    requires { Formed store.now }
    ensures { table.new ≡ tallied_all table.old (stored store.now) }
{
    for clause in standing(store) {
        tables::count_clause(table, clause);
    }
}
