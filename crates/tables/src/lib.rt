// Tables with an entry at each literal's index: entries read and set, literals counted and tested by their counts, literals stamped. A table reads 0 past its end, and nothing is stored there.
#![tactic(auto)]

ghost use Rattle.std.specs.Prelude.{◌≡◌, ◌≤◌, ◌<◌, ◌^◌, nat_abs, length, get_or, set};
ghost use Rattle.std.specs.List.{list_all};
ghost use Rattle.definition.specs.Lists.{sum_of};
ghost use Rattle.definition.specs.Literals.{Clause};
ghost use Rattle.definition.specs.Clearing.{choice_size};
ghost use Rattle.literals.specs.Literal.{index_of};
ghost use Rattle.tables.specs.Sizes.{log_reach, log_size};
ghost use Rattle.tables.specs.Entries.{entry_of as entry_at_literal, with_entries, counted_at, tallied};
ghost use Rattle.tables.specs.Counts.{once_in, pure_in, unique_by, choice_by, deletable_by};
ghost use Rattle.tables.specs.Places.{with_numbers, place_in};
ghost use Rattle.tables.specs.Stamps.{Marks, Fresh, AtMost, MarkPost};

// The highest variable of an input, and the size of a table that reaches it.
pub const INPUT_REACH: u32 = 8000;

pub const INPUT_SIZE: usize = 16002;

// The highest variable of a log, and the size of a table that reaches it.
pub const LOG_REACH: u32 = 70000;

pub const LOG_SIZE: usize = 140002;

// ---- entries

// The entry at an index.
pub fn entry_at(table: &[u32], i: usize) -> u32
    ensures { result ≡ get_or table.now i 0 }
{
    table.get(i).copied().unwrap_or(0)
}

// The entry of a literal.
pub fn entry_of(table: &[u32], l: i32) -> u32
    ensures { result ≡ entry_at_literal table.now l }
{
    entry_at(table, literals::literal_index(l))
}

// Sets the entry of a literal.
pub fn set_entry(table: &mut [u32], l: i32, value: u32)
    ensures { table.new ≡ set table.old (index_of l) value }
{
    slices::put(table, literals::literal_index(l), value);
}

// Sets the entry of each literal of a clause.
#[tactic(auto, using(crate::proofs::Laws::entries_end))]
pub fn set_entries(table: &mut [u32], clause: &[i32], value: u32)
    ensures { table.new ≡ with_entries table.old clause.now value }
{
    for l in clause {
        set_entry(table, *l, value);
    }
}

// The entries of a clause's literals, added up.
pub fn sum_entries(table: &[u32], clause: &[i32]) -> u32
    requires { sum_of (entry_at_literal table.now) clause.now < 2 ^ 32 }
    ensures { result ≡ sum_of (entry_at_literal table.now) clause.now }
{
    clause.iter().map(|l| entry_of(table, *l)).sum()
}

// Sets the entry of each literal of a clause to its place there, from 1 on.
#[tactic(auto, using(crate::proofs::Places::numbers_end))]
pub fn set_places(table: &mut [u32], clause: &[i32])
    requires { length clause.now < 2 ^ 32 }
    ensures { table.new ≡ with_numbers table.old 1 clause.now }
{
    for (i, l) in clause.iter().enumerate() {
        set_entry(table, *l, (i + 1) as u32);
    }
}

// The place of a literal's negation, by the table of a choice; 0 if the choice does not hold it.
pub fn place_of(table: &[u32], l: i32) -> u32
    ensures { result ≡ place_in table.now l }
{
    entry_of(table, literals::negated(l))
}

// ---- counts

// One more at an index, and no more than the largest u32.
pub fn count_at(table: &mut [u32], i: usize)
    ensures { table.new ≡ counted_at table.old i }
{
    if i < table.len() {
        table[i] = table[i].saturating_add(1);
    }
}

// One more for each literal of a clause.
#[tactic(auto, using(crate::proofs::Counting::tally_end))]
pub fn count_clause(table: &mut [u32], clause: &[i32])
    ensures { table.new ≡ tallied table.old clause.now }
{
    for l in clause {
        count_at(table, literals::literal_index(*l));
    }
}

// Whether a literal's negation stands nowhere.
pub fn is_pure(counts: &[u32], l: i32) -> bool
    ensures { result ≡ pure_in counts.now l }
{
    entry_of(counts, literals::negated(l)) == 0
}

// Whether each literal of a clause stands in one clause.
fn all_once(counts: &[u32], clause: &[i32]) -> bool
    ensures { result ≡ list_all (once_in counts.now) clause.now }
{
    clause.iter().all(|l| entry_of(counts, *l) == 1)
}

// Whether a clause is a unique literal clause.
#[tactic(auto, using(theory_base::proofs::Chains::all_is))]
pub fn is_unique(counts: &[u32], clause: &[i32]) -> bool
    ensures { result ≡ unique_by counts.now clause.now }
{
    !clause.is_empty() && all_once(counts, clause)
}

// Whether a clause has as many literals as a choice.
#[tactic(auto, unfolding(definition::specs::Clearing::choice_size))]
fn is_choice_size(clause: &[i32]) -> bool
    ensures { result ≡ choice_size clause.now }
{
    (5..=64).contains(&clause.len())
}

// Whether a clause is a choice.
pub fn is_choice(counts: &[u32], clause: &[i32]) -> bool
    ensures { result ≡ choice_by counts.now clause.now }
{
    is_choice_size(clause) && is_unique(counts, clause)
}

// Whether a clause is deleted if it has a pure literal: a unique literal clause that is no choice.
pub fn is_deletable(counts: &[u32], clause: &[i32]) -> bool
    ensures { result ≡ deletable_by counts.now clause.now }
{
    !is_choice_size(clause) && is_unique(counts, clause)
}

// ---- stamps: which literals of a clause or line are read

// What a literal is among those read before it: new, there already, or its negation is.
#[derive(Clone, Copy)]
pub enum Marked {
    New,
    Repeated,
    Opposed,
}

// Marks a literal with the stamp of its clause or line if it is new there; says whether it is.
#[tactic(auto, using(crate::proofs::Laws::opposed_marked))]
pub fn mark(seen: &mut [u32], stamp: u32, l: i32) -> Marked
    requires l_bound { nat_abs l ≤ log_reach }
    requires log_size_in_bounds { log_size ≤ length seen.old }
    ensures { (here : Clause) → Marks seen.old stamp here → MarkPost here l seen.new stamp result }
{
    if entry_of(seen, l) == stamp {
        return Marked::Repeated;
    }
    if entry_of(seen, literals::negated(l)) == stamp {
        return Marked::Opposed;
    }
    set_entry(seen, l, stamp);
    Marked::New
}

// Makes every entry 0.
pub fn clear(seen: &mut [u32])
    ensures { AtMost seen.new 0 }
{
    seen.fill(0);
}

// The stamp for the next clause or line: one more, or 1 in a table made zero after the largest.
pub fn next_stamp(seen: &mut [u32], stamp: u32) -> u32
    requires { AtMost seen.old stamp }
    ensures { Fresh seen.new result }
{
    if stamp < u32::MAX {
        return stamp + 1;
    }
    clear(seen);
    1
}
