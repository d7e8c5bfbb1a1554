// Deleting clauses for a pure literal: the unique literal clauses that have one, save those of 5 to 64 literals.
#![tactic(auto)]

ghost use Rattle.std.specs.Prelude.{◌≡◌, ◌<◌, ◌^◌, length, drop};
ghost use Rattle.std.specs.List.{find};
ghost use Rattle.definition.specs.Clearing.{clear_pure};
ghost use Rattle.theory_clearing.specs.Clashes.{ClashFree};
ghost use Rattle.tables.specs.Sizes.{input_reach};
ghost use Rattle.tables.specs.Counts.{pure_in};
ghost use Rattle.store.specs.Store.{Formed};
ghost use Rattle.index.specs.Index.{SameEntries, KeepsIndex};
ghost use Rattle.progress.specs.Progress.{standing, Good, Runs};
ghost use Rattle.pass_pure.specs.Pass.{pure_by, pure_at, Step, Passable};

use progress::Progress;

// ---- the literal for which a clause is deleted, by a table of how often each literal stands

// The first literal of a clause whose negation stands nowhere.
fn first_pure(counts: &[u32], clause: &[i32]) -> Option<i32>
    ensures { result ≡ find (pure_in counts.now) clause.now }
{
    clause.iter().copied().find(|l| tables::is_pure(counts, *l))
}

// The literal for which a clause is deleted, if it is.
fn pure_literal(counts: &[u32], clause: &[i32]) -> Option<i32>
    ensures { result ≡ pure_by counts.now clause.now }
{
    if tables::is_deletable(counts, clause) {
        first_pure(counts, clause)
    } else {
        None
    }
}

// ---- the pass over the store

// Deletes the clause at a place if it stands and is to be deleted for a pure literal.
fn delete_at(work: &mut [i32], at: usize, counts: &[u32], log: &mut [u8], p: Progress) -> Progress
    requires at_in_bounds { (at < length work.old) × Formed (drop at work.old) }
    requires at_bound { (p.at < 2 ^ 63) × (p.lines < 2 ^ 63) }
    ensures { Step (pure_at counts.now work.old at) work.old at log.old p work.new log.new result }
{
    if literals::is_negative(work[at]) {
        return p;
    }
    match pure_literal(counts, store::clause_at(work, at)) {
        Some(l) => progress::delete_first(work, at, log, p, l),
        None => p,
    }
}

// Deletes clauses for a pure literal from a workspace that is all store, in list order.
fn delete_all(work: &mut [i32], counts: &[u32], log: &mut [u8], p: Progress) -> Progress
    requires { Passable work.old counts.now p }
    ensures runs { Runs (clear_pure (standing work.old p)) work.old log.old p work.new log.new result }
    ensures same { SameEntries work.old work.new }
    ensures kept { result.end ≡ p.end }
{
    let mut q = p;
    let mut at = 0;
    // a walk, since entries differ in length and are marked on the way
    while at < work.len() {
        let next = store::next_at(work, at);
        q = delete_at(work, at, counts, log, q);
        at = next;
    }
    q
}

// Deletes clauses for a pure literal from a store in which no clash is left. The store's index stays what it was.
pub fn delete_pure(work: &mut [i32], log: &mut [u8], p: Progress) -> Progress
    requires { Good input_reach (clear_pure (standing work.old p)) work.old p × ClashFree (standing work.old p) }
    ensures runs { Runs (clear_pure (standing work.old p)) work.old log.old p work.new log.new result }
    ensures index { KeepsIndex work.old p.end work.new result.end }
{
    let end = p.end;
    let mut counts = [0u32; tables::INPUT_SIZE];
    store::count_all(&mut counts, &work[..end]);
    delete_all(&mut work[..end], &counts, log, p)
}
