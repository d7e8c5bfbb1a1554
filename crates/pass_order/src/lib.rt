// Order form of one choice over the store.
#![tactic(auto)]

ghost use Rattle.std.specs.Prelude.{◌≡◌, [], ◌∷◌, ◌+◌, ◌≤◌, nat_abs, pos, length, take, drop, get_or};
ghost use Rattle.definition.specs.Lists.{for_from};
ghost use Rattle.definition.specs.Events.{choice_of};
ghost use Rattle.definition.specs.Order.{order_events, deletions_of};
ghost use Rattle.tables.specs.Sizes.{log_reach};
ghost use Rattle.tables.specs.Places.{Places, Small};
ghost use Rattle.store.specs.Store.{clause_at};
ghost use Rattle.index.specs.Index.{Indexed};
ghost use Rattle.lookup.specs.Lookup.{touched_places};
ghost use Rattle.progress.specs.Progress.{standing, Runs};
ghost use Rattle.progress.specs.Growth.{Grown};
ghost use Rattle.replacement.specs.Replaced.{choice_in};
ghost use Rattle.pass_order.specs.Pass.{result_of, TabledIn, Replaceable, StepReady, ReplacedAt};
ghost use Rattle.pass_order.specs.Order.{front, OrderReady, Passed, Deletes, first_deletion, Deletable};

use drat::ProofLine;
use progress::Progress;
use replacement::Placed;

// ---- the pass

// Adds the result of the n literals from a place on, unless it holds a literal and its negation.
fn add_result(
    work: &mut [i32],
    newest: &mut [u32],
    log: &mut [u8],
    p: Progress,
    from: usize,
    n: usize,
    choice: &Placed,
) -> Progress
    requires tabled { TabledIn choice.now × (from + n ≤ p.end) × Indexed work.old p.end newest.old }
    requires replaceable { Replaceable (choice_in choice.now) (take n (drop from work.old)) work.old newest.old p }
    ensures { Grown (result_of (choice_in choice.now) (take n (drop from work.old))) work.old newest.old log.old p work.new newest.new log.new result }
{
    if replacement::is_opposed(choice.places, &work[from..from + n]) {
        return p;
    }
    let end = p.end;
    let next = replacement::append_replaced(work, end, from, n, choice);
    progress::record_added(work, newest, log, p, next)
}

// Replaces the clause at a place: adds its result, then deletes it.
fn replace_at(
    work: &mut [i32],
    newest: &mut [u32],
    log: &mut [u8],
    p: Progress,
    at: usize,
    choice: &Placed,
) -> Progress
    requires { StepReady choice.now.places.now choice.now.literals.now choice.now.below work.old newest.old at p }
    ensures { ReplacedAt (choice_in choice.now) (clause_at work.old at) work.old newest.old at log.old p work.new newest.new log.new result }
{
    let next = store::next_at(work, at);
    let first = at + 1;
    let n = next - first;
    let q = add_result(work, newest, log, p, first, n, choice);
    let r = progress::record_line(log, q, ProofLine::Deletion(&work[first..next]));
    store::mark_deleted(work, at);
    r
}

// Replaces the clauses before `start` that hold negated choice literals, in list order.
fn replace_all(
    work: &mut [i32],
    newest: &mut [u32],
    log: &mut [u8],
    p: Progress,
    start: usize,
    choice: &Placed,
    list: &mut [u32],
) -> Progress
    requires { OrderReady work.old newest.old p start choice.now.literals.now choice.now.below × Places choice.now.places.now choice.now.literals.now × (length (touched_places choice.now.literals.now (take start work.old)) ≤ length list.old) }
    ensures { Passed (choice_in choice.now) (front work.old start) (drop start (take p.end work.old)) start work.old log.old p work.new newest.new log.new result }
{
    let end = p.end;
    let from = lookup::gather(work, newest, end, start, choice.literals, list);
    let mut q = p;
    // a range and no part of the list: where nothing is gathered, `from` may be any place
    for j in from..list.len() {
        q = replace_at(work, newest, log, q, list[j] as usize, choice);
    }
    q
}

// ---- the clauses with the choice's literals

// Records the deletion of a clause and deletes the first one with its literals.
fn delete_clause(
    work: &mut [i32],
    newest: &[u32],
    log: &mut [u8],
    p: Progress,
    clause: &[i32],
) -> Progress
    requires in_bounds { (1 ≤ length clause.now) × (length clause.now ≤ 3) × (nat_abs (get_or clause.now 0 (pos 0)) ≤ log_reach) }
    requires deletable { Deletable (clause.now ∷ []) work.old newest.now p }
    ensures { Deletes (clause.now ∷ []) work.old newest.now log.old p work.new log.new result }
{
    let end = p.end;
    lookup::delete_clause(work, newest, end, clause);
    progress::record_line(log, p, ProofLine::Deletion(clause))
}

// Deletes the clause with the literal at place i: li, -si, s(i-1), where each exists.
#[tactic(auto, unfolding(definition::specs::Lists::only_if), using(literals::proofs::Laws::signed_small))]
fn delete_positive(
    work: &mut [i32],
    newest: &[u32],
    log: &mut [u8],
    p: Progress,
    l: i32,
    i: u32,
    size: u32,
    below: u32,
) -> Progress
    requires le_i { (1 ≤ i) × (i ≤ size) × (size ≤ 64) × (below ≤ log_reach + 1) × (nat_abs l ≤ log_reach) }
    requires deletable { Deletable (first_deletion l i size below ∷ []) work.old newest.now p }
    ensures { Deletes (first_deletion l i size below ∷ []) work.old newest.now log.old p work.new log.new result }
{
    let after = literals::signed(true, below + i);
    let before = literals::signed(false, below + (i - 1));
    match (i < size, 1 < i) {
        (true, true) => delete_clause(work, newest, log, p, &[l, after, before]),
        (true, false) => delete_clause(work, newest, log, p, &[l, after]),
        (false, true) => delete_clause(work, newest, log, p, &[l, before]),
        (false, false) => delete_clause(work, newest, log, p, &[l]),
    }
}

// Deletes the clauses with the literal at place i.
fn delete_literal(
    work: &mut [i32],
    newest: &[u32],
    log: &mut [u8],
    p: Progress,
    choice: &Placed,
    i: u32,
) -> Progress
    requires le_i { (1 ≤ i) × (i ≤ length choice.now.literals.now) × Small choice.now.literals.now choice.now.below }
    requires deletable { Deletable (deletions_of (choice_in choice.now) i) work.old newest.now p }
    ensures { Deletes (deletions_of (choice_in choice.now) i) work.old newest.now log.old p work.new log.new result }
{
    let size = choice.literals.len() as u32;
    let l = choice.literals[i as usize - 1];
    let not_l = literals::negated(l);
    let mut q = delete_positive(work, newest, log, p, l, i, size, choice.below);
    if i < size {
        let after = literals::signed(false, choice.below + i);
        q = delete_clause(work, newest, log, q, &[not_l, after]);
    }
    if 1 < i {
        let before = literals::signed(true, choice.below + (i - 1));
        q = delete_clause(work, newest, log, q, &[not_l, before]);
    }
    q
}

// Deletes the clauses with the choice's literals, one literal after the other.
fn delete_literals(
    work: &mut [i32],
    newest: &[u32],
    log: &mut [u8],
    p: Progress,
    choice: &Placed,
) -> Progress
    requires small { Small choice.now.literals.now choice.now.below }
    requires deletable { Deletable (for_from 1 (length choice.now.literals.now) (deletions_of (choice_in choice.now))) work.old newest.now p }
    ensures { Deletes (for_from 1 (length choice.now.literals.now) (deletions_of (choice_in choice.now))) work.old newest.now log.old p work.new log.new result }
{
    let mut q = p;
    for i in 1..=choice.literals.len() as u32 {
        q = delete_literal(work, newest, log, q, choice, i);
    }
    q
}

// Replaces the negated literals of a choice in what stands before its counter clauses, then deletes the clauses with its literals. The counter clauses begin at `start`; `places` is the choice's table, and `list` is written.
pub fn order_choice(
    work: &mut [i32],
    newest: &mut [u32],
    log: &mut [u8],
    p: Progress,
    start: usize,
    literals: &[i32],
    below: u32,
    places: &[u32],
    list: &mut [u32],
) -> Progress
    requires { OrderReady work.old newest.old p start literals.now below × Places places.now literals.now × (length (touched_places literals.now (take start work.old)) ≤ length list.old) }
    ensures runs { Runs (order_events (choice_of literals.now below) (standing work.old p)) work.old log.old p work.new log.new result }
    ensures indexed { Indexed work.new result.end newest.new }
{
    let choice = Placed {
        literals,
        below,
        places,
    };
    let q = replace_all(work, newest, log, p, start, &choice, list);
    delete_literals(work, newest, log, q, &choice)
}
