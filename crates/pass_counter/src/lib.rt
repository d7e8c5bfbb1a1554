// Counter form of one choice over an indexed store.
#![tactic(auto)]

ghost use Rattle.std.specs.Prelude.{◌≡◌, [], ◌∷◌, ◌-◌, ◌≤◌, length, take, replicate};
ghost use Rattle.definition.specs.Lists.{for_from};
ghost use Rattle.definition.specs.Standing.{take_out};
ghost use Rattle.definition.specs.Counter.{counter, stage_2, stage_3};
ghost use Rattle.theory_base.specs.Clauses.{FitAll};
ghost use Rattle.tables.specs.Sizes.{input_reach};
ghost use Rattle.tables.specs.Places.{Small, Places};
ghost use Rattle.store.specs.Store.{stored};
ghost use Rattle.index.specs.Index.{Indexed};
ghost use Rattle.progress.specs.Growth.{GrowRoom, Grown};
ghost use Rattle.pairs.specs.Pairs.{slots, PairsTaken};
ghost use Rattle.pass_counter.specs.Choice.{ChoiceReady, Taken, SmallChoice, choice_in};
ghost use Rattle.pass_counter.specs.Links.{link_2, link_3};

use drat::ProofLine;
use progress::Progress;

// ---- the counter clauses

// A choice: its literals, and the variable before its first new one.
#[derive(Clone, Copy)]
struct Choice<'a> {
    literals: &'a [i32],
    below: u32,
}

// Adds the clauses of stage 2 of the literal at a place, from 2 on.
fn put_link_2(
    work: &mut [i32],
    newest: &mut [u32],
    log: &mut [u8],
    p: Progress,
    choice: &Choice,
    i: usize,
) -> Progress
    requires small { Small choice.now.literals.now choice.now.below × (2 ≤ i) × (i ≤ length choice.now.literals.now) }
    requires grow_room { GrowRoom (link_2 (choice_in choice.now) i) work.old newest.old p }
    ensures { Grown (link_2 (choice_in choice.now) i) work.old newest.old log.old p work.new newest.new log.new result }
{
    let n = choice.below + i as u32;
    let s = literals::signed(false, n);
    let not_s = literals::signed(true, n);
    let before = literals::signed(false, n - 1);
    let not_before = literals::signed(true, n - 1);
    let l = choice.literals[i - 1];
    let a = progress::add_clause(work, newest, log, p, &[not_s, before, l]);
    let b = progress::add_clause(work, newest, log, a, &[s, not_before]);
    progress::add_clause(work, newest, log, b, &[s, literals::negated(l)])
}

// Adds the clause of stage 3 of the literal at a place, from 2 on.
fn put_link_3(
    work: &mut [i32],
    newest: &mut [u32],
    log: &mut [u8],
    p: Progress,
    choice: &Choice,
    i: usize,
) -> Progress
    requires small { Small choice.now.literals.now choice.now.below × (2 ≤ i) × (i ≤ length choice.now.literals.now) }
    requires grow_room { GrowRoom (link_3 (choice_in choice.now) i) work.old newest.old p }
    ensures { Grown (link_3 (choice_in choice.now) i) work.old newest.old log.old p work.new newest.new log.new result }
{
    let not_l = literals::negated(choice.literals[i - 1]);
    let not_s = literals::signed(true, choice.below + i as u32 - 1);
    progress::add_clause(work, newest, log, p, &[not_l, not_s])
}

// Adds the clauses of stage 2 of the literals between the first and the last.
fn put_links_2(
    work: &mut [i32],
    newest: &mut [u32],
    log: &mut [u8],
    p: Progress,
    choice: &Choice,
) -> Progress
    requires small { SmallChoice choice.now }
    requires grow_room { GrowRoom (for_from 2 (length choice.now.literals.now - 2) (link_2 (choice_in choice.now))) work.old newest.old p }
    ensures { Grown (for_from 2 (length choice.now.literals.now - 2) (link_2 (choice_in choice.now))) work.old newest.old log.old p work.new newest.new log.new result }
{
    let mut q = p;
    for i in 2..choice.literals.len() {
        q = put_link_2(work, newest, log, q, choice, i);
    }
    q
}

// Adds the clauses of stage 3 but the last.
fn put_links_3(
    work: &mut [i32],
    newest: &mut [u32],
    log: &mut [u8],
    p: Progress,
    choice: &Choice,
) -> Progress
    requires small { SmallChoice choice.now }
    requires grow_room { GrowRoom (for_from 2 (length choice.now.literals.now - 1) (link_3 (choice_in choice.now))) work.old newest.old p }
    ensures { Grown (for_from 2 (length choice.now.literals.now - 1) (link_3 (choice_in choice.now))) work.old newest.old log.old p work.new newest.new log.new result }
{
    let mut q = p;
    for i in 2..=choice.literals.len() {
        q = put_link_3(work, newest, log, q, choice, i);
    }
    q
}

// Adds the clauses of stage 2.
fn put_stage_2(
    work: &mut [i32],
    newest: &mut [u32],
    log: &mut [u8],
    p: Progress,
    choice: &Choice,
) -> Progress
    requires small { SmallChoice choice.now }
    requires grow_room { GrowRoom (stage_2 (choice_in choice.now)) work.old newest.old p }
    ensures { Grown (stage_2 (choice_in choice.now)) work.old newest.old log.old p work.new newest.new log.new result }
{
    let s = literals::signed(false, choice.below + 1);
    let not_s = literals::signed(true, choice.below + 1);
    let l = choice.literals[0];
    let a = progress::add_clause(work, newest, log, p, &[not_s, l]);
    let b = progress::add_clause(work, newest, log, a, &[s, literals::negated(l)]);
    put_links_2(work, newest, log, b, choice)
}

// Adds the clauses of stage 3.
fn put_stage_3(
    work: &mut [i32],
    newest: &mut [u32],
    log: &mut [u8],
    p: Progress,
    choice: &Choice,
) -> Progress
    requires small { SmallChoice choice.now }
    requires grow_room { GrowRoom (stage_3 (choice_in choice.now)) work.old newest.old p }
    ensures { Grown (stage_3 (choice_in choice.now)) work.old newest.old log.old p work.new newest.new log.new result }
{
    let last = choice.literals.len() - 1;
    let s = literals::signed(false, choice.below + last as u32);
    let a = put_links_3(work, newest, log, p, choice);
    progress::add_clause(work, newest, log, a, &[s, choice.literals[last]])
}

// Adds the counter clauses of a choice.
fn put_counter(
    work: &mut [i32],
    newest: &mut [u32],
    log: &mut [u8],
    p: Progress,
    choice: &Choice,
) -> Progress
    requires small { SmallChoice choice.now }
    requires grow_room { GrowRoom (counter (choice_in choice.now)) work.old newest.old p }
    ensures { Grown (counter (choice_in choice.now)) work.old newest.old log.old p work.new newest.new log.new result }
{
    let q = put_stage_2(work, newest, log, p, choice);
    put_stage_3(work, newest, log, q, choice)
}

// ---- the choice

// Deletes the choice's own clause, and deletes and counts its pairs.
fn clear_store(
    work: &mut [i32],
    newest: &[u32],
    end: usize,
    choice: &[i32],
    places: &[u32],
    counts: &mut [u32],
)
    requires indexed_2 { Indexed work.old end newest.now × Places places.now choice.now × (counts.old ≡ replicate slots 0) }
    requires fit_all { FitAll input_reach choice.now × (1 ≤ length choice.now) × (length choice.now ≤ 64) }
    ensures taken { PairsTaken places.now (take_out choice.now (stored (take end work.old))) (take end work.new) counts.new }
    ensures indexed { Indexed work.new end newest.now }
{
    lookup::delete_clause(work, newest, end, choice);
    pairs::take_pairs(work, newest, end, places, choice, counts);
}

// Takes a choice: writes its counter clauses, deletes it and the copies of its pairs. The counts are zeros, and are so again at the end.
pub fn take_choice(
    work: &mut [i32],
    newest: &mut [u32],
    log: &mut [u8],
    p: Progress,
    literals: &[i32],
    below: u32,
    places: &[u32],
    counts: &mut [u32],
) -> Progress
    requires { ChoiceReady work.old newest.old p literals.now below × Places places.now literals.now × (counts.old ≡ replicate slots 0) }
    ensures taken { Taken work.old newest.old literals.now below log.old p work.new newest.new log.new result }
    ensures counts { counts.new ≡ replicate slots 0 }
{
    let end = p.end;
    clear_store(work, newest, end, literals, places, counts);
    let choice = Choice { literals, below };
    let a = put_counter(work, newest, log, p, &choice);
    let b = progress::record_line(log, a, ProofLine::Deletion(literals));
    let r = pairs::record_pairs(log, b, counts, literals);
    pairs::clear_counts(counts, literals);
    r
}
