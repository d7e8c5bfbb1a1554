// The list of choices: the unique literal clauses of 5 to 64 literals, in a store of their own.
#![tactic(auto)]

ghost use Rattle.std.specs.Prelude.{◌≡◌, [], ◌∷◌, ◌+◌, ◌<◌, ◌≤◌, length, drop};
ghost use Rattle.definition.specs.Calls.{numbers_of};
ghost use Rattle.definition.specs.Counter.{choices};
ghost use Rattle.tables.specs.Sizes.{input_reach};
ghost use Rattle.store.specs.Store.{Formed, stored, Counted};
ghost use Rattle.progress.specs.Progress.{standing, Good};
ghost use Rattle.pass_choose.specs.Collecting.{if_choice, Joined, Collected};

use progress::Progress;

// Puts a choice at the end of the list; the result is the place past it.
fn append(chosen: &mut [i32], end: usize, clause: &[i32]) -> usize
    requires { (length clause.now ≤ 64) × (end + (length clause.now + 1) ≤ length chosen.old) }
    ensures { Joined (clause.now ∷ []) chosen.old end result chosen.new }
{
    store::append_clause(chosen, end, clause).unwrap_or(end)
}

// Puts a clause at the end of the list if it is a choice; the result is the place past the list.
fn collect_one(clause: &[i32], counts: &[u32], chosen: &mut [i32], end: usize) -> usize
    requires { end + numbers_of (if_choice counts.now clause.now) ≤ length chosen.old }
    ensures { Joined (if_choice counts.now clause.now) chosen.old end result chosen.new }
{
    if tables::is_choice(counts, clause) {
        append(chosen, end, clause)
    } else {
        end
    }
}

// Collects the choices of a store by the table of its counts; the result is the place past them.
fn collect_all(store: &[i32], counts: &[u32], chosen: &mut [i32]) -> usize
    requires { Counted input_reach store.now counts.now × (numbers_of (choices (stored store.now)) ≤ length chosen.old) }
    ensures { Collected (choices (stored store.now)) (length chosen.old) result chosen.new }
{
    let mut end = 0;
    for clause in store::standing(store) {
        end = collect_one(clause, counts, chosen, end);
    }
    end
}

// Collects the choices that stand in a workspace: unique literal clauses of 5 to 64 literals. The result is the place past them.
pub fn collect(work: &[i32], p: Progress, chosen: &mut [i32]) -> usize
    requires { Good input_reach [] work.now p × (numbers_of (choices (standing work.now p)) ≤ length chosen.old) }
    ensures { Collected (choices (standing work.now p)) (length chosen.old) result chosen.new }
{
    let end = p.end;
    let mut counts = [0u32; tables::INPUT_SIZE];
    store::count_all(&mut counts, &work[..end]);
    collect_all(&work[..end], &counts, chosen)
}
