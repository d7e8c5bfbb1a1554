// The result of a clause in order form: its negated choice literals replaced. Tested, and written behind the store.
#![tactic(auto)]

ghost use Rattle.std.specs.Prelude.{◌≡◌, ◌+◌, ◌≤◌, length, take, drop};
ghost use Rattle.std.specs.List.{list_any};
ghost use Rattle.std.proofs.lemmas.List.Edits.{sets};
ghost use Rattle.definition.specs.Literals.{opposed};
ghost use Rattle.definition.specs.Events.{Choice};
ghost use Rattle.definition.specs.Order.{replaced};
ghost use Rattle.theory_base.specs.Clauses.{Proper, FitAll};
ghost use Rattle.theory_counter.specs.Ready.{WellFormed};
ghost use Rattle.tables.specs.Sizes.{log_reach};
ghost use Rattle.tables.specs.Places.{Places};
ghost use Rattle.store.specs.Store.{entry};
ghost use Rattle.replacement.specs.Replaced.{with_place_marks, next_in, instead_by, choice_in, PlacedWell};

// ---- whether the result holds a literal and its negation: the clause holds the negations of two neighbours

// Marks the places of the negated choice literals of a clause.
fn mark_places(marks: &mut [bool], places: &[u32], clause: &[i32])
    ensures { marks.new ≡ with_place_marks places.now marks.old clause.now }
{
    for m in clause {
        slices::put(marks, tables::place_of(places, *m) as usize, true);
    }
}

// Whether a literal is a negated choice literal and the next place is marked.
fn has_next(marks: &[bool], places: &[u32], l: i32) -> bool
    ensures { result ≡ next_in places.now marks.now l }
{
    let place = tables::place_of(places, l) as usize;
    place != 0 && marks.get(place + 1).copied().unwrap_or(false)
}

// Whether a literal of a clause has its next place marked.
fn any_next(marks: &[bool], places: &[u32], clause: &[i32]) -> bool
    ensures { result ≡ list_any (next_in places.now marks.now) clause.now }
{
    clause.iter().any(|m| has_next(marks, places, *m))
}

// Whether the result of a clause of older variables holds a literal and its negation.
pub fn is_opposed(places: &[u32], clause: &[i32]) -> bool
    ensures { (k : Choice) → Places places.now k.literals → WellFormed k → length k.literals ≤ 64 → Proper clause.now → FitAll k.below clause.now → result ≡ opposed (replaced k clause.now) }
{
    let mut marks = [false; 66];
    mark_places(&mut marks, places, clause);
    any_next(&marks, places, clause)
}

// ---- the result, written behind the store

// Writes what stands for a literal whose negation has a place in a choice of `size` literals; the result is the place past it.
#[tactic(auto, unfolding(definition::specs::Lists::only_if), using(literals::proofs::Laws::signed_small))]
fn put_instead(work: &mut [i32], to: usize, l: i32, place: u32, size: u32, below: u32) -> usize
    requires place_bound { (place ≤ 64) × (below ≤ log_reach + 1) }
    requires place_in_bounds { to + length (instead_by size below l place) ≤ length work.old }
    ensures next { result ≡ to + length (instead_by size below l place) }
    ensures written { work.new ≡ sets work.old to (instead_by size below l place) }
{
    if place == 0 {
        work[to] = l;
        return to + 1;
    }
    let mut end = to;
    if 1 < place {
        work[end] = literals::signed(false, below + (place - 1));
        end += 1;
    }
    if place < size {
        work[end] = literals::signed(true, below + place);
        end += 1;
    }
    end
}

// A choice, and the table of its places.
#[derive(Clone, Copy)]
pub struct Placed<'a> {
    pub literals: &'a [i32],
    pub below: u32,
    pub places: &'a [u32],
}

// Writes the result of the n literals from a place on; the result is the place past it.
fn put_replaced(work: &mut [i32], to: usize, from: usize, n: usize, choice: &Placed) -> usize
    requires n_bound { (from + n ≤ to) × PlacedWell choice.now }
    requires work_in_bounds { to + length (replaced (choice_in choice.now) (take n (drop from work.old))) ≤ length work.old }
    ensures next { result ≡ to + length (replaced (choice_in choice.now) (take n (drop from work.old))) }
    ensures written { work.new ≡ sets work.old to (replaced (choice_in choice.now) (take n (drop from work.old))) }
{
    let size = choice.literals.len() as u32;
    let mut end = to;
    for i in 0..n {
        let l = work[from + i];
        let place = tables::place_of(choice.places, l);
        end = put_instead(work, end, l, place, size, choice.below);
    }
    end
}

// Writes the result's entry at the end of what is filled; the result is the place past it.
pub fn append_replaced(
    work: &mut [i32],
    end: usize,
    from: usize,
    n: usize,
    choice: &Placed,
) -> usize
    requires n_bound { (from + n ≤ end) × PlacedWell choice.now }
    requires work_in_bounds { end + length (entry (replaced (choice_in choice.now) (take n (drop from work.old)))) ≤ length work.old }
    ensures next { result ≡ end + length (entry (replaced (choice_in choice.now) (take n (drop from work.old)))) }
    ensures written { work.new ≡ sets work.old end (entry (replaced (choice_in choice.now) (take n (drop from work.old)))) }
{
    let first = end + 1;
    let next = put_replaced(work, first, from, n, choice);
    work[end] = literals::header(next - first);
    next
}
