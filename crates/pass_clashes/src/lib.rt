// Clearing clashes: a variable stands in one unique literal clause and its negation in another. One pass over the store marks the variables that clash; from then on marks are only cleared, and the lowest is next; its two clauses are looked up in the index. A table of weights of literals counts the input clauses of each clause that stands.
#![tactic(auto)]

ghost use Rattle.std.specs.Prelude.{◌≡◌, true, false, [], ◌∷◌, ◌+◌, ◌≤◌, ◌<◌, ◌^◌, ltb, pos, nat_abs, length, take, drop, get_or, set, replicate};
ghost use Rattle.std.proofs.lemmas.List.Edits.{sets};
ghost use Rattle.std.specs.List.{list_any};
ghost use Rattle.definition.specs.Lists.{any};
ghost use Rattle.definition.specs.Literals.{without, opposed};
ghost use Rattle.definition.specs.Events.{clash_cleared};
ghost use Rattle.definition.specs.Clearing.{clear_clashes, resolvent};
ghost use Rattle.definition.specs.Reencoding.{resolved_into};
ghost use Rattle.theory_base.specs.Clauses.{ProperAll, FitAll};
ghost use Rattle.theory_clearing.specs.Clashing.{clashes};
ghost use Rattle.literals.specs.Literal.{signed_of, index_of};
ghost use Rattle.tables.specs.Sizes.{input_reach, input_size};
ghost use Rattle.tables.specs.Entries.{entry_of, tallied, with_entries};
ghost use Rattle.marks.specs.Marks.{input_words};
ghost use Rattle.store.specs.Store.{Formed, stored, entry, clause_at, Counted};
ghost use Rattle.index.specs.Index.{Indexed};
ghost use Rattle.progress.specs.Progress.{LogRoom, standing, Good, Runs};
ghost use Rattle.progress.specs.Growth.{Grown};
ghost use Rattle.pass_clashes.specs.Marking.{both, MarkedBoth, Unmarked, unique_part, MarksClashes};
ghost use Rattle.pass_clashes.specs.Clashes.{clash_there, Clashing};
ghost use Rattle.pass_clashes.specs.Resolving.{opposite_in, part_without, Copied, joined, Joinable, added_by, parent_lines, Resolvable, Parents, ParentsGone, Ended};
ghost use Rattle.pass_clashes.specs.Weights.{Weighed, reweighed, weight, Light, Reweighs};
ghost use Rattle.pass_clashes.specs.Scan.{ClashReady, Searching, Scanned, turns_left};

use progress::Progress;

// ---- marks of the variables that clash: a table has for each literal whether it stands in a unique literal clause

// Whether the table has a variable or its negation.
fn is_in(table: &[u32], is_negative: bool, v: u32) -> bool
    ensures { result ≡ ltb 0 (entry_of table.now (signed_of is_negative v)) }
{
    0 < tables::entry_of(table, literals::signed(is_negative, v))
}

// Whether the table has a variable and its negation.
fn is_both(table: &[u32], v: u32) -> bool
    ensures { result ≡ both table.now v }
{
    is_in(table, false, v) && is_in(table, true, v)
}

// Marks the variable of a literal if the table has it with both signs.
fn mark_variable(marks: &mut [u32], table: &[u32], l: i32)
    requires { (nat_abs l ≤ input_reach) × (length marks.old ≡ input_words) }
    ensures { MarkedBoth marks.old table.now (l ∷ []) marks.new }
{
    let v = literals::variable(l);
    if is_both(table, v) {
        marks::set(marks, v);
    }
}

// Marks the variables of a clause that the table has with both signs.
fn mark_variables(marks: &mut [u32], table: &[u32], clause: &[i32])
    requires { FitAll input_reach clause.now × (length marks.old ≡ input_words) }
    ensures { MarkedBoth marks.old table.now clause.now marks.new }
{
    for l in clause {
        mark_variable(marks, table, *l);
    }
}

// Takes in a clause if it is a unique literal clause: its literals into the table, and marks.
fn mark_clause(marks: &mut [u32], table: &mut [u32], counts: &[u32], clause: &[i32])
    requires { FitAll input_reach (unique_part counts.now clause.now) × (length marks.old ≡ input_words) }
    ensures table { table.new ≡ with_entries table.old (unique_part counts.now clause.now) 1 }
    ensures marks { MarkedBoth marks.old table.new (unique_part counts.now clause.now) marks.new }
{
    if tables::is_unique(counts, clause) {
        tables::set_entries(table, clause, 1);
        mark_variables(marks, table, clause);
    }
}

// Marks the variables that clash, by the table of counts.
fn mark_all(marks: &mut [u32], table: &mut [u32], counts: &[u32], store: &[i32])
    requires counted { Counted input_reach store.now counts.now × ProperAll (stored store.now) }
    requires marks_value { (marks.old ≡ replicate input_words 0) × (table.old ≡ replicate input_size 0) }
    ensures { MarksClashes (stored store.now) marks.new }
{
    for clause in store::standing(store) {
        mark_clause(marks, table, counts, clause);
    }
}

// Marks the variables that clash.
fn mark_clashes(marks: &mut [u32], work: &[i32], p: Progress)
    requires { Good input_reach [] work.now p × (marks.old ≡ replicate input_words 0) }
    ensures { MarksClashes (standing work.now p) marks.new }
{
    let end = p.end;
    let mut counts = [0u32; tables::INPUT_SIZE];
    let mut table = [0u32; tables::INPUT_SIZE];
    store::count_all(&mut counts, &work[..end]);
    mark_all(marks, &mut table, &counts, &work[..end]);
}

// Clears the marks of a clause's variables.
fn unmark_variables(marks: &mut [u32], clause: &[i32])
    ensures { Unmarked marks.old clause.now marks.new }
{
    for l in clause {
        marks::clear(marks, literals::variable(*l));
    }
}

// ---- the clauses of a clash

// A clash: its variable, and where its two clauses are, the one with the variable and the one with its negation.
#[derive(Clone, Copy)]
pub struct Clash {
    pub v: u32,
    pub one: usize,
    pub other: usize,
}

// The clash of a variable, with the places of its clauses.
fn find_clash(work: &[i32], newest: &[u32], end: usize, v: u32) -> Clash
    requires { Indexed work.now end newest.now × (v ≤ input_reach) }
    ensures variable { result.v ≡ v }
    ensures places { clashes (stored (take end work.now)) v ≡ true → Clashing (take end work.now) v result.one result.other }
{
    Clash {
        v,
        one: lookup::place_with(work, newest, end, literals::signed(false, v)),
        other: lookup::place_with(work, newest, end, literals::signed(true, v)),
    }
}

// ---- the resolvent

// Whether the negation of a literal is counted, and the literal is not the one left out.
fn is_opposite(table: &[u32], gone: i32, l: i32) -> bool
    ensures { result ≡ opposite_in table.now gone l }
{
    gone != l && !tables::is_pure(table, l)
}

// Whether the negation of a literal of a clause, without one literal, is counted.
fn any_opposite(table: &[u32], gone: i32, clause: &[i32]) -> bool
    ensures { result ≡ list_any (opposite_in table.now gone) clause.now }
{
    clause.iter().any(|l| is_opposite(table, gone, *l))
}

// Whether a clause, without -v, has a literal whose negation is in another clause. The table of zeros is lent.
fn is_opposed(table: &mut [u32], one: &[i32], v: u32, other: &[i32]) -> bool
    requires { table.old ≡ replicate input_size 0 }
    ensures answer { result ≡ any (opposite_in (tallied (replicate input_size 0) one.now) (signed_of true v)) other.now }
    ensures table { table.new ≡ replicate input_size 0 }
{
    tables::count_clause(table, one);
    let is_there = any_opposite(table, literals::signed(true, v), other);
    tables::set_entries(table, one, 0);
    is_there
}

// Copies an element down the list unless it is the literal left out; the result is the place past it.
fn copy_one(work: &mut [i32], to: usize, from: usize, gone: i32) -> usize
    requires { (from < length work.old) × (to + length (without gone (get_or work.old from (pos 0) ∷ [])) ≤ length work.old) }
    ensures next { result ≡ to + length (without gone (get_or work.old from (pos 0) ∷ [])) }
    ensures copied { work.new ≡ sets work.old to (without gone (get_or work.old from (pos 0) ∷ [])) }
{
    let l = work[from];
    if gone == l {
        return to;
    }
    work[to] = l;
    to + 1
}

// A part of the list: where it begins, and how many elements it has.
#[derive(Clone, Copy)]
struct Part {
    from: usize,
    len: usize,
}

// Copies a part further on, without a literal; the result is the place past it.
fn copy_without(work: &mut [i32], to: usize, part: Part, gone: i32) -> usize
    requires { (part.from + part.len ≤ to) × (to + length (part_without work.old part.from part.len gone) ≤ length work.old) }
    ensures { Copied work.old to part.from part.len gone work.new result }
{
    let mut end = to;
    for i in 0..part.len {
        end = copy_one(work, end, part.from + i, gone);
    }
    end
}

// Writes the entry of a resolvent at the end of what is filled: the literals of one clause without v, then those of the other without -v.
fn append_resolvent(work: &mut [i32], end: usize, one: Part, other: Part, v: u32) -> usize
    requires { Joinable work.old end one.from one.len other.from other.len v }
    ensures next { result ≡ end + (length (joined work.old one.from one.len other.from other.len v) + 1) }
    ensures written { work.new ≡ sets work.old end (entry (joined work.old one.from one.len other.from other.len v)) }
{
    let first = end + 1;
    let c = copy_without(work, first, one, literals::signed(false, v));
    let d = copy_without(work, c, other, literals::signed(true, v));
    work[end] = literals::header(d - first);
    d
}

// Whether the resolvent of a clash has a literal and its negation.
fn is_tautology(table: &mut [u32], store: &[i32], clash: Clash) -> bool
    requires { Parents store.now clash.v clash.one clash.other × (length store.now < 2 ^ 31) × (table.old ≡ replicate input_size 0) }
    ensures answer { result ≡ opposed (resolvent (clash_there store.now clash.v clash.one clash.other)) }
    ensures table { table.new ≡ replicate input_size 0 }
{
    let one = store::clause_at(store, clash.one);
    let other = store::clause_at(store, clash.other);
    is_opposed(table, one, clash.v, other)
}

// ---- one clash

// Adds the resolvent of a clash, which is no tautology, and records it.
fn add_resolvent(
    work: &mut [i32],
    newest: &mut [u32],
    log: &mut [u8],
    p: Progress,
    clash: Clash,
) -> Progress
    requires resolvable { Resolvable work.old newest.old p clash.v clash.one clash.other }
    requires y_value { opposed (resolvent (clash_there (take p.end work.old) clash.v clash.one clash.other)) ≡ false }
    ensures { Grown (added_by (clash_there (take p.end work.old) clash.v clash.one clash.other)) work.old newest.old log.old p work.new newest.new log.new result }
{
    let a = clash.one + 1;
    let b = clash.other + 1;
    let one = Part {
        from: a,
        len: store::next_at(work, clash.one) - a,
    };
    let other = Part {
        from: b,
        len: store::next_at(work, clash.other) - b,
    };
    let next = append_resolvent(work, p.end, one, other, clash.v);
    progress::record_added(work, newest, log, p, next)
}

// Deletes the two clauses of a clash, each recorded with the clash's literal first.
fn delete_parents(store: &mut [i32], log: &mut [u8], p: Progress, clash: Clash) -> Progress
    requires parents { Parents store.old clash.v clash.one clash.other }
    requires log_room { LogRoom (parent_lines (clash_there store.old clash.v clash.one clash.other)) p }
    ensures { ParentsGone (clash_there store.old clash.v clash.one clash.other) store.old log.old p store.new log.new result }
{
    let q = progress::delete_first(store, clash.one, log, p, literals::signed(false, clash.v));
    progress::delete_first(store, clash.other, log, q, literals::signed(true, clash.v))
}

// Clears the marks of the variables of the clause at a place.
fn unmark_entry(marks: &mut [u32], store: &[i32], at: usize)
    requires { (at < length store.now) × Formed (drop at store.now) }
    ensures { Unmarked marks.old (clause_at store.now at) marks.new }
{
    unmark_variables(marks, store::clause_at(store, at));
}

// Takes the weight of a variable or its negation away; the result is what it was.
fn take_weight(weights: &mut [u32], is_negative: bool, v: u32) -> u32
    ensures answer { result ≡ entry_of weights.old (signed_of is_negative v) }
    ensures taken { weights.new ≡ set weights.old (index_of (signed_of is_negative v)) 0 }
{
    let l = literals::signed(is_negative, v);
    let n = tables::entry_of(weights, l);
    tables::set_entry(weights, l, 0);
    n
}

// Gives the first literal of a resolvent, if it has one, the weights of v and -v, and 1.
fn weigh(weights: &mut [u32], clause: &[i32], v: u32)
    requires { weight weights.old < 2 ^ 31 }
    ensures { weights.new ≡ reweighed weights.old clause.now v }
{
    if let Some(first) = clause.first() {
        let a = take_weight(weights, false, v);
        let b = take_weight(weights, true, v);
        let n = tables::entry_of(weights, *first);
        tables::set_entry(weights, *first, a + b + n + 1);
    }
}

// Clears a clash, and the marks of the clashes that end with it: its own; where the resolvent is not added, those of all variables of the two clauses. A resolvent that is added is weighed.
fn resolve(
    work: &mut [i32],
    newest: &mut [u32],
    table: &mut [u32],
    weights: &mut [u32],
    log: &mut [u8],
    marks: &mut [u32],
    p: Progress,
    clash: Clash,
) -> Progress
    requires { Resolvable work.old newest.old p clash.v clash.one clash.other × (table.old ≡ replicate input_size 0) × Light (standing work.old p) weights.old }
    ensures runs { Runs (clash_cleared (clash_there (take p.end work.old) clash.v clash.one clash.other) ∷ []) work.old log.old p work.new log.new result }
    ensures ended { Ended (clash_there (take p.end work.old) clash.v clash.one clash.other) marks.old marks.new }
    ensures indexed { Indexed work.new result.end newest.new }
    ensures table { table.new ≡ replicate input_size 0 }
    ensures weights { Reweighs (clash_cleared (clash_there (take p.end work.old) clash.v clash.one clash.other) ∷ []) (standing work.old p) weights.old (standing work.new result) weights.new }
{
    let end = p.end;
    if is_tautology(table, &work[..end], clash) {
        unmark_entry(marks, &work[..end], clash.one);
        unmark_entry(marks, &work[..end], clash.other);
        return delete_parents(&mut work[..end], log, p, clash);
    }
    marks::clear(marks, clash.v);
    let q = add_resolvent(work, newest, log, p, clash);
    let grown = q.end;
    let first = end + 1;
    weigh(weights, &work[first..grown], clash.v);
    delete_parents(&mut work[..grown], log, q, clash)
}

// ---- all clashes

// How far the search for marks is: what is done, and the word of the last mark found, or the number of words where none is left.
#[derive(Clone, Copy)]
pub struct Scan {
    pub progress: Progress,
    pub word: usize,
}

// Clears the clash of the lowest mark, if there is one.
fn clear_next(
    work: &mut [i32],
    newest: &mut [u32],
    table: &mut [u32],
    weights: &mut [u32],
    log: &mut [u8],
    marks: &mut [u32],
    s: Scan,
    step: usize,
) -> Scan
    requires { Searching step work.old newest.old table.old weights.old marks.old s × (s.word < length marks.old) }
    ensures scanned { Scanned step work.old weights.old log.old s work.new newest.new table.new weights.new log.new marks.new result }
    ensures fewer { turns_left work.new result < turns_left work.old s }
{
    let before = s.progress;
    match marks::lowest_from(marks, s.word) {
        Some(v) => {
            let p = progress::make_room(work, newest, before, step);
            let end = p.end;
            let clash = find_clash(work, newest, end, v);
            Scan {
                progress: resolve(work, newest, table, weights, log, marks, p, clash),
                word: marks::word_of(v),
            }
        }
        None => Scan {
            progress: before,
            word: marks.len(),
        },
    }
}

// Clears the clashes of the marked variables, the lowest first.
fn clear_marked(
    work: &mut [i32],
    newest: &mut [u32],
    table: &mut [u32],
    weights: &mut [u32],
    log: &mut [u8],
    marks: &mut [u32],
    p: Progress,
    step: usize,
) -> Progress
    requires clash_ready { ClashReady step (clear_clashes (standing work.old p)) work.old p × Indexed work.old p.end newest.old × (table.old ≡ replicate input_size 0) × (weights.old ≡ replicate input_size 0) }
    requires marks_clashes { MarksClashes (standing work.old p) marks.old × (length marks.old ≡ input_words) }
    ensures runs { Runs (clear_clashes (standing work.old p)) work.old log.old p work.new log.new result }
    ensures indexed { Indexed work.new result.end newest.new }
    ensures table { table.new ≡ replicate input_size 0 }
    ensures weighed { Weighed (resolved_into (λ d. 1) (clear_clashes (standing work.old p))) (length (standing work.old p)) (standing work.new result) weights.new }
{
    let mut s = Scan {
        progress: p,
        word: 0,
    };
    // no loop over the words, since the lowest mark left may be in the same word
    while s.word < marks.len() {
        s = clear_next(work, newest, table, weights, log, marks, s, step);
    }
    s.progress
}

// Clears all clashes of the store, the lowest variable first. There is room for what stands and so many elements more; a table of zeros is lent, and another takes the weights by which the input clauses of each clause are counted.
pub fn clear_clashes(
    work: &mut [i32],
    newest: &mut [u32],
    table: &mut [u32],
    weights: &mut [u32],
    log: &mut [u8],
    p: Progress,
    step: usize,
) -> Progress
    requires { ClashReady step (clear_clashes (standing work.old p)) work.old p × Indexed work.old p.end newest.old × (table.old ≡ replicate input_size 0) × (weights.old ≡ replicate input_size 0) }
    ensures runs { Runs (clear_clashes (standing work.old p)) work.old log.old p work.new log.new result }
    ensures indexed { Indexed work.new result.end newest.new }
    ensures table { table.new ≡ replicate input_size 0 }
    ensures weighed { Weighed (resolved_into (λ d. 1) (clear_clashes (standing work.old p))) (length (standing work.old p)) (standing work.new result) weights.new }
{
    let mut marks = [0u32; marks::INPUT_WORDS];
    mark_clashes(&mut marks, work, p);
    clear_marked(work, newest, table, weights, log, &mut marks, p, step)
}
