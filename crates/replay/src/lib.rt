// Lines replayed over a store, with an index of its clauses by key.
#![tactic(auto)]

ghost use Rattle.std.specs.Prelude.{◌≡◌, ◌+◌, ◌≤◌, ◌<◌, ◌^◌, length, get_or, set, take, drop, IfSome};
ghost use Rattle.std.proofs.lemmas.List.Edits.{sets};
ghost use Rattle.definition.specs.Standing.{deletion, replay_line, replay as replay_all};
ghost use Rattle.definition.specs.LogReading.{numbers_in};
ghost use Rattle.theory_base.specs.Slices.{between};
ghost use Rattle.literals.specs.Literal.{header_of};
ghost use Rattle.store.specs.Store.{Formed, stored, entry, size_at, place_of};
ghost use Rattle.drat.specs.Loaded.{lines_in, line_at, past_line};
ghost use Rattle.replay.specs.Index.{keys, lowest_index, greatest_index, key_of, key_at, store_in, Indexed, Linkable, Linked};
ghost use Rattle.replay.specs.Replayed.{Replayable, LaidOut, ClauseAdded, Replays};

// ---- an index of the clauses by key: a table of the last entry of each key, and a link from each entry to the one before it with the same key

// How many keys there are, and the greatest index that counts.
const KEYS: usize = tables::LOG_SIZE;

const LAST: usize = tables::LOG_SIZE - 1;

// The lowest index of a clause's literals, no more than the last that counts.
fn lowest(clause: &[i32]) -> usize
    ensures { result ≡ lowest_index clause.now }
{
    clause
        .iter()
        .fold(LAST, |low, l| low.min(literals::literal_index(*l)))
}

// The greatest index of a clause's literals, counted up to the last that counts.
fn greatest(clause: &[i32]) -> usize
    ensures { result ≡ greatest_index clause.now }
{
    clause
        .iter()
        .fold(0, |top, l| top.max(literals::literal_index(*l)))
        .min(LAST)
}

// The key of a clause, from both ends, so that clauses with one literal in common mostly differ.
fn key_of(clause: &[i32]) -> usize
    ensures key { result ≡ key_of clause.now }
    ensures within { result < keys }
{
    let low = lowest(clause);
    let top = greatest(clause);
    (613 * low + top) % KEYS
}

// The key of the clause at a place.
fn key_at(store: &[i32], at: usize) -> usize
    requires { (at < length store.now) × Formed (drop at store.now) }
    ensures key { result ≡ key_at store.now at }
    ensures within { result < keys }
{
    key_of(store::clause_at(store, at))
}

// Where a store lies in a slice, and where the links of its index begin behind it.
#[derive(Clone, Copy)]
struct Layout {
    store: usize,
    end: usize,
    links: usize,
}

// Enters the clause at a place of a store in the index: it becomes the last one of its key.
fn index_entry(work: &mut [i32], heads: &mut [usize], layout: Layout, at: usize)
    requires { (layout.store + at < layout.end) × (layout.end ≤ layout.links) × (layout.links + at < length work.old) × (length heads.old ≡ keys) × Formed (drop at (store_in layout work.old)) }
    ensures linked { work.new ≡ set work.old (layout.links + at) (header_of (get_or heads.old (key_at (store_in layout work.old) at) 0)) }
    ensures newest { heads.new ≡ set heads.old (key_at (store_in layout work.old) at) (at + 1) }
{
    let key = key_at(&work[layout.store..layout.end], at);
    work[layout.links + at] = literals::header(heads[key]);
    heads[key] = at + 1;
}

// Enters the clauses of a store in an empty index.
fn index_all(work: &mut [i32], heads: &mut [usize], layout: Layout)
    requires { Linkable work.old heads.old layout }
    ensures linked { Linked work.new heads.new layout }
    ensures kept { take layout.links work.new ≡ take layout.links work.old }
{
    let n = layout.end - layout.store;
    let mut at = 0;
    // A walk over entries of different lengths, which writes a link for each.
    while at < n {
        index_entry(work, heads, layout, at);
        at = store::next_at(&work[layout.store..layout.end], at);
    }
}

// The place of the first standing clause with the same set of literals, by the links of its key.
fn find_linked(store: &[i32], links: &[i32], heads: &[usize], clause: &[i32]) -> Option<usize>
    requires { Formed store.now × (length store.now ≤ length links.now) × (length heads.now ≡ keys) × Indexed store.now (length store.now) links.now heads.now }
    ensures { result ≡ place_of clause.now store.now }
{
    let mut best = None;
    let mut p = heads[key_of(clause)];
    // A linked list by index, from the last entry of the key to the first.
    while 0 < p {
        let at = p - 1;
        best = store::better(store, at, clause, best);
        p = literals::header_length(links[at]);
    }
    best
}

// The place of the first standing clause with the same set of literals; without the index where links may not fit.
fn find_clause(work: &[i32], heads: &[usize], layout: Layout, clause: &[i32]) -> Option<usize>
    requires { Linked work.now heads.now layout }
    ensures { result ≡ place_of clause.now (store_in layout work.now) }
{
    let store = &work[layout.store..layout.end];
    if 2147483647 < layout.links - layout.store {
        return store::find_same_set(store, clause);
    }
    find_linked(store, &work[layout.links..], heads, clause)
}

// ---- replaying the lines: the place past what stands, or none for a deletion without its clause

// Adds the clause of n literals from first on to what stands before a place.
fn append_part(work: &mut [i32], end: usize, first: usize, n: usize) -> usize
    requires { (first + n ≤ end) × (end + (n + 1) ≤ length work.old) }
    ensures next { result ≡ end + (n + 1) }
    ensures written { work.new ≡ sets work.old end (entry (take n (drop first work.old))) }
{
    work.copy_within(first..first + n, end + 1);
    work[end] = literals::header(n);
    end + (n + 1)
}

// Adds the clause of n literals from first on to what stands in a store, and to the index.
fn add_part(work: &mut [i32], heads: &mut [usize], layout: Layout, first: usize, n: usize) -> usize
    requires { (first + n ≤ layout.store) × (layout.end + (n + 1) ≤ layout.links) × (n < 2 ^ 31) × Linked work.old heads.old layout }
    ensures added { ClauseAdded work.old layout (take n (drop first work.old)) result work.new }
    ensures linked { Linked work.new heads.new (record layout { end = result }) }
{
    let end = append_part(work, layout.end, first, n);
    let longer = Layout { end, ..layout };
    index_entry(work, heads, longer, layout.end - layout.store);
    end
}

// Deletes the clause of n literals from first on from what stands in a store.
fn delete_part(
    work: &mut [i32],
    heads: &[usize],
    layout: Layout,
    first: usize,
    n: usize,
) -> Option<usize>
    requires { (first + n ≤ layout.store) × Linked work.old heads.now layout }
    ensures result { Replays (replay_line (stored (store_in layout work.old)) (deletion (take n (drop first work.old)))) layout.store layout.end result work.new }
    ensures kept { take layout.store work.new ≡ take layout.store work.old }
    ensures linked { IfSome result (λ end. Linked work.new heads.now (record layout { end = end })) }
{
    let all = &work[..];
    let at = find_clause(all, heads, layout, &all[first..first + n])?;
    store::mark_deleted(work, layout.store + at);
    Some(layout.end)
}

// Replays the line at a place over what stands in a store.
fn replay_line(work: &mut [i32], heads: &mut [usize], at: usize, layout: Layout) -> Option<usize>
    requires { (past_line work.old at ≤ layout.store) × (layout.end + (size_at work.old at + 1) ≤ layout.links) × Linked work.old heads.old layout }
    ensures result { Replays (replay_line (stored (store_in layout work.old)) (line_at work.old at)) layout.store (layout.end + (size_at work.old at + 1)) result work.new }
    ensures kept { take layout.store work.new ≡ take layout.store work.old }
    ensures linked { IfSome result (λ end. Linked work.new heads.new (record layout { end = end })) }
{
    let n = literals::header_length(work[at]);
    let first = at + 1;
    if literals::is_negative(work[at]) {
        return delete_part(work, heads, layout, first, n);
    }
    Some(add_part(work, heads, layout, first, n))
}

// Replays the lines that lie from a place on before a store over what stands there, with its index.
fn replay_lines(
    work: &mut [i32],
    heads: &mut [usize],
    lines: usize,
    layout: Layout,
) -> Option<usize>
    requires { LaidOut work.old lines layout × (layout.end + numbers_in (lines_in (between lines layout.store work.old)) ≤ layout.links) × Linked work.old heads.old layout }
    ensures result { Replays (replay_all (stored (store_in layout work.old)) (lines_in (between lines layout.store work.old))) layout.store (length work.old) result work.new }
    ensures kept { take layout.store work.new ≡ take layout.store work.old }
{
    let mut end = layout.end;
    let mut at = lines;
    // A walk over lines of different lengths, which writes what each leaves.
    while at < layout.store {
        let past = store::next_at(work, at) + 1;
        end = replay_line(work, heads, at, Layout { end, ..layout })?;
        at = past;
    }
    Some(end)
}

// Replays the lines at n..m over a copy of the formula before n, which is made behind the lines; the links of the index begin in the
// middle of the room there.
pub fn replay(work: &mut [i32], n: usize, m: usize) -> Option<usize>
    requires { Replayable work.old n m }
    ensures result { Replays (replay_all (stored (take n work.old)) (lines_in (between n m work.old))) m (length work.old) result work.new }
    ensures kept { take m work.new ≡ take m work.old }
{
    work.copy_within(..n, m);
    let mut heads = [0usize; KEYS];
    let layout = Layout {
        store: m,
        end: m + n,
        links: m + (work.len() - m) / 2,
    };
    index_all(work, &mut heads, layout);
    replay_lines(work, &mut heads, n, layout)
}
