// Clauses looked up by a literal in the index: one that stands, the first with some literals, those with a negated literal of a choice in list order.
#![tactic(auto)]

ghost use Rattle.std.specs.Prelude.{◌≡◌, ℕ, ◌+◌, ◌*◌, ◌≤◌, ◌<◌, ◌^◌, nat_abs, pos, length, take, drop, get_or};
ghost use Rattle.definition.specs.Clearing.{times};
ghost use Rattle.theory_base.specs.Clauses.{FitAll};
ghost use Rattle.store.specs.Store.{stored, place_of};
ghost use Rattle.tables.specs.Sizes.{log_reach};
ghost use Rattle.index.specs.Index.{node_place, Indexed};
ghost use Rattle.index.specs.Reading.{FoundWith};
ghost use Rattle.lookup.specs.Lookup.{DeletedBy, touched_places, Gatherable};
ghost use Rattle.lookup.specs.Cursors.{node_stands, shown_place, Readable, AllReadable, Moved, Placed, Searchable, Starts, Steps, Latest};

// ---- a clause that stands

// Whether the clause at a node stands and is before a place.
fn stands_before(work: &[i32], node: usize, before: usize) -> bool
    requires { (1 ≤ node) × (2 * node ≤ length work.now) × (node_place work.now node < length work.now) }
    ensures { result ≡ node_stands work.now node before }
{
    let at = index::place_at(work, node);
    if literals::is_negative(work[at]) {
        return false;
    }
    at < before
}

// The node, or the first older one with the same literal, whose clause stands and is before a place; 0 where there is none.
fn standing_before(work: &[i32], node: usize, before: usize) -> usize
    requires { Readable work.now node }
    ensures { Moved work.now node before result }
{
    let mut t = node;
    // a linked list by index
    while 0 < t {
        if stands_before(work, t, before) {
            return t;
        }
        t = index::older(work, t);
    }
    0
}

// The place of the last standing clause that holds a literal, if there is one.
pub fn place_with(work: &[i32], newest: &[u32], end: usize, l: i32) -> usize
    requires { Indexed work.now end newest.now × (nat_abs l ≤ log_reach) }
    ensures { 1 ≤ times l (stored (take end work.now)) → FoundWith l (take end work.now) result }
{
    let node = standing_before(work, index::last_node(newest, l), end);
    if node == 0 {
        return end;
    }
    index::place_at(work, node)
}

// ---- the first clause with some literals

// The place of the first standing clause with the same set of literals: of those with its first literal, the last that is read.
fn find(work: &[i32], newest: &[u32], end: usize, clause: &[i32]) -> Option<usize>
    requires { Indexed work.now end newest.now × (1 ≤ length clause.now) × (nat_abs (get_or clause.now 0 (pos 0)) ≤ log_reach) }
    ensures { result ≡ place_of clause.now (take end work.now) }
{
    let mut best = None;
    let mut node = index::last_node(newest, clause[0]);
    // a linked list by index
    while 0 < node {
        let at = index::place_at(work, node);
        best = store::better(&work[..end], at, clause, best);
        node = index::older(work, node);
    }
    best
}

// Deletes the first standing clause with the same set of literals, if there is one.
pub fn delete_clause(work: &mut [i32], newest: &[u32], end: usize, clause: &[i32])
    requires { Indexed work.old end newest.now × (1 ≤ length clause.now) × (nat_abs (get_or clause.now 0 (pos 0)) ≤ log_reach) }
    ensures { DeletedBy clause.now work.old end newest.now work.new }
{
    if let Some(at) = find(work, newest, end, clause) {
        store::mark_deleted(work, at);
    }
}

// ---- the clauses with a negated literal of a choice: a cursor for each literal, all moved towards the list's start

// A node, and the place of its clause and one more.
#[derive(Clone, Copy)]
struct Cursor {
    node: u32,
    place: u32,
}

const NOWHERE: Cursor = Cursor { node: 0, place: 0 };

// The cursor at the first node, from one on, whose clause stands and is before a place.
fn cursor_before(work: &[i32], node: usize, before: usize) -> Cursor
    requires { Readable work.now node }
    ensures { Placed work.now node before result }
{
    let t = standing_before(work, node, before);
    if t == 0 {
        return NOWHERE;
    }
    let place = index::place_at(work, t) + 1;
    Cursor {
        node: t as u32,
        place: place as u32,
    }
}

// Puts a cursor for each literal of a choice to the last clause before `start` with its negation.
fn start_cursors(work: &[i32], newest: &[u32], start: usize, choice: &[i32], cursors: &mut [Cursor])
    requires searchable { Searchable work.now newest.now × FitAll log_reach choice.now }
    requires one_each { length cursors.old ≡ length choice.now }
    ensures { Starts work.now newest.now start choice.now cursors.new }
{
    for (i, l) in choice.iter().enumerate() {
        let node = index::last_node(newest, literals::negated(*l));
        cursors[i] = cursor_before(work, node, start);
    }
}

// Moves on the cursors whose clause is the one before `next`.
fn step_cursors(work: &[i32], next: usize, cursors: &mut [Cursor])
    requires { (0 < next) × AllReadable work.now cursors.old }
    ensures { Steps work.now next cursors.old cursors.new }
{
    for cursor in cursors.iter_mut() {
        if cursor.place as usize == next {
            *cursor = cursor_before(work, cursor.node as usize, next - 1);
        }
    }
}

// The greatest place that a cursor shows.
fn latest(cursors: &[Cursor]) -> usize
    ensures { Latest (length cursors.now) cursors.now result }
{
    let mut most = 0;
    for cursor in cursors {
        most = most.max(cursor.place);
    }
    most as usize
}

// Gathers as below, with a cursor for each literal.
fn gather_by(
    work: &[i32],
    newest: &[u32],
    end: usize,
    start: usize,
    choice: &[i32],
    list: &mut [u32],
    cursors: &mut [Cursor],
) -> usize
    requires gatherable { Gatherable work.now end newest.now start choice.now list.old }
    requires one_each { length cursors.old ≡ length choice.now }
    ensures { drop result list.new ≡ touched_places choice.now (take start work.now) }
{
    start_cursors(work, newest, start, choice, cursors);
    let mut to = list.len();
    let mut next = latest(cursors);
    // ends when no cursor is at a clause
    while 0 < next {
        to -= 1;
        list[to] = (next - 1) as u32;
        step_cursors(work, next, cursors);
        next = latest(cursors);
    }
    to
}

// Writes the places of the standing clauses before `start` that hold a negated literal of a choice to the end of a list, in list order; the result is where they begin.
pub fn gather(
    work: &[i32],
    newest: &[u32],
    end: usize,
    start: usize,
    choice: &[i32],
    list: &mut [u32],
) -> usize
    requires { Gatherable work.now end newest.now start choice.now list.old }
    ensures { drop result list.new ≡ touched_places choice.now (take start work.now) }
{
    let mut cursors = [NOWHERE; 64];
    let used = &mut cursors[..choice.len()];
    gather_by(work, newest, end, start, choice, list, used)
}
