// Clauses found by literal: nodes at the workspace's end, two elements for each literal of the store at its start, and a table of each literal's last node.
#![tactic(auto)]

ghost use Rattle.std.specs.Prelude.{◌≡◌, ◌+◌, ◌-◌, ◌*◌, ◌≤◌, ◌<◌, ◌^◌, length, take};
ghost use Rattle.theory_base.specs.Cells.{cells_of};
ghost use Rattle.tables.specs.Sizes.{log_size};
ghost use Rattle.tables.specs.Entries.{entry_of};
ghost use Rattle.tables.specs.Stamps.{AtMost};
ghost use Rattle.store.specs.Store.{Formed, stored, past};
ghost use Rattle.index.specs.Index.{nodes as nodes_in, node_place, older_node, with_node, with_last, literals_in, Indexed, MadeRoom, Roomy};

// ---- nodes, from 1 on

// How many nodes there are.
pub fn nodes(newest: &[u32]) -> usize
    ensures { result ≡ nodes_in newest.now }
{
    tables::entry_at(newest, 1) as usize
}

// The last node of a literal, 0 where there is none.
pub fn last_node(newest: &[u32], l: i32) -> usize
    ensures { result ≡ entry_of newest.now l }
{
    tables::entry_of(newest, l) as usize
}

// The place of a node's clause.
pub fn place_at(work: &[i32], node: usize) -> usize
    requires { (1 ≤ node) × (2 * node ≤ length work.now) }
    ensures { result ≡ node_place work.now node }
{
    literals::header_length(work[work.len() - 2 * node])
}

// The node before with the same literal, 0 where there is none.
pub fn older(work: &[i32], node: usize) -> usize
    requires { (1 ≤ node) × (2 * node ≤ length work.now) }
    ensures { result ≡ older_node work.now node }
{
    literals::header_length(work[work.len() - 2 * node + 1])
}

// ---- entering

// Enters a literal of the clause at a place.
fn enter_literal(work: &mut [i32], newest: &mut [u32], at: usize, l: i32)
    requires { (2 * (nodes_in newest.old + 1) ≤ length work.old) × (length work.old < 2 ^ 31) × (2 ≤ length newest.old) }
    ensures node { work.new ≡ with_node work.old (nodes_in newest.old) at (entry_of newest.old l) }
    ensures table { newest.new ≡ with_last newest.old l }
{
    let n = nodes(newest) + 1;
    let first = work.len() - 2 * n;
    work[first] = literals::header(at);
    work[first + 1] = literals::header(last_node(newest, l));
    tables::set_entry(newest, l, n as u32);
    slices::put(newest, 1, n as u32);
}

// Enters the clause at the end of the store, which reaches up to another place.
pub fn enter(work: &mut [i32], newest: &mut [u32], at: usize, next: usize)
    requires indexed_2 { Indexed work.old at newest.old × (next ≡ past work.old at) }
    requires at_in_bounds { next + 2 * (nodes_in newest.old + (next - (at + 1))) ≤ length work.old }
    ensures indexed { Indexed work.new next newest.new }
    ensures kept { take next work.new ≡ take next work.old }
    ensures nodes { nodes_in newest.new ≡ nodes_in newest.old + (next - (at + 1)) }
    ensures below { take (length work.old - 2 * nodes_in newest.new) work.new ≡ take (length work.old - 2 * nodes_in newest.new) work.old }
{
    for i in at + 1..next {
        let l = work[i];
        enter_literal(work, newest, at, l);
    }
}

// Enters all clauses of a store into an empty table.
pub fn enter_all(work: &mut [i32], newest: &mut [u32], end: usize)
    requires formed { Formed (take end work.old) × (end + 2 * literals_in (take end work.old) ≤ length work.old) × (length work.old < 2 ^ 31) }
    requires at_most { AtMost newest.old 0 × (length newest.old ≡ log_size) }
    ensures indexed { Indexed work.new end newest.new }
    ensures kept { take end work.new ≡ take end work.old }
{
    let mut at = 0;
    // a walk, since each entry's nodes are written into the workspace that holds it
    while at < end {
        let next = store::next_at(work, at);
        enter(work, newest, at, next);
        at = next;
    }
}

// ---- room

// Slides the standing clauses down and enters them anew; the result is the store's end.
fn compact(work: &mut [i32], newest: &mut [u32], end: usize, cells: usize) -> usize
    requires { Indexed work.old end newest.old × (cells_of (stored (take end work.old)) + cells ≤ length work.old) }
    ensures { MadeRoom cells work.old end work.new result newest.new }
{
    let n = store::compact(&mut work[..end]);
    tables::clear(newest);
    enter_all(work, newest, n);
    n
}

// Makes room for so many elements behind the store, where that is less than what is asked; the result is the store's end.
pub fn make_room(work: &mut [i32], newest: &mut [u32], end: usize, cells: usize) -> usize
    requires { Indexed work.old end newest.old × (cells_of (stored (take end work.old)) + cells ≤ length work.old) }
    ensures { MadeRoom cells work.old end work.new result newest.new }
{
    if end + 2 * nodes(newest) + cells <= work.len() {
        return end;
    }
    compact(work, newest, end, cells)
}
