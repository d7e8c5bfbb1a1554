// The published call read_back: the new formula read back into a store.
#![tactic(auto)]

ghost use Rattle.std.specs.Prelude.{◌≡◌, pos};
ghost use Rattle.definition.specs.Calls.{buffer_after};
ghost use Rattle.dimacs.specs.Entries.{entries_of};
ghost use Rattle.refusals.specs.Outcomes.{outcome as outcome_said, showing};
ghost use Rattle.call_read_back.specs.Outcome.{outcome, told_of, Reads};

use refusals::Refusal;

// V, the clauses and the literals of the formula read back.
#[derive(Clone, Copy)]
pub struct ReadBack {
    pub variables: u32,
    pub clauses: u32,
    pub literals: u32,
}

// Reads the new formula back; a refusal may leave clauses in the store.
fn read_into(text: &[u8], store: &mut [i32]) -> Result<ReadBack, Refusal>
    ensures { Reads (outcome store.old text.now) store.old result store.new }
{
    let most = dimacs::read_back_limits();
    let read = dimacs::read(text, most, store)?;
    if store.len() < dimacs::workspace_need(read.variables, read.clauses, read.literals) {
        return Err(Refusal::ShortWorkspace);
    }
    let clauses = read.filled - read.literals as usize;
    Ok(ReadBack {
        variables: read.variables,
        clauses: clauses as u32,
        literals: read.literals,
    })
}

// Reads the new formula back into a store, each clause its length and its literals, or makes the store zero and answers the
// number of the refusal.
pub fn read_back(text: &[u8], store: &mut [i32]) -> Result<ReadBack, Refusal>
    ensures outcome { outcome_said result ≡ showing told_of (outcome store.old text.now) }
    ensures buffer { store.new ≡ buffer_after (pos 0) (outcome store.old text.now) entries_of store.old }
{
    let r = read_into(text, store);
    if r.is_err() {
        store.fill(0);
    }
    r
}
