// Numbering: the new variables of the choices, and a record for each.
#![tactic(auto)]

ghost use Rattle.std.specs.Prelude.{◌≡◌, ◌+◌, ◌≤◌, ◌<◌, ◌^◌};
ghost use Rattle.definition.specs.Counter.{below_new};
ghost use Rattle.store.specs.Store.{stored};
ghost use Rattle.pass_number.specs.Numbering.{OneReady, NumberedOne, AllReady, NumberedAll};

use records::ChoiceRecord;

// How many choices are numbered, and the highest variable used after them.
#[derive(Clone, Copy)]
pub struct Numbered {
    pub choices: usize,
    pub highest: u32,
}

// The number below the new variables of the next choice, with the step g, where some variable is the highest used.
#[tactic(auto, unfolding(definition::specs::Counter::below_new))]
pub fn next_below(highest: u32, g: u32) -> u32
    requires { (1 ≤ g) × (highest + g < 2 ^ 31) }
    ensures { result ≡ below_new g highest }
{
    highest + (g - highest % g) % g
}

// Numbers a choice, and writes its row. The weights of its literals say how many input clauses it has.
fn number_one(
    literals: &[i32],
    weights: &[u32],
    rows: &mut [ChoiceRecord],
    m: Numbered,
    g: u32,
) -> Numbered
    requires { OneReady g literals.now weights.now rows.old m }
    ensures { NumberedOne g literals.now weights.now rows.old m rows.new result }
{
    let below = next_below(m.highest, g);
    let n = literals.len() as u32;
    let clauses = tables::sum_entries(weights, literals) + 1;
    let record = ChoiceRecord {
        first: below + 1,
        length: n,
        clauses,
    };
    records::put_record(rows, m.choices, record);
    Numbered {
        choices: m.choices + 1,
        highest: below + (n - 1),
    }
}

// Numbers the choices in list order, and writes their rows.
pub fn number(
    chosen: &[i32],
    weights: &[u32],
    rows: &mut [ChoiceRecord],
    highest: u32,
    g: u32,
) -> Numbered
    requires { AllReady g chosen.now weights.now rows.old highest }
    ensures { NumberedAll g (stored chosen.now) weights.now rows.old highest rows.new result }
{
    let mut m = Numbered {
        choices: 0,
        highest,
    };
    for literals in store::standing(chosen) {
        m = number_one(literals, weights, rows, m, g);
    }
    m
}
