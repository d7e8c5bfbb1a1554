// The published calls on numbers and slices, for programs in other languages to link.
// A call answers 0, or document 01's number of the refusal; its counts go into the tally, as many as fit.
#![tactic(auto)]

ghost use Rattle.std.specs.Prelude.{◌≡◌, [], ◌∷◌, pos, length};
ghost use Rattle.definition.specs.Calls.{buffer_after};
ghost use Rattle.dimacs.specs.Entries.{entries_of};
ghost use Rattle.run.specs.Settings.{named_form, named_arrangement, settings_of};
ghost use Rattle.records.specs.Rows.{no_record};
ghost use Rattle.refusals.specs.Outcomes.{outcome, showing};
ghost use Rattle.call_reencode.specs.Outcome.{shown_table};
ghost use Rattle.call_walk_back.specs.Outcome.{outcome as walk_back_outcome};
ghost use Rattle.call_carry_forward.specs.Outcome.{outcome as carry_forward_outcome};
ghost use Rattle.call_read_back.specs.Outcome.{outcome as read_back_outcome};
ghost use Rattle.exports.specs.Numbers.{form_number, arrangement_number, settings_number, number_of, reencoding, sizing};
ghost use Rattle.exports.specs.Counts.{tally_after, sizes_counts, reencoding_counts, done_counts, line_counts, back_counts, read_back_counts};

use call_read_back::ReadBack;
use formula_run::Tally;
use records::ChoiceRecord;
use refusals::Refusal;
use run::{Arrangement, Form, Settings};

// ---- outcomes

// The number of an outcome; its counts go into the tally.
fn answered<const N: usize>(tally: &mut [u64], r: Result<[u64; N], Refusal>) -> u32
    ensures number { result ≡ number_of (outcome r.entry) }
    ensures counts { tally.new ≡ tally_after (outcome r.entry) (λ c. c) tally.old }
{
    match r {
        Ok(counts) => {
            counts::put_counts(tally, &counts);
            0
        }
        Err(refusal) => {
            tally.fill(0);
            u32::from(refusal)
        }
    }
}

// ---- reencoding

// The form that a number names: 0 the counter form, any other the order form.
fn form_named(form: u32) -> Form
    ensures { named_form result ≡ form_number form }
{
    if form == 0 {
        Form::Counter
    } else {
        Form::Order
    }
}

// The arrangement that a number names: 0 as they stand, any other alignment.
fn arrangement_named(arrangement: u32) -> Arrangement
    ensures { named_arrangement result ≡ arrangement_number arrangement }
{
    if arrangement == 0 {
        Arrangement::AsListed
    } else {
        Arrangement::Alignment
    }
}

// The settings that two numbers name, with a step.
fn settings_named(form: u32, arrangement: u32, step: u32) -> Settings
    ensures { settings_of result ≡ settings_number form arrangement step }
{
    let f = form_named(form);
    let a = arrangement_named(arrangement);
    Settings {
        form: f,
        arrangement: a,
        step,
    }
}

// The counts of a reencoding.
fn done_counts(r: Result<Tally, Refusal>) -> Result<[u64; 6], Refusal>
    ensures { outcome result ≡ showing done_counts (outcome r) }
{
    let t = r?;
    Ok([
        t.choices as u64,
        u64::from(t.highest),
        t.clauses as u64,
        t.lines as u64,
        t.log_bytes as u64,
        t.formula_bytes as u64,
    ])
}

// Reencodes a formula into two buffers and a table of records. form is 0 for the counter form, any other number for the order form; arrangement is 0 for
// literals as they stand, any other number for alignment; step is from 1 to 100. The tally gets choices, H, M, log lines, the log's bytes and the formula's.
#[unsafe(no_mangle)]
pub extern "C" fn sirgholyn_reencode(
    text: &[u8],
    form: u32,
    arrangement: u32,
    step: u32,
    work: &mut [i32],
    log: &mut [u8],
    formula: &mut [u8],
    table: &mut [ChoiceRecord],
    tally: &mut [u64],
) -> u32
    ensures number { result ≡ number_of (reencoding form arrangement step text.now work.old log.old formula.old (length table.old)) }
    ensures log_after { log.new ≡ buffer_after 0 (reencoding form arrangement step text.now work.old log.old formula.old (length table.old)) (λ o. o.log) log.old }
    ensures formula_after { formula.new ≡ buffer_after 0 (reencoding form arrangement step text.now work.old log.old formula.old (length table.old)) (λ o. o.formula) formula.old }
    ensures table_after { table.new ≡ buffer_after no_record (reencoding form arrangement step text.now work.old log.old formula.old (length table.old)) shown_table table.old }
    ensures counts { tally.new ≡ tally_after (reencoding form arrangement step text.now work.old log.old formula.old (length table.old)) reencoding_counts tally.old }
{
    let settings = settings_named(form, arrangement, step);
    let r = call_reencode::reencode(text, settings, work, log, formula, table);
    answered(tally, done_counts(r))
}

// Works out the counts of a reencoding beforehand, with no buffer for its texts and no table; form, arrangement and step are as there. The tally gets choices, H, M,
// log lines, the log's bytes and the formula's.
#[unsafe(no_mangle)]
pub extern "C" fn sirgholyn_sizes(
    text: &[u8],
    form: u32,
    arrangement: u32,
    step: u32,
    work: &mut [i32],
    tally: &mut [u64],
) -> u32
    ensures number { result ≡ number_of (sizing form arrangement step text.now work.old) }
    ensures counts { tally.new ≡ tally_after (sizing form arrangement step text.now work.old) sizes_counts tally.old }
{
    let settings = settings_named(form, arrangement, step);
    let r = call_sizes::sizes(text, settings, work);
    answered(tally, done_counts(r))
}

// ---- walk-back and carrying forward

// The bytes of a line, counted.
fn line_count(r: Result<usize, Refusal>) -> Result<[u64; 1], Refusal>
    ensures { outcome result ≡ showing (λ n. n ∷ []) (outcome r) }
{
    let n = r?;
    Ok([n as u64])
}

// Walks a solver's answer back over the kept lines of a log to the formula. The tally gets the bytes of the line written.
#[unsafe(no_mangle)]
pub extern "C" fn sirgholyn_walk_back(
    formula: &[u8],
    log: &[u8],
    kept: usize,
    answer: &[u8],
    work: &mut [i32],
    out: &mut [u8],
    tally: &mut [u64],
) -> u32
    ensures number { result ≡ number_of (walk_back_outcome work.old out.old kept formula.now log.now answer.now) }
    ensures buffer { out.new ≡ buffer_after 0 (walk_back_outcome work.old out.old kept formula.now log.now answer.now) (λ t. t) out.old }
    ensures counts { tally.new ≡ tally_after (walk_back_outcome work.old out.old kept formula.now log.now answer.now) line_counts tally.old }
{
    let r = call_walk_back::walk_back(formula, log, kept, answer, work, out);
    answered(tally, line_count(r))
}

// Carries a plan for the formula forward over the kept lines of its log. The tally gets the bytes of the line written.
#[unsafe(no_mangle)]
pub extern "C" fn sirgholyn_carry_forward(
    formula: &[u8],
    log: &[u8],
    kept: usize,
    plan: &[u8],
    work: &mut [i32],
    out: &mut [u8],
    tally: &mut [u64],
) -> u32
    ensures number { result ≡ number_of (carry_forward_outcome work.old out.old kept formula.now log.now plan.now) }
    ensures buffer { out.new ≡ buffer_after 0 (carry_forward_outcome work.old out.old kept formula.now log.now plan.now) (λ t. t) out.old }
    ensures counts { tally.new ≡ tally_after (carry_forward_outcome work.old out.old kept formula.now log.now plan.now) line_counts tally.old }
{
    let r = call_carry_forward::carry_forward(formula, log, kept, plan, work, out);
    answered(tally, line_count(r))
}

// ---- the new formula read back

// The counts of a formula read back.
fn back_counts(r: Result<ReadBack, Refusal>) -> Result<[u64; 3], Refusal>
    ensures { outcome result ≡ showing back_counts (outcome r) }
{
    let back = r?;
    Ok([
        u64::from(back.variables),
        u64::from(back.clauses),
        u64::from(back.literals),
    ])
}

// Reads the new formula back into a store of clauses. The tally gets V, the clauses and the literals.
#[unsafe(no_mangle)]
pub extern "C" fn sirgholyn_read_back(text: &[u8], store: &mut [i32], tally: &mut [u64]) -> u32
    ensures number { result ≡ number_of (read_back_outcome store.old text.now) }
    ensures buffer { store.new ≡ buffer_after (pos 0) (read_back_outcome store.old text.now) entries_of store.old }
    ensures counts { tally.new ≡ tally_after (read_back_outcome store.old text.now) read_back_counts tally.old }
{
    let r = call_read_back::read_back(text, store);
    answered(tally, back_counts(r))
}
