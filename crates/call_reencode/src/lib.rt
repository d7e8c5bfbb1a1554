// Reencoding: the published call.
#![tactic(auto)]

ghost use Rattle.std.specs.Prelude.{◌≡◌, length};
ghost use Rattle.definition.specs.Calls.{buffer_after};
ghost use Rattle.refusals.specs.Outcomes.{outcome as outcome_said, showing};
ghost use Rattle.records.specs.Rows.{no_record};
ghost use Rattle.run.specs.Run.{most_choices};
ghost use Rattle.formula_run.specs.Outcome.{result_of};
ghost use Rattle.call_reencode.specs.Outcome.{shown_table, outcome as outcome_defined};
ghost use Rattle.call_reencode.specs.Result.{answer_by, Answers};

use formula_run::Tally;
use records::ChoiceRecord;
use refusals::Refusal;
use run::Settings;

// ---- the call; a refusal may leave anything in the buffers

// Tests the table and both buffers, by their sizes.
fn fit(t: Tally, table_room: usize, log_room: usize, formula_room: usize) -> Result<Tally, Refusal>
    ensures { result ≡ answer_by table_room log_room formula_room t }
{
    if table_room < t.choices {
        return Err(Refusal::ShortTable);
    }
    if log_room < t.log_bytes {
        return Err(Refusal::ShortLogBuffer);
    }
    if formula_room < t.formula_bytes {
        return Err(Refusal::ShortFormulaBuffer);
    }
    Ok(t)
}

// Runs, then tests what was written.
fn reencode_into(
    text: &[u8],
    settings: Settings,
    work: &mut [i32],
    log: &mut [u8],
    formula: &mut [u8],
    rows: &mut [ChoiceRecord],
    room: usize,
) -> Result<Tally, Refusal>
    requires { length rows.old ≡ most_choices }
    ensures { Answers (outcome_defined settings text.now work.old log.old formula.old room) room log.old formula.old rows.old result log.new formula.new rows.new }
{
    let t = formula_run::run_formula(text, settings, work, log, formula, rows)?;
    fit(t, room, log.len(), formula.len())
}

// ---- the calls

// Reencodes a formula: the log and the new formula go into the two buffers, a record for each choice into the table; on a refusal all three are made zero.
pub fn reencode(
    text: &[u8],
    settings: Settings,
    work: &mut [i32],
    log: &mut [u8],
    formula: &mut [u8],
    table: &mut [ChoiceRecord],
) -> Result<Tally, Refusal>
    ensures outcome { outcome_said result ≡ showing result_of (outcome_defined settings text.now work.old log.old formula.old (length table.old)) }
    ensures log_after { log.new ≡ buffer_after 0 (outcome_defined settings text.now work.old log.old formula.old (length table.old)) (λ o. o.log) log.old }
    ensures formula_after { formula.new ≡ buffer_after 0 (outcome_defined settings text.now work.old log.old formula.old (length table.old)) (λ o. o.formula) formula.old }
    ensures table_after { table.new ≡ buffer_after no_record (outcome_defined settings text.now work.old log.old formula.old (length table.old)) shown_table table.old }
{
    let mut rows = [records::NO_RECORD; run::MOST_CHOICES];
    let r = reencode_into(text, settings, work, log, formula, &mut rows, table.len());
    match r {
        Ok(t) => records::fill(table, &rows, t.choices),
        Err(_) => {
            log.fill(0);
            formula.fill(0);
            records::clear(table);
        }
    }
    r
}

// Reencodes a formula without a table: the log and the new formula go into the two buffers; on a refusal both are made zero.
pub fn reencode_texts(
    text: &[u8],
    settings: Settings,
    work: &mut [i32],
    log: &mut [u8],
    formula: &mut [u8],
) -> Result<Tally, Refusal>
    ensures outcome { outcome_said result ≡ showing result_of (outcome_defined settings text.now work.old log.old formula.old most_choices) }
    ensures log_after { log.new ≡ buffer_after 0 (outcome_defined settings text.now work.old log.old formula.old most_choices) (λ o. o.log) log.old }
    ensures formula_after { formula.new ≡ buffer_after 0 (outcome_defined settings text.now work.old log.old formula.old most_choices) (λ o. o.formula) formula.old }
{
    let mut table = [records::NO_RECORD; run::MOST_CHOICES];
    reencode(text, settings, work, log, formula, &mut table)
}
