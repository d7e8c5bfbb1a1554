// A formula's text read, run over, and what then stands written: what reencoding and sizes share. Texts go as far as the buffers do, and are counted whole.
#![tactic(auto)]

ghost use Rattle.std.specs.Prelude.{◌≡◌, ◌<◌, length};
ghost use Rattle.definition.specs.Calls.{reencoded, step_allowed, limited};
ghost use Rattle.store.specs.Store.{Formed, stored};
ghost use Rattle.run.specs.Settings.{settings_of};
ghost use Rattle.run.specs.Run.{input_in, most_choices, RunReady};
ghost use Rattle.formula_run.specs.Outcome.{run_outcome};
ghost use Rattle.formula_run.specs.Result.{Left, Finishes, Stepped, Answers};

use records::ChoiceRecord;
use refusals::Refusal;
use run::{Reached, Settings};

// The result: choices, H, M, log lines and both byte lengths.
#[derive(Clone, Copy)]
pub struct Tally {
    pub choices: usize,
    pub highest: u32,
    pub clauses: usize,
    pub lines: usize,
    pub log_bytes: usize,
    pub formula_bytes: usize,
}

// ---- the clauses that stand, counted and written

// How many clauses stand in a store.
fn count_standing(store: &[i32]) -> usize
    requires { Formed store.now }
    ensures { result ≡ length (stored store.now) }
{
    store::standing(store).count()
}

// Writes the formula that stands after a run.
fn write_standing(work: &[i32], formula: &mut [u8], r: Reached) -> Tally
    requires { Left work.now r }
    ensures { Finishes work.now formula.old r result formula.new }
{
    let end = r.progress.end;
    let count = count_standing(&work[..end]);
    let bytes = dimacs::write_formula(formula, r.highest, count as u32, &work[..end]);
    Tally {
        choices: r.choices,
        highest: r.highest,
        clauses: count,
        lines: r.progress.lines,
        log_bytes: r.progress.at,
        formula_bytes: bytes,
    }
}

// ---- the run; a refusal may leave anything in the buffers

// Runs over the store, then writes the formula.
fn run_all(
    work: &mut [i32],
    log: &mut [u8],
    formula: &mut [u8],
    rows: &mut [ChoiceRecord],
    end: usize,
    highest: u32,
    settings: Settings,
) -> Result<Tally, Refusal>
    requires { RunReady work.old end highest settings.step rows.old }
    ensures { Answers (limited (reencoded (settings_of settings) (input_in work.old end highest))) log.old formula.old rows.old result log.new formula.new rows.new }
{
    let r = run::run(work, log, rows, end, highest, settings)?;
    Ok(write_standing(work, formula, r))
}

// Reads the formula and tests the workspace, then runs.
fn read_and_run(
    text: &[u8],
    settings: Settings,
    work: &mut [i32],
    log: &mut [u8],
    formula: &mut [u8],
    rows: &mut [ChoiceRecord],
) -> Result<Tally, Refusal>
    requires { Stepped settings.step × (length rows.old ≡ most_choices) }
    ensures { Answers (run_outcome settings text.now work.old) log.old formula.old rows.old result log.new formula.new rows.new }
{
    let most = dimacs::input_limits();
    let read = dimacs::read(text, most, work)?;
    let need = dimacs::workspace_need(read.variables, read.clauses, read.literals);
    if work.len() < need {
        return Err(Refusal::ShortWorkspace);
    }
    run_all(
        &mut work[..need],
        log,
        formula,
        rows,
        read.filled,
        read.variables,
        settings,
    )
}

// Whether a step is from 1 to 100.
fn is_step(g: u32) -> bool
    ensures { result ≡ step_allowed g }
{
    1 <= g && g <= 100
}

// Tests the step, then reads and runs: the log and the new formula go into the two buffers, as far as they fit, and the table's records into the rows, which are of 1,600 choices at most.
pub fn run_formula(
    text: &[u8],
    settings: Settings,
    work: &mut [i32],
    log: &mut [u8],
    formula: &mut [u8],
    rows: &mut [ChoiceRecord],
) -> Result<Tally, Refusal>
    requires { length rows.old ≡ most_choices }
    ensures { Answers (run_outcome settings text.now work.old) log.old formula.old rows.old result log.new formula.new rows.new }
{
    if !is_step(settings.step) {
        return Err(Refusal::StepOutOfRange);
    }
    read_and_run(text, settings, work, log, formula, rows)
}
