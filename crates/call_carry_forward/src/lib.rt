// Carrying forward: a plan for a formula is tested, carried over the kept lines of the formula's log, tested against what stands there and written.
#![tactic(auto)]

ghost use Rattle.std.specs.Prelude.{◌≡◌, length, take};
ghost use Rattle.definition.specs.Calls.{buffer_after};
ghost use Rattle.theory_base.specs.Slices.{between};
ghost use Rattle.store.specs.Store.{stored};
ghost use Rattle.drat.specs.Loaded.{lines_in};
ghost use Rattle.answer.specs.Table.{marked};
ghost use Rattle.refusals.specs.Outcomes.{outcome as outcome_said, showing};
ghost use Rattle.carry.specs.Carried.{Carries, Carryable};
ghost use Rattle.call_carry_forward.specs.Outcome.{outcome, plan_text};

use carry::Direction;
use log_texts::Texts;
use refusals::Refusal;

// Tests a plan against the formula, replays the lines, carries the plan forward and writes its line.
fn carry_tested(
    out: &mut [u8],
    texts: Texts,
    work: &mut [i32],
    marks: &mut [u8],
) -> Result<usize, Refusal>
    requires { Carryable work.old texts.formula_end texts.lines_end texts.variables marks.old }
    ensures { Carries (plan_text (length out.old) texts.variables (stored (take texts.formula_end work.old)) (lines_in (between texts.formula_end texts.lines_end work.old)) (marked marks.old)) out.old result out.new }
{
    if !carry::satisfied_before(marks, work, texts.formula_end) {
        return Err(Refusal::PlanFails);
    }
    carry::replay_and_carry(
        out,
        texts.variables,
        work,
        texts.formula_end,
        texts.lines_end,
        marks,
        Direction::Forward,
    )
}

// Carries forward; a refusal may leave part of a line in the buffer.
fn carry_texts(
    formula: &[u8],
    log: &[u8],
    kept: usize,
    plan: &[u8],
    work: &mut [i32],
    out: &mut [u8],
) -> Result<usize, Refusal>
    ensures { Carries (outcome work.old out.old kept formula.now log.now plan.now) out.old result out.new }
{
    let mut marks = [0u8; answer::VALUES];
    let way = Direction::Forward;
    let texts = log_texts::read_texts(formula, log, kept, plan, way, work, &mut marks)?;
    carry_tested(out, texts, work, &mut marks)
}

// Carries a plan for a formula forward over the kept lines of the formula's log, and writes its line, or makes the buffer zero and answers the
// number of the refusal.
pub fn carry_forward(
    formula: &[u8],
    log: &[u8],
    kept: usize,
    plan: &[u8],
    work: &mut [i32],
    out: &mut [u8],
) -> Result<usize, Refusal>
    ensures outcome { outcome_said result ≡ showing (λ t. length t) (outcome work.old out.old kept formula.now log.now plan.now) }
    ensures buffer { out.new ≡ buffer_after 0 (outcome work.old out.old kept formula.now log.now plan.now) (λ t. t) out.old }
{
    let r = carry_texts(formula, log, kept, plan, work, out);
    carry::settle(out, r)
}
