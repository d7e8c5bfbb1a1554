// Walking back: a log's kept lines are replayed over a formula, and a solver's answer is tested, carried back and written.
#![tactic(auto)]

ghost use Rattle.std.specs.Prelude.{◌≡◌, length};
ghost use Rattle.definition.specs.Calls.{buffer_after};
ghost use Rattle.refusals.specs.Outcomes.{outcome as outcome_said, showing};
ghost use Rattle.carry.specs.Carried.{Carries};
ghost use Rattle.call_walk_back.specs.Outcome.{outcome};

use carry::Direction;
use refusals::Refusal;

// Walks back; a refusal may leave part of a line in the buffer.
fn walk(
    formula: &[u8],
    log: &[u8],
    kept: usize,
    answer: &[u8],
    work: &mut [i32],
    out: &mut [u8],
) -> Result<usize, Refusal>
    ensures { Carries (outcome work.old out.old kept formula.now log.now answer.now) out.old result out.new }
{
    let mut marks = [0u8; answer::VALUES];
    let way = Direction::Back;
    let texts = log_texts::read_texts(formula, log, kept, answer, way, work, &mut marks)?;
    carry::replay_and_carry(
        out,
        texts.variables,
        work,
        texts.formula_end,
        texts.lines_end,
        &mut marks,
        way,
    )
}

// Walks a solver's answer back over the kept lines of a log to the formula, and writes its line, or makes the buffer zero and
// answers the number of the refusal.
pub fn walk_back(
    formula: &[u8],
    log: &[u8],
    kept: usize,
    answer: &[u8],
    work: &mut [i32],
    out: &mut [u8],
) -> Result<usize, Refusal>
    ensures outcome { outcome_said result ≡ showing (λ t. length t) (outcome work.old out.old kept formula.now log.now answer.now) }
    ensures buffer { out.new ≡ buffer_after 0 (outcome work.old out.old kept formula.now log.now answer.now) (λ t. t) out.old }
{
    let r = walk(formula, log, kept, answer, work, out);
    carry::settle(out, r)
}
