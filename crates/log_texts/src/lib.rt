// The three texts of a call that carries an assignment over a log: the formula, the kept lines, and an answer or a plan.
#![tactic(auto)]

ghost use Rattle.std.specs.Prelude.{◌≡◌, ◌≤◌, ◌<◌, ltb, length};
ghost use Rattle.definition.specs.Calls.{read_texts};
ghost use Rattle.tables.specs.Sizes.{log_reach};
ghost use Rattle.log_texts.specs.Handed.{by_way, most, WordsSay, need, TextsSay};

use carry::Direction;
use dimacs::Formula;
use drat::KeptLines;
use refusals::Refusal;

// ---- what they say

// What is read.
#[derive(Clone, Copy)]
struct Words {
    formula: Formula,
    lines: KeptLines,
    // X
    highest: u32,
}

// One of two variables: the first going forward, the second going back.
fn by_way(direction: Direction, forward: u32, back: u32) -> u32
    ensures { result ≡ by_way direction forward back }
{
    match direction {
        Direction::Forward => forward,
        Direction::Back => back,
    }
}

// Reads the formula and behind it the kept lines into a workspace, as far as it reaches, and into a table a plan for 1 to V or an answer for 1 to X.
fn read_words(
    formula: &[u8],
    log: &[u8],
    kept: usize,
    answer: &[u8],
    direction: Direction,
    work: &mut [i32],
    marks: &mut [u8],
) -> Result<Words, Refusal>
    requires { log_reach < length marks.old }
    ensures { WordsSay direction kept formula.now log.now answer.now work.old result work.new marks.new }
{
    let read = dimacs::read(formula, dimacs::input_limits(), work)?;
    let lines = drat::read_log_behind(log, kept, work, read.filled)?;
    let highest = read.variables.max(lines.highest);
    let most = by_way(direction, read.variables, highest);
    answer::read_answer(answer, most, marks)?;
    Ok(Words {
        formula: read,
        lines,
        highest,
    })
}

// ---- the workspace

// Whether a workspace has fewer entries than 4(N + G) + 4X + 64.
fn is_short(size: usize, n: usize, g: usize, x: u32) -> bool
    requires { n ≤ 80000 }
    ensures { result ≡ ltb size (need n g x) }
{
    let least = 4 * n + 4 * (x as usize) + 64;
    size < least || (size - least) / 4 < g
}

// ---- the texts

// The texts read: the highest variable of the line to be written, the place past the formula and the place past the lines.
#[derive(Clone, Copy, Debug, PartialEq, Eq)]
pub struct Texts {
    pub variables: u32,
    pub formula_end: usize,
    pub lines_end: usize,
}

// Reads the three texts: the formula lies at the workspace's start, the lines behind it, and the table has the assignment. Forward, the answer is a plan
// for 1 to V, and the line is for 1 to X; back, the answer is for 1 to X and the line for 1 to V.
pub fn read_texts(
    formula: &[u8],
    log: &[u8],
    kept: usize,
    answer: &[u8],
    direction: Direction,
    work: &mut [i32],
    marks: &mut [u8],
) -> Result<Texts, Refusal>
    requires { log_reach < length marks.old }
    ensures { TextsSay direction (read_texts (most direction) (length work.old) kept formula.now log.now answer.now) result work.new marks.new }
{
    let words = read_words(formula, log, kept, answer, direction, work, marks)?;
    let formula_end = words.formula.filled;
    if is_short(work.len(), formula_end, words.lines.numbers, words.highest) {
        return Err(Refusal::ShortWorkspace);
    }
    Ok(Texts {
        variables: by_way(direction, words.highest, words.formula.variables),
        formula_end,
        lines_end: formula_end + words.lines.filled,
    })
}
