// A run over the store and its index: clashes and pure literals cleared, then the choices chosen, arranged and taken.
#![tactic(auto)]

ghost use Rattle.std.specs.Prelude.{◌≡◌, [], ◌∷◌, ◌+◌, ◌*◌, ◌<◌, ◌^◌, length, take, replicate};
ghost use Rattle.definition.specs.Alignment.{arranged};
ghost use Rattle.definition.specs.Clearing.{clear_clashes};
ghost use Rattle.definition.specs.Reencoding.{choice_events, resolved_into};
ghost use Rattle.definition.specs.Events.{choice_of};
ghost use Rattle.theory_room.specs.Choices.{clearing};
ghost use Rattle.tables.specs.Sizes.{input_size};
ghost use Rattle.tables.specs.Places.{Places};
ghost use Rattle.store.specs.Store.{stored};
ghost use Rattle.index.specs.Index.{nodes, Indexed};
ghost use Rattle.progress.specs.Progress.{standing, Runs};
ghost use Rattle.pass_clashes.specs.Weights.{Weighed};
ghost use Rattle.pass_align.specs.Aligned.{ProperStore, Choices, Mapped};
ghost use Rattle.run.specs.Settings.{named_form, named_arrangement, settings_of};
ghost use Rattle.pairs.specs.Pairs.{slots};
ghost use Rattle.run.specs.Choices.{Choosable, Chosen, list_size, Lent, OneReady, PlacedReady, AtReady, TakenAt, AllReady, TakenAll, TakeReady, TookAll};
ghost use Rattle.run.specs.Run.{ClearReady, input_in, RunReady, RanAll};

use progress::Progress;
use records::ChoiceRecord;
use refusals::Refusal;

// The form that the caller names.
#[derive(Clone, Copy)]
pub enum Form {
    Counter,
    Order,
}

// The order in which a choice's literals are taken: as they stand, or aligned.
#[derive(Clone, Copy)]
pub enum Arrangement {
    AsListed,
    Alignment,
}

// What the caller asks for; the step is from 1 to 100.
#[derive(Clone, Copy)]
pub struct Settings {
    pub form: Form,
    pub arrangement: Arrangement,
    pub step: u32,
}

// The most clauses that a choice replaces in order form: those of an input.
const LIST: usize = 20000;

// The most choices that an input can have: each has five literals at least, and no variable stands in two.
pub const MOST_CHOICES: usize = 1600;

// How far a run has come, how many choices it took, and the highest variable used.
#[derive(Clone, Copy)]
pub struct Reached {
    pub progress: Progress,
    pub choices: usize,
    pub highest: u32,
}

// ---- clearing

// Clears the clashes of the store, then deletes the clauses with a pure literal.
fn clear(
    work: &mut [i32],
    newest: &mut [u32],
    table: &mut [u32],
    weights: &mut [u32],
    log: &mut [u8],
    p: Progress,
    step: usize,
) -> Progress
    requires { ClearReady step work.old p × Indexed work.old p.end newest.old × (table.old ≡ replicate input_size 0) × (weights.old ≡ replicate input_size 0) }
    ensures runs { Runs (clearing (standing work.old p)) work.old log.old p work.new log.new result }
    ensures indexed { Indexed work.new result.end newest.new }
    ensures table { table.new ≡ replicate input_size 0 }
    ensures weighed { Weighed (resolved_into (λ d. 1) (clear_clashes (standing work.old p))) (length (standing work.old p)) (standing work.new result) weights.new }
{
    let q = pass_clashes::clear_clashes(work, newest, table, weights, log, p, step);
    pass_pure::delete_pure(work, log, q)
}

// ---- choosing

// Arranges the literals of the choices.
fn arrange(work: &[i32], newest: &[u32], end: usize, chosen: &mut [i32], arrangement: Arrangement)
    requires { Indexed work.now end newest.now × ProperStore (take end work.now) × Choices chosen.old }
    ensures { Mapped (arranged (named_arrangement arrangement) (stored (take end work.now)) (stored chosen.old)) chosen.old chosen.new }
{
    match arrangement {
        Arrangement::AsListed => {}
        Arrangement::Alignment => pass_align::align(work, newest, end, chosen),
    }
}

// Collects the choices that stand, literals in the order in which they are taken; the result is how many elements they fill.
fn choose(
    work: &[i32],
    newest: &[u32],
    p: Progress,
    chosen: &mut [i32],
    arrangement: Arrangement,
) -> usize
    requires { Choosable work.now p chosen.old × Indexed work.now p.end newest.now }
    ensures { Chosen (named_arrangement arrangement) (standing work.now p) (length chosen.old) result chosen.new }
{
    let end = p.end;
    let n = pass_choose::collect(work, p, chosen);
    arrange(work, newest, end, &mut chosen[..n], arrangement);
    n
}

// ---- taking, with lent tables: a choice's places, counts of its pairs, a list of clauses

// Takes a choice whose places are set in counter form and, if that is named, in order form.
fn take_placed(
    work: &mut [i32],
    newest: &mut [u32],
    places: &[u32],
    counts: &mut [u32],
    list: &mut [u32],
    log: &mut [u8],
    p: Progress,
    form: Form,
    literals: &[i32],
    below: u32,
) -> Progress
    requires { PlacedReady (named_form form) work.old newest.old p literals.now below × Places places.now literals.now × (counts.old ≡ replicate slots 0) × (length list.old ≡ list_size) }
    ensures runs { Runs (choice_events (named_form form) (standing work.old p) literals.now (choice_of literals.now below)) work.old log.old p work.new log.new result }
    ensures indexed { Indexed work.new result.end newest.new }
    ensures counts { counts.new ≡ replicate slots 0 }
{
    let start = p.end;
    let r = pass_counter::take_choice(work, newest, log, p, literals, below, places, counts);
    match form {
        Form::Counter => r,
        Form::Order => pass_order::order_choice(
            work, newest, log, r, start, literals, below, places, list,
        ),
    }
}

// Makes room, and takes a choice.
fn take_one(
    work: &mut [i32],
    newest: &mut [u32],
    places: &mut [u32],
    counts: &mut [u32],
    list: &mut [u32],
    log: &mut [u8],
    p: Progress,
    form: Form,
    literals: &[i32],
    below: u32,
    step: usize,
) -> Progress
    requires { OneReady (named_form form) step work.old p literals.now below × Indexed work.old p.end newest.old × Lent places.old counts.old list.old }
    ensures runs { Runs (choice_events (named_form form) (standing work.old p) literals.now (choice_of literals.now below)) work.old log.old p work.new log.new result }
    ensures indexed { Indexed work.new result.end newest.new }
    ensures lent { Lent places.new counts.new list.new }
{
    let q = progress::make_room(work, newest, p, step);
    tables::set_places(places, literals);
    let r = take_placed(
        work, newest, places, counts, list, log, q, form, literals, below,
    );
    tables::set_entries(places, literals, 0);
    r
}

// Takes the choice at a place of the store of choices, if one stands there.
fn take_at(
    work: &mut [i32],
    newest: &mut [u32],
    places: &mut [u32],
    counts: &mut [u32],
    list: &mut [u32],
    log: &mut [u8],
    r: Reached,
    form: Form,
    g: u32,
    chosen: &[i32],
    at: usize,
    step: usize,
) -> Reached
    requires { AtReady (named_form form) g step work.old r chosen.now at × Indexed work.old r.progress.end newest.old × Lent places.old counts.old list.old }
    ensures taken { TakenAt (named_form form) g work.old log.old r chosen.now at work.new log.new result }
    ensures indexed { Indexed work.new result.progress.end newest.new }
    ensures lent { Lent places.new counts.new list.new }
{
    if literals::is_negative(chosen[at]) {
        return r;
    }
    let next = store::next_at(chosen, at);
    let first = at + 1;
    let below = pass_number::next_below(r.highest, g);
    let before = r.progress;
    let literals = &chosen[first..next];
    let p = take_one(
        work, newest, places, counts, list, log, before, form, literals, below, step,
    );
    Reached {
        progress: p,
        choices: r.choices + 1,
        highest: below + (next - first - 1) as u32,
    }
}

// Takes the choices in list order, with the step g.
fn take(
    work: &mut [i32],
    newest: &mut [u32],
    places: &mut [u32],
    log: &mut [u8],
    p: Progress,
    form: Form,
    g: u32,
    chosen: &[i32],
    highest: u32,
    step: usize,
) -> Reached
    requires { AllReady (named_form form) g step work.old p chosen.now highest × Indexed work.old p.end newest.old × (places.old ≡ replicate input_size 0) }
    ensures { TakenAll (named_form form) g work.old log.old p (stored chosen.now) highest work.new log.new result }
{
    let mut counts = [0u32; pairs::SLOTS];
    let mut list = [0u32; LIST];
    let mut r = Reached {
        progress: p,
        choices: 0,
        highest,
    };
    let mut at = 0;
    while at < chosen.len() {
        r = take_at(
            work,
            newest,
            places,
            &mut counts,
            &mut list,
            log,
            r,
            form,
            g,
            chosen,
            at,
            step,
        );
        at = store::next_at(chosen, at);
    }
    r
}

// ---- the run

// What a step may fill: 6L + 2,520 elements and one for each clause.
fn step_of(newest: &[u32], end: usize) -> usize
    requires { (end < 2 ^ 31) × (nodes newest.now < 2 ^ 31) }
    ensures { result ≡ 5 * nodes newest.now + end + 2520 }
{
    5 * index::nodes(newest) + end + 2520
}

// Takes the choices, if their variables stay within 70,000; their rows are written.
#[tactic(auto, using(crate::proofs::Numbered::took_high))]
fn take_all(
    work: &mut [i32],
    newest: &mut [u32],
    places: &mut [u32],
    weights: &[u32],
    log: &mut [u8],
    rows: &mut [ChoiceRecord],
    p: Progress,
    form: Form,
    g: u32,
    chosen: &[i32],
    highest: u32,
    step: usize,
) -> Result<Reached, Refusal>
    requires { TakeReady (named_form form) g step work.old p chosen.now highest weights.now rows.old × Indexed work.old p.end newest.old × (places.old ≡ replicate input_size 0) }
    ensures { TookAll (named_form form) g work.old log.old p (stored chosen.now) highest weights.now rows.old work.new log.new rows.new result }
{
    let m = pass_number::number(chosen, weights, rows, highest, g);
    if tables::LOG_REACH < m.highest {
        return Err(Refusal::TooManyVariables);
    }
    Ok(take(work, newest, places, log, p, form, g, chosen, highest, step))
}

// Clears an indexed store, then chooses and takes its choices. Its tables have a frame of their own, so that the stack holds either them or the reader's.
#[inline(never)]
fn run_indexed(
    work: &mut [i32],
    newest: &mut [u32],
    log: &mut [u8],
    rows: &mut [ChoiceRecord],
    end: usize,
    highest: u32,
    settings: Settings,
) -> Result<Reached, Refusal>
    requires { RunReady work.old end highest settings.step rows.old × Indexed work.old end newest.old }
    ensures { RanAll (settings_of settings) (input_in work.old end highest) work.old log.old end rows.old work.new log.new rows.new result }
{
    let start = Progress {
        end,
        at: 0,
        lines: 0,
    };
    let form = settings.form;
    let arrangement = settings.arrangement;
    let g = settings.step;
    let step = step_of(newest, end);
    let mut places = [0u32; tables::INPUT_SIZE];
    let mut weights = [0u32; tables::INPUT_SIZE];
    let p = clear(work, newest, &mut places, &mut weights, log, start, step);
    let mut chosen = [0i32; 9600];
    let n = choose(work, newest, p, &mut chosen, arrangement);
    take_all(
        work,
        newest,
        &mut places,
        &weights,
        log,
        rows,
        p,
        form,
        g,
        &chosen[..n],
        highest,
        step,
    )
}

// Enters the clauses of the store in an index, then runs over both. The rows are of 1,600 choices at most.
pub fn run(
    work: &mut [i32],
    log: &mut [u8],
    rows: &mut [ChoiceRecord],
    end: usize,
    highest: u32,
    settings: Settings,
) -> Result<Reached, Refusal>
    requires { RunReady work.old end highest settings.step rows.old }
    ensures { RanAll (settings_of settings) (input_in work.old end highest) work.old log.old end rows.old work.new log.new rows.new result }
{
    let mut newest = [0u32; tables::LOG_SIZE];
    index::enter_all(work, &mut newest, end);
    run_indexed(work, &mut newest, log, rows, end, highest, settings)
}
