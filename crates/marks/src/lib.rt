// Marks of variables, thirty-two to a word: set, cleared, and the lowest found by counting the trailing zeros of the first word that is not 0.
#![tactic(auto)]

ghost use Rattle.std.specs.Prelude.{◌≡◌, ℕ, ◌*◌, ◌/◌, ◌%◌, ◌≤◌, ◌<◌, ◌^◌, length, get_or};
ghost use Rattle.marks.specs.Marks.{digit, WithMark, WithoutMark, lowest_from as lowest_marked_from};

// The words that hold the marks of an input's variables.
pub const INPUT_WORDS: usize = 251;

// The word of a variable's mark.
pub fn word_of(v: u32) -> usize
    ensures { result ≡ v / 32 }
{
    (v / 32) as usize
}

// A word with the mark of a variable alone.
fn mark_of(v: u32) -> u32
    ensures { result ≡ 2 ^ (v % 32) }
{
    1u32 << (v % 32)
}

// Marks a variable.
pub fn set(marks: &mut [u32], v: u32)
    requires { v < 32 * length marks.old }
    ensures { WithMark marks.old v marks.new }
{
    let w = word_of(v);
    marks[w] |= mark_of(v);
}

// Clears the mark of a variable.
pub fn clear(marks: &mut [u32], v: u32)
    ensures { WithoutMark marks.old v marks.new }
{
    let w = word_of(v);
    if w < marks.len() {
        marks[w] &= !mark_of(v);
    }
}

// The lowest digit of a word that is 1.
fn lowest_in(word: u32) -> u32
    requires { 0 < word }
    ensures inside { result < 32 }
    ensures found { digit result word ≡ 1 }
    ensures before { (j : ℕ) → j < result → digit j word ≡ 0 }
{
    word.trailing_zeros()
}

// The lowest marked variable, from the first of a word on.
#[tactic(auto, using(crate::proofs::Words::lowest_at))]
pub fn lowest_from(marks: &[u32], from: usize) -> Option<u32>
    requires { length marks.now ≤ 2 ^ 27 }
    ensures { result ≡ lowest_marked_from marks.now (32 * from) }
{
    for w in from..marks.len() {
        if marks[w] != 0 {
            return Some(w as u32 * 32 + lowest_in(marks[w]));
        }
    }
    None
}
