// Literals are i32, negative for a negated variable; all arithmetic on signed numbers is here.
#![tactic(auto)]

ghost use Rattle.std.specs.Prelude.{◌≡◌, nat_abs};
ghost use Rattle.literals.specs.Literal.{negative, signed_of, negation, index_of, header_of, flip, header_literals};

// Whether a literal is a negated variable.
pub fn is_negative(l: i32) -> bool
    ensures { result ≡ negative l }
{
    l < 0
}

// The header of the clause deleted, and back.
pub fn flipped(h: i32) -> i32
    ensures { result ≡ flip h }
{
    -1 - h
}

// The variable of a literal, of the lowest i32 too: -l is one more than -1 - l.
pub fn variable(l: i32) -> u32
    ensures { result ≡ nat_abs l }
{
    if is_negative(l) {
        flipped(l) as u32 + 1
    } else {
        l as u32
    }
}

// The literal of a sign and a variable.
pub fn signed(negative: bool, n: u32) -> i32
    ensures { result ≡ signed_of negative n }
{
    let z = n.min(i32::MAX as u32) as i32;
    if negative { 0 - z } else { z }
}

// The negation of a literal.
pub fn negated(l: i32) -> i32
    ensures { result ≡ negation l }
{
    let v = variable(l);
    if is_negative(l) {
        signed(false, v)
    } else {
        signed(true, v)
    }
}

// The place of a literal in a table with two entries for each variable.
pub fn literal_index(l: i32) -> usize
    ensures { result ≡ index_of l }
{
    let v = variable(l) as usize;
    if is_negative(l) { v + v + 1 } else { v + v }
}

// The header of a standing clause of n literals.
pub fn header(n: usize) -> i32
    ensures { result ≡ header_of n }
{
    n.min(i32::MAX as usize) as i32
}

// How many literals follow a header.
pub fn header_length(h: i32) -> usize
    ensures { result ≡ header_literals h }
{
    if is_negative(h) {
        variable(flipped(h)) as usize
    } else {
        variable(h) as usize
    }
}
