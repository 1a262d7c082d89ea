#![tactic(auto)]
// What a rule claims of conditions that stand in a sheet: a claim is a value, no byte of the sheet is read here.
use answers::Rule;
use postfix::Part;

pub mod forms; // forms.rt: the forms of the claims

// The left of an inclusion: one part, or two one after the other.
#[derive(Clone, Copy)]
pub enum Left {
    One(Part),
    Two(Part, Part),
}

// The words of the left are in the right, or a part holds the empty word.
#[derive(Clone, Copy)]
pub enum Claim {
    Inclusion { rule: Rule, left: Left, right: Part },
    HoldsEmpty { rule: Rule, part: Part },
}
