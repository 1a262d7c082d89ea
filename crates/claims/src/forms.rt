// The forms of the claims: a word of a condition with what is raised behind it or ahead of it, one condition in another, the empty word; and a condition
// as a call reads it.
ghost use Rattle.std.specs.Prelude.{List, ℕ};
ghost use Rattle.std.proofs.Math.Option.{Option};
ghost use Rattle.condition.specs.Condition.{Condition};
ghost use Rattle.sheet.specs.Sheet.{on_channel};
ghost use Rattle.postfix.specs.Parts.{StandsAt, PartIs};
ghost use Rattle.runs.specs.Rules as runs;
ghost use Rattle.runs.specs.Rules.{◌is_in◌};
ghost use Rattle.claims.specs.Claims.{◌says◌, Asks, RaisedIs, then_raised, raised_then, ChannelIs};

use crate::{Claim, Left};
use answers::Rule;
use postfix::Part;

// A word of a condition, then what is raised, is a word of another: rules 7 and 8, 11 and 12, 15 and 16.
pub fn forward(rule: Rule, before: u32, raised: Option<Part>, after: u32) -> Option<Claim>
    ensures { (s : List ℕ) (a b : Condition) (t : Option Condition) → StandsAt s before a → RaisedIs s raised t → StandsAt s after b →
        Asks s result (rule says then_raised a t is_in b) }
{
    let first = Part::Condition(before as usize);
    let right = Part::Condition(after as usize);
    let left = match raised {
        None => Left::One(first),
        Some(second) => Left::Two(first, second),
    };
    Some(Claim::Inclusion { rule, left, right })
}

// What is raised, then a word of a condition, is a word of another: rules 9, 14 and 17.
pub fn backward(rule: Rule, raised: Option<Part>, after: u32, before: u32) -> Option<Claim>
    ensures { (s : List ℕ) (a b : Condition) (t : Option Condition) → RaisedIs s raised t → StandsAt s after b → StandsAt s before a →
        Asks s result (rule says raised_then t b is_in a) }
{
    let second = Part::Condition(after as usize);
    let right = Part::Condition(before as usize);
    let left = match raised {
        None => Left::One(second),
        Some(first) => Left::Two(first, second),
    };
    Some(Claim::Inclusion { rule, left, right })
}

// The condition at an offset, as a call reads it: on channel 0 it is as it is. That exchange changes nothing, so 0 also stands for a call that names no
// channel, and no Option need say that there is none.
pub fn on_channel(at: u32, channel: u32) -> Part
    ensures { (s : List ℕ) (r : Condition) (o : Option ℕ) → StandsAt s at r → ChannelIs o channel → PartIs s result (on_channel o r) }
{
    if channel == 0 {
        return Part::Condition(at as usize);
    }
    Part::Exchanged { at, channel }
}

// The words of a condition are in a part.
pub fn within(rule: Rule, left: u32, right: Part) -> Option<Claim>
    ensures { (s : List ℕ) (a b : Condition) → StandsAt s left a → PartIs s right b → Asks s result (rule says a is_in b) }
{
    let left = Left::One(Part::Condition(left as usize));
    Some(Claim::Inclusion { rule, left, right })
}

// The words of a condition are in another.
pub fn inclusion(rule: Rule, left: u32, right: u32) -> Option<Claim>
    ensures { (s : List ℕ) (a b : Condition) → StandsAt s left a → StandsAt s right b → Asks s result (rule says a is_in b) }
{
    within(rule, left, Part::Condition(right as usize))
}

// A condition holds the empty word.
pub fn holds_empty(rule: Rule, condition: u32) -> Option<Claim>
    ensures { (s : List ℕ) (a : Condition) → StandsAt s condition a → Asks s result (rule says runs.holds_empty a) }
{
    Some(Claim::HoldsEmpty {
        rule,
        part: Part::Condition(condition as usize),
    })
}
