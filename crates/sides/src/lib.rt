#![tactic(auto)]
// The sides of a claim: the places of its conditions, in tables.
ghost use Rattle.condition.specs.Condition.{Condition};
ghost use Rattle.items.specs.Stack.{Roomy, Rows};
ghost use Rattle.places.specs.Tables.{Tables};
ghost use Rattle.runs.specs.Rules as runs;
ghost use Rattle.claims.specs.Claims.{LeftIs, Says};
ghost use Rattle.sides.specs.Questions.{QuestionIs};

use answers::Rule;
use claims::{Claim, Left};
use items::{Places, Stack};
use places::{Side, joined_side, side_of};

// A claim whose sides are in the tables. No one generic enum with `Claim`: there the left is of another type than the right, and no function is of both.
#[derive(Clone, Copy)]
pub enum Question {
    Inclusion { rule: Rule, left: Side, right: Side },
    HoldsEmpty { rule: Rule, side: Side },
}

// The side of a claim's left, found on a stack that is lent.
fn left_side(s: &[u8], left: Left, stack: &mut Stack, places: &mut Places) -> Side
    ensures tables { (r : Condition) → LeftIs s.now left r → Tables r result places.new.follow places.new.sets }
    ensures room { Roomy stack.new }
    ensures rows { Rows places.new }
{
    match left {
        Left::One(part) => side_of(s, part, stack, places),
        Left::Two(first, second) => joined_side(s, first, second, stack, places),
    }
}

// The sides of a claim, each in its tables.
pub fn sides_of(
    s: &[u8],
    claim: Claim,
    stack: &mut Stack,
    left: &mut Places,
    right: &mut Places,
) -> Question
    ensures asks { (x : runs.Rule) → Says s.now claim x → QuestionIs left.new right.new result x }
    ensures room { Roomy stack.new }
    ensures rows { Rows left.new × Rows right.new }
{
    // a borrow, which costs nothing, tells the proof how many rows there are
    let _row = &right.follow[0];
    match claim {
        Claim::Inclusion {
            rule,
            left: parts,
            right: part,
        } => Question::Inclusion {
            rule,
            left: left_side(s, parts, stack, left),
            right: side_of(s, part, stack, right),
        },
        Claim::HoldsEmpty { rule, part } => Question::HoldsEmpty {
            rule,
            side: side_of(s, part, stack, left),
        },
    }
}
