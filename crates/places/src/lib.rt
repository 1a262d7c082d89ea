#![tactic(auto)]
// The places of a condition, or of two joined, as tables: from the postfix records in the sheet's bytes.
ghost use Rattle.std.specs.Prelude.{◌≤◌};
ghost use Rattle.condition.specs.Condition.{Condition, join};
ghost use Rattle.items.specs.Stack.{Roomy, Rows};
ghost use Rattle.postfix.specs.Parts.{PartIs};
ghost use Rattle.places.specs.Tables.{Tables, Settled};

use items::{Item, Places, Stack};
use postfix::{Part, push_part};

// A side's places besides its tables: how many leaves it has, and the set of places that end a word.
#[derive(Clone, Copy)]
pub struct Side {
    pub leaves: usize,
    pub ends: u64,
}

// Place 0 is folded in: its followers are the first leaves, and it ends a word where the side is nullable.
fn settle(leaves: usize, item: Item, places: &mut Places) -> Side
    ensures settled { Settled leaves item result places.old places.new }
    ensures rows { Rows places.new }
{
    places.follow[0] = item.first;
    Side {
        leaves,
        ends: item.ends(),
    }
}

// The side of one part, found on a stack that is lent.
pub fn side_of(s: &[u8], part: Part, stack: &mut Stack, places: &mut Places) -> Side
    ensures few { result.leaves ≤ 62 }
    ensures tables { (r : Condition) → PartIs s.now part r →
        Tables r result places.new.follow places.new.sets }
    ensures room { Roomy stack.new }
    ensures rows { Rows places.new }
{
    let leaves = push_part(s, part, 0, 0, stack, places);
    settle(leaves, stack.item(0), places)
}

// The side of two parts, one after the other, found on a stack that is lent.
pub fn joined_side(s: &[u8], a: Part, b: Part, stack: &mut Stack, places: &mut Places) -> Side
    ensures few { result.leaves ≤ 62 }
    ensures tables { (r t : Condition) → PartIs s.now a r → PartIs s.now b t →
        Tables (join r t) result places.new.follow places.new.sets }
    ensures room { Roomy stack.new }
    ensures rows { Rows places.new }
{
    let m = push_part(s, a, 0, 0, stack, places);
    let n = push_part(s, b, 1, m, stack, places);
    stack.join_top(2, places);
    settle(n, stack.item(0), places)
}
