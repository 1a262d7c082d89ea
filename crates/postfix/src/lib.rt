#![tactic(auto)]
// The places of a condition from its symbols in postfix order, pushed on a stack of items one after the other.
ghost use Rattle.std.specs.Prelude.{◌≡◌, ◌↔◌, IsTrue, ◌+◌, ◌-◌, ◌<◌, ◌≤◌, None, IfSome};
ghost use Rattle.std.specs.Option.{ForSome};
ghost use Rattle.format.specs.Symbols.{items_taken, leaves_in};
ghost use Rattle.items.specs.Stack.{Roomy, Rows, Turned};
ghost use Rattle.postfix.specs.Parts.{StandsAt, PartIs, Pushed};

use bits::bit;
use format::symbols::{Symbol, symbol_at, symbol_bytes};
use items::{Places, Stack};
use kinds::Kind;

// A part of a side: the condition whose records stand at an offset, one event, or the condition at an offset with the events of channel 0 and of a
// channel exchanged.
#[derive(Clone, Copy)]
pub enum Part {
    Condition(usize),
    Event(usize),
    Exchanged { at: u32, channel: u32 },
}

// How high a stack is: its items and their leaves.
#[derive(Clone, Copy)]
pub struct Height {
    pub depth: usize,
    pub leaves: usize,
}

// A condition has at most so many symbols.
const SYMBOL_LIMIT: usize = 96;

// A symbol, on a stack of a height, or none, by which all stays. It returns the height then.
pub fn push_symbol(
    symbol: Option<Symbol>,
    top: Height,
    stack: &mut Stack,
    places: &mut Places,
) -> Height
    requires { ForSome symbol (λ y. (items_taken y ≤ top.depth) × (top.depth < 50) × (top.leaves + leaves_in y ≤ 62)) }
    ensures depth { IfSome symbol (λ y. result.depth ≡ top.depth + 1 - items_taken y) }
    ensures leaves { IfSome symbol (λ y. result.leaves ≡ top.leaves + leaves_in y) }
    ensures turned { IfSome symbol (λ y. Turned y stack.old places.old stack.new places.new top.depth top.leaves) }
    ensures none { symbol ≡ None → (result ≡ top) × (stack.new ≡ stack.old) × (places.new ≡ places.old) }
    ensures room { Roomy stack.new }
    ensures rows { Rows places.new }
{
    // borrows, which cost nothing, tell the proof how many items and rows there are
    let _item = &stack.nullable[0];
    let _row = &places.follow[0];
    let Some(symbol) = symbol else {
        return top;
    };
    let depth = top.depth;
    let leaves = top.leaves;
    match symbol {
        Symbol::Leaf(set) => {
            stack.push_leaf(set, depth, leaves, places);
            Height {
                depth: depth + 1,
                leaves: leaves + 1,
            }
        }
        Symbol::Empty => {
            stack.push_empty(depth);
            Height {
                depth: depth + 1,
                leaves,
            }
        }
        Symbol::Join => {
            stack.join_top(depth, places);
            Height {
                depth: depth - 1,
                leaves,
            }
        }
        Symbol::Either => {
            stack.either_top(depth);
            Height {
                depth: depth - 1,
                leaves,
            }
        }
        Symbol::Star => {
            stack.star_top(depth, places);
            top
        }
    }
}

// The items that a symbol takes stand above `floor` items, with its leaf there are at most `most`, and with its item at most 48: a condition of 96
// symbols never has more.
fn fits(symbol: Symbol, floor: usize, top: Height, most: usize) -> bool
    requires { (floor ≤ 1) × (floor ≤ top.depth) × (top.leaves ≤ most) × (most ≤ 62) × (top.depth ≤ floor + 48) }
    ensures { IsTrue result ↔ ((floor + items_taken symbol ≤ top.depth) × (top.leaves + leaves_in symbol ≤ most) × (top.depth < floor + 48 + items_taken symbol)) }
{
    let depth = top.depth;
    let room = depth < floor + 48;
    match symbol {
        Symbol::Leaf(_) => top.leaves < most && room,
        Symbol::Empty => room,
        Symbol::Join => floor + Kind::Join.items_taken() <= depth,
        Symbol::Either => floor + Kind::Either.items_taken() <= depth,
        Symbol::Star => floor + Kind::Star.items_taken() <= depth,
    }
}

// The condition whose records start at `from`, on `floor` items with `base` leaves. It returns how many leaves there are then. The two numbers are where a
// part starts, and a `Height` is where a symbol stands, so that they stay apart.
pub fn push_condition(
    s: &[u8],
    from: usize,
    floor: usize,
    base: usize,
    stack: &mut Stack,
    places: &mut Places,
) -> usize
    requires { (floor ≤ 1) × (base ≤ 31) }
    ensures pushed { Pushed (StandsAt s.now from) stack.old places.old stack.new places.new floor base result }
    ensures room { Roomy stack.new }
    ensures rows { Rows places.new }
{
    // borrows, which cost nothing, tell the proof how many items and rows there are
    let _item = &stack.nullable[0];
    let _row = &places.follow[0];
    let mut at = from;
    let mut top = Height {
        depth: floor,
        leaves: base,
    };
    // a loop, and no chain: each symbol stands where the one before it ends, and three things are carried along
    for _ in 0..SYMBOL_LIMIT {
        let Some(symbol) = symbol_at(s, at) else {
            return top.leaves;
        };
        if !fits(symbol, floor, top, base + 31) {
            return top.leaves;
        }
        at += symbol_bytes(s, at);
        top = push_symbol(Some(symbol), top, stack, places);
    }
    top.leaves
}

// A part of a side, on top of `depth` items with `leaves` leaves. It returns how many leaves there are then.
pub fn push_part(
    s: &[u8],
    part: Part,
    depth: usize,
    leaves: usize,
    stack: &mut Stack,
    places: &mut Places,
) -> usize
    requires { (depth ≤ 1) × (leaves ≤ 31) }
    ensures pushed { Pushed (PartIs s.now part) stack.old places.old stack.new places.new depth leaves result }
    ensures room { Roomy stack.new }
    ensures rows { Rows places.new }
{
    // borrows, which cost nothing, tell the proof how many items and rows there are
    let _item = &stack.nullable[0];
    let _row = &places.follow[0];
    match part {
        Part::Condition(at) => push_condition(s, at, depth, leaves, stack, places),
        Part::Event(e) => {
            if 64 <= e {
                return leaves;
            }
            stack.push_leaf(bit(e), depth, leaves, places);
            leaves + 1
        }
        Part::Exchanged { at, channel } => {
            if 3 < channel {
                return leaves;
            }
            let n = push_condition(s, at as usize, depth, leaves, stack, places);
            places.exchange_sets(leaves, n, channel as usize);
            n
        }
    }
}
