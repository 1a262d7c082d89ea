#![tactic(auto)]
// The stack of items by which the places of a condition are found from its symbols in postfix order, and the rows of the leaves of all its items.
ghost use Rattle.std.specs.Prelude.{◌≡◌, cond, ℕ, ◌<◌, ◌≤◌};
ghost use Rattle.std.specs.Int.Bits.{bit_or};
ghost use Rattle.condition.specs.Exchange.{exchange_set};
ghost use Rattle.format.specs.declared.symbols.Symbol.TheVariants.{Leaf, Empty, Join, Either, Star};
ghost use Rattle.items.specs.Stack.{Roomy, Rows, item_at, Turned};
ghost use Rattle.items.specs.Channels.{SetsExchanged};

use bits::rows::link;
use bits::{bit, chosen};

// The rows of a side's places: row p of `follow` is the set of the followers of place p, and row q of `sets` the set of leaf q.
#[derive(Clone, Copy)]
pub struct Places {
    pub follow: [u64; 64],
    pub sets: [u64; 64],
}

// An item says of a condition whether it is nullable, and has the sets of its first and of its last leaves, which it has in both cases.
#[derive(Clone, Copy)]
pub struct Item {
    pub nullable: bool,
    pub first: u64,
    pub last: u64,
}

// The items of a stack, each field in a table of its own: so an item takes 17 bytes, and 24 as one value. There is room for the items of one condition, on
// one item: of 96 symbols that leave one item, each adds at most one, so there are never more than 48.
#[derive(Clone, Copy)]
pub struct Stack {
    pub nullable: [bool; 50],
    pub first: [u64; 50],
    pub last: [u64; 50],
}

impl Stack {
    // A stack with no item on it.
    pub const EMPTY: Stack = Stack {
        nullable: [false; 50],
        first: [0; 50],
        last: [0; 50],
    };

    // The item at place i.
    pub fn item(&self, i: usize) -> Item
        requires { i < 50 }
        ensures { result ≡ item_at self.now i }
    {
        Item {
            nullable: self.nullable[i],
            first: self.first[i],
            last: self.last[i],
        }
    }

    // A leaf on top of `depth` items with `leaves` leaves.
    pub fn push_leaf(&mut self, set: u64, depth: usize, leaves: usize, places: &mut Places)
        requires { (depth < 50) × (leaves < 62) }
        ensures turned { Turned (Leaf set) self.old places.old self.new places.new depth leaves }
        ensures room { Roomy self.new }
        ensures rows { Rows places.new }
    {
        let place = leaves + 1;
        places.follow[place] = 0;
        places.sets[place] = set;
        let alone = bit(place);
        self.nullable[depth] = false;
        self.first[depth] = alone;
        self.last[depth] = alone;
    }

    // The empty condition on top of `depth` items.
    pub fn push_empty(&mut self, depth: usize)
        requires { depth < 50 }
        ensures turned { (p : Places) (m : ℕ) → Turned Empty self.old p self.new p depth m }
        ensures room { Roomy self.new }
    {
        self.nullable[depth] = true;
        self.first[depth] = 0;
        self.last[depth] = 0;
    }

    // The join of the two topmost of `depth` items: each first of the second follows each last of the first.
    pub fn join_top(&mut self, depth: usize, places: &mut Places)
        requires { (2 ≤ depth) × (depth ≤ 50) }
        ensures turned { (m : ℕ) → m < 64 → Turned Join self.old places.old self.new places.new depth m }
        ensures sets { places.new.sets ≡ places.old.sets }
        ensures room { Roomy self.new }
        ensures rows { Rows places.new }
    {
        let top = depth - 1;
        let under = top - 1;
        let lasts = self.last[under];
        let firsts = self.first[top];
        link(lasts, firsts, &mut places.follow);
        let a = self.nullable[under];
        let b = self.nullable[top];
        // `chosen` takes a set or none by value; an `if` says no more
        self.first[under] |= chosen(a, firsts);
        self.last[under] = chosen(b, lasts) | self.last[top];
        self.nullable[under] = a && b;
    }

    // The union of the two topmost of `depth` items.
    pub fn either_top(&mut self, depth: usize)
        requires { (2 ≤ depth) × (depth ≤ 50) }
        ensures turned { (p : Places) (m : ℕ) → Turned Either self.old p self.new p depth m }
        ensures room { Roomy self.new }
    {
        let top = depth - 1;
        let under = top - 1;
        self.first[under] |= self.first[top];
        self.last[under] |= self.last[top];
        self.nullable[under] = self.nullable[under] || self.nullable[top];
    }

    // The star of the topmost of `depth` items: each of its firsts follows each of its lasts. The firsts and the lasts of all items stay.
    pub fn star_top(&mut self, depth: usize, places: &mut Places)
        requires { (1 ≤ depth) × (depth ≤ 50) }
        ensures turned { (m : ℕ) → m < 64 → Turned Star self.old places.old self.new places.new depth m }
        ensures sets { places.new.sets ≡ places.old.sets }
        ensures stays { (k : ℕ) → ((item_at self.new k).first ≡ (item_at self.old k).first) × ((item_at self.new k).last ≡ (item_at self.old k).last) }
        ensures room { Roomy self.new }
        ensures rows { Rows places.new }
    {
        let top = depth - 1;
        link(self.last[top], self.first[top], &mut places.follow);
        self.nullable[top] = true;
    }
}

impl Item {
    // The places that end a word, of an item that stands alone: its last leaves, and place 0 where it is nullable.
    pub fn ends(self) -> u64
        ensures { result ≡ bit_or self.last (cond self.nullable 1 0) }
    {
        self.last | chosen(self.nullable, 1)
    }
}

// A channel is a number here, which is computed with: the events of channel c stand 16 c above those of channel 0.
//
// The set of a leaf with the events of channel 0 and of the channel exchanged: each bit in which the two differ is turned over in both.
pub fn exchanged(set: u64, channel: usize) -> u64
    requires { channel ≤ 3 }
    ensures { result ≡ exchange_set channel set }
{
    let shift = 16 * channel;
    let differing = (set ^ (set >> shift)) % 65536;
    set ^ differing ^ (differing << shift)
}

impl Places {
    // The rows before any place is found.
    pub const EMPTY: Places = Places {
        follow: [0; 64],
        sets: [0; 64],
    };

    // The sets of the leaves behind the first `from`, up to leaf `to`, with the events of channel 0 and of the channel exchanged.
    pub fn exchange_sets(&mut self, from: usize, to: usize, channel: usize)
        requires { (to < 64) × (channel ≤ 3) }
        ensures sets { SetsExchanged from to channel self.old.sets self.new.sets }
        ensures follow { self.new.follow ≡ self.old.follow }
        ensures rows { Rows self.new }
    {
        // by the leaf before, since `from` may be any number: a slice from `from + 1` on would need it to be below `to`
        for q in from..to {
            self.sets[q + 1] = exchanged(self.sets[q + 1], channel);
        }
    }
}
