// The symbols of a condition in postfix order, as values.
ghost use Rattle.format.specs.Symbols.{IsSymbolAt, IsBehind};

use crate::kind_at;
use fields::{byte_at, long_set_at, set_at};
use kinds::Kind;

// A leaf with its set, EMPTY, JOIN, EITHER or STAR.
#[derive(Clone, Copy)]
pub enum Symbol {
    Leaf(u64),
    Empty,
    Join,
    Either,
    Star,
}

// The symbol at an offset, if one is there.
pub fn symbol_at(s: &[u8], at: usize) -> Option<Symbol>
    ensures { IsSymbolAt s.now at result }
{
    match kind_at(s, at)? {
        Kind::Leaf => Some(Symbol::Leaf(set_at(s, at + 1))),
        Kind::Empty => Some(Symbol::Empty),
        Kind::Join => Some(Symbol::Join),
        Kind::Either => Some(Symbol::Either),
        Kind::Star => Some(Symbol::Star),
        Kind::LongLeaf => Some(Symbol::Leaf(long_set_at(s, at + 1))),
        _ => None,
    }
}

// The bytes of the kinds of leaves.
const LEAF: u8 = Kind::Leaf as u8;

const LONG_LEAF: u8 = Kind::LongLeaf as u8;

// How many bytes the record of the symbol at an offset has. By the byte of the kind: of a match on kinds the compiler makes a table of lengths.
pub fn symbol_bytes(s: &[u8], at: usize) -> usize
    ensures { IsBehind s.now at result }
{
    match byte_at(s, at) {
        LEAF => 5,
        LONG_LEAF => 9,
        _ => 1,
    }
}
