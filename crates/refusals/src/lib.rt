#![tactic(auto)]
// What a record of a condition does to the condition that is open: it adds to it, ends it, or is refused.
ghost use Rattle.std.specs.Prelude.{◌≡◌};
ghost use Rattle.kinds.specs.Numbers.{kind_number};
ghost use Rattle.refusals.specs.Step.{nothing_begun, leaves_of_kind, Modest, symbol_step, end_step, condition_step};

use format::Refusal;
use kinds::Kind;

pub mod editions; // editions.rt: the mark of the new edition, and stops

// What is begun of a condition: its items, its symbols and its leaves so far.
#[derive(Clone, Copy)]
pub struct Begun {
    pub items: usize,
    pub symbols: usize,
    pub leaves: usize,
}

pub fn nothing_begun() -> Begun
    ensures { result ≡ nothing_begun }
{
    Begun {
        items: 0,
        symbols: 0,
        leaves: 0,
    }
}

fn leaves_in(kind: Kind) -> usize
    ensures { result ≡ leaves_of_kind (kind_number kind) }
{
    if kind.is_leaf() { 1 } else { 0 }
}

// A symbol: what is begun past it, or its refusal.
fn symbol_step(b: Begun, kind: Kind, at: usize) -> Result<Begun, Refusal>
    requires { Modest b }
    ensures { result ≡ symbol_step b (kind_number kind) at }
{
    let taken = kind.items_taken();
    if b.items < taken {
        return Err(Refusal::WrongItems(at));
    }
    if 96 <= b.symbols {
        return Err(Refusal::OverLimit(at));
    }
    if kind.is_leaf() && 31 <= b.leaves {
        return Err(Refusal::OverLimit(at));
    }
    Ok(Begun {
        items: b.items - taken + 1,
        symbols: b.symbols + 1,
        leaves: b.leaves + leaves_in(kind),
    })
}

// The end of a condition, where n conditions have ended before.
fn end_step(b: Begun, n: usize, at: usize) -> Result<Begun, Refusal>
    ensures { result ≡ end_step b n at }
{
    if b.items == 1 {
        if 256 <= n {
            return Err(Refusal::OverLimit(at));
        }
        return Ok(nothing_begun());
    }
    Err(Refusal::WrongItems(at))
}

// A record of a condition: a symbol or its end.
pub fn condition_step(b: Begun, kind: Kind, n: usize, at: usize) -> Result<Begun, Refusal>
    requires { Modest b }
    ensures { result ≡ condition_step b (kind_number kind) n at }
{
    if kind.counts() {
        return end_step(b, n, at);
    }
    symbol_step(b, kind, at)
}
