#![tactic(auto)]
// Whether a condition holds a word, by stepping its places event by event; where not, how far the word begins some word of it.
ghost use Rattle.std.specs.Prelude.{◌≡◌, ℕ, ◌<◌, ◌≤◌, length, get_or};
ghost use Rattle.bits.specs.Bits.{has};
ghost use Rattle.condition.specs.Condition.{Condition};
ghost use Rattle.condition.specs.Places.{live};
ghost use Rattle.postfix.specs.Parts.{StandsAt};
ghost use Rattle.places.specs.Tables.{Tables};
ghost use Rattle.matching.specs.Holding.{HoldingFirst};
ghost use Rattle.matching.specs.Matched.{matched};

use bits::rows::{Kept, fill_holding, holders, union_of};
use bits::{bit, chosen};
use items::{Places, Stack};
use places::{Side, side_of};
use postfix::Part;

// For a word of at most so many events the leaves that hold each are looked for one by one.
const FEW: usize = 12;

// For each event of the word, the leaves that hold it. Of the rows of places only `sets` is read here, and `holding` is written.
fn fill_each(sets: &[u64; 64], leaves: usize, word: &[u8], holding: &mut [u64; 64])
    requires { (leaves ≤ 62) × (length holding.old ≡ 64) × ((i : ℕ) → i < length word.now → get_or word.now i 0 < 64) }
    ensures { HoldingFirst sets.now leaves word.now (length word.now) holding.new }
{
    for &event in word {
        let e = usize::from(event);
        holding[e] = holders(sets, leaves, e);
    }
}

// The same, for a longer word by all events.
fn fill_for(sets: &[u64; 64], leaves: usize, events: usize, word: &[u8], holding: &mut [u64; 64])
    requires { (leaves ≤ 62) × (events ≤ 64) × (length holding.old ≡ 64) × ((i : ℕ) → i < length word.now → get_or word.now i 0 < events) }
    ensures { HoldingFirst sets.now leaves word.now (length word.now) holding.new }
{
    if word.len() <= FEW {
        fill_each(sets, leaves, word, holding);
    } else {
        fill_holding(sets, leaves, events, holding);
    }
}

// The live places of a side, from right to left: a live place ends a word, or one of its followers further right is live and holds some event.
fn live_of(side: Side, rows: &Places) -> u64
    requires { side.leaves ≤ 62 }
    ensures { (r : Condition) → Tables r side rows.now.follow rows.now.sets → (p : ℕ) → has result p ≡ live r p }
{
    let mut live: u64 = side.ends;
    // the live places found so far whose leaf holds some event
    let mut entered: u64 = 0;
    for p in (0..=side.leaves).rev() {
        let here = bit(p);
        live |= chosen(rows.follow[p] & entered != 0, here);
        entered |= chosen(rows.sets[p] != 0, live & here);
    }
    live
}

// The places after each event are the followers of those before that hold it. No word can be finished where none of them is live. An error is the
// length of the longest beginning of the word that begins some word of the condition.
fn word_along(side: Side, rows: &Places, events: usize, word: &[u8]) -> Result<(), usize>
    requires { (side.leaves ≤ 62) × (events ≤ 64) × ((i : ℕ) → i < length word.now → get_or word.now i 0 < events) }
    ensures { (r : Condition) → Tables r side rows.now.follow rows.now.sets → result ≡ matched r word.now }
{
    let leaves = side.leaves;
    let ends = side.ends;
    let live = live_of(side, rows);
    let mut holding: [u64; 64] = [0; 64];
    fill_for(&rows.sets, leaves, events, word, &mut holding);
    let mut kept = Kept {
        sets: [0; 64],
        unions: [0; 64],
    };
    let mut places: u64 = 1;
    for (i, &event) in word.iter().enumerate() {
        let union = union_of(&rows.follow, leaves + 1, places, &mut kept);
        places = union & holding[usize::from(event)];
        if places & live == 0 {
            return Err(i);
        }
    }
    if places & ends == 0 {
        return Err(word.len());
    }
    Ok(())
}

// The condition at an offset holds the word; or it does not, and the error is the length of the longest beginning of the word that begins some word
// of it.
pub fn match_word(s: &[u8], at: usize, events: usize, word: &[u8]) -> Result<(), usize>
    requires { (events ≤ 64) × ((i : ℕ) → i < length word.now → get_or word.now i 0 < events) }
    ensures { (r : Condition) → StandsAt s.now at r → result ≡ matched r word.now }
{
    let mut stack = Stack::EMPTY;
    let mut rows = Places::EMPTY;
    let side = side_of(s, Part::Condition(at), &mut stack, &mut rows);
    word_along(side, &rows, events, word)
}
