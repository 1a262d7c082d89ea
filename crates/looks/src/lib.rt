#![tactic(auto)]
// Looks at pairs in a search for what a pair needs: a look at one pair, and which pairs need none. A pair serves an event at a place where it is a pair
// of that place, and its set lies within the followers and has only places that hold the event.
ghost use Rattle.std.specs.Prelude.{◌≡◌, false, not, cond, List, ℕ, ◌%◌, ◌≤◌, ◌<◌, T, eqb, length};
ghost use Rattle.std.specs.Int.Bits.{bit_and};
ghost use Rattle.bits.specs.Bits.{has};
ghost use Rattle.certificate.specs.Certificate.{pair_of};
ghost use Rattle.sheet_laws.specs.AtOffset.{certificate_at};
ghost use Rattle.meets.specs.Meets.{table_rows, Surveyed};
ghost use Rattle.looks.specs.Looks.{certificate_of, IsReady, Passed, Takes, Left};

use bits::{bit, chosen, listed, without};
use meets::{ROWS, events_of};
use pairs::known_pair;

// What is the same for all pairs of a certificate: how many they are, over how many events, how many places the left side has and the right one,
// and the left places that hold an event.
#[derive(Clone, Copy)]
pub struct Scope {
    pub count: usize,
    pub events: usize,
    pub n: usize,
    pub m: usize,
    pub alive: u64,
}

// What a search goes by, the same for each look: the certificate's part of the sheet, its scope, the sets of the right side's places, and the rows that
// are kept of it.
#[derive(Clone, Copy)]
pub struct Search<'a> {
    pub pairs: &'a [u8],
    pub scope: Scope,
    pub sets: &'a [u64; 64],
    pub rows: &'a [u64; ROWS],
}

// What a look at a pair leaves: the places that miss an event, and whether the pair served one. No Option: the places are told in both cases.
#[derive(Clone, Copy)]
pub struct Looked {
    pub missers: u64,
    pub served: bool,
}

// The place, below 64, whose row is looked at for a pair: its own where its set lies within the followers.
pub fn row_of(place: usize, set: u64, onward: u64) -> usize
    ensures { (result < 64) × (result ≡ cond (eqb (bit_and set onward) set) (place % 64) 0) }
{
    if set & onward == set { place % 64 } else { 0 }
}

// A row has one of the events. Where it has none, each of its numbers is below 64, as in every word, and is none of them.
pub fn shares(row: u64, events: u64) -> bool
    ensures shared { result ≡ not (eqb (bit_and row events) 0) }
    ensures none { result ≡ false → (e : ℕ) → T (has row e) → (e < 64) × (has events e ≡ false) }
{
    row & events != 0
}

// The first pair from `from` on, below `to`, whose set lies within the followers; `to` where there is none.
pub fn next_within(pairs: &[u8], from: usize, to: usize, onward: u64) -> usize
    requires { (from ≤ to) × (to ≤ length (certificate_at pairs.now 0)) }
    ensures passed { (result ≤ to) × ((m : ℕ) (sets rows : List ℕ) → Passed (certificate_at pairs.now 0) m onward sets rows from result) }
    ensures within { result < to → bit_and (pair_of (certificate_at pairs.now 0) result).set onward ≡ (pair_of (certificate_at pairs.now 0) result).set }
{
    for i in from..to {
        let set = known_pair(pairs, i).set;
        if set & onward == set {
            return i;
        }
    }
    // no Option: the search goes on from this number, one test for both
    to
}

// A pair from `from` on, below `to`, such that no pair before it serves an event that is missing; `to` where there is none. For a certificate of
// more pairs than the table has rows.
pub fn next_serving(
    search: &Search,
    from: usize,
    to: usize,
    onward: u64,
    missing: &[u64; 64],
) -> usize
    requires from_le_to { (from ≤ to) × (to ≤ length (certificate_of search.now)) × (table_rows < length (certificate_of search.now)) }
    requires m_bound { (search.now.scope.m ≤ 64) × Surveyed (certificate_of search.now) search.now.scope.m search.now.sets.now search.now.rows.now }
    ensures { (result ≤ to) × Passed (certificate_of search.now) search.now.scope.m onward search.now.sets.now missing.now from result }
{
    for i in from..to {
        let pair = known_pair(search.pairs, i);
        let set = pair.set;
        let q = row_of(pair.place, set, onward);
        if shares(
            missing[q],
            events_of(i, set, true, search.scope.m, search.sets, search.rows),
        ) {
            return i;
        }
    }
    to
}

// The next pair to look at, from `from` on and below `to`. Of few pairs it is the first; of many those that serve nothing are passed over: at first
// those whose set does not lie within the followers, and when no try is left those whose events are not missing. `from`, `to` and `tries` change from
// look to look, so no struct holds them.
pub fn skip(
    search: &Search,
    onward: u64,
    from: usize,
    to: usize,
    tries: usize,
    missing: &[u64; 64],
) -> usize
    requires { IsReady search.now × (from ≤ to) × (to ≤ search.now.scope.count) }
    ensures { (result ≤ to) × Passed (certificate_of search.now) search.now.scope.m onward search.now.sets.now missing.now from result }
{
    if search.scope.count <= ROWS {
        return from;
    }
    if 0 < tries {
        return next_within(search.pairs, from, to, onward);
    }
    next_serving(search, from, to, onward, missing)
}

// A look at pair i: where its place misses an event and its set lies within the followers, the events that it serves are taken from the row of its
// place.
pub fn look(search: &Search, onward: u64, i: usize, missers: u64, missing: &mut [u64; 64]) -> Looked
    requires { IsReady search.now × (i < search.now.scope.count) }
    ensures left { Left search.now.scope.m onward search.now.sets.now (pair_of (certificate_of search.now) i) missers
        missing.old result.missers missing.new }
    ensures served { T result.served → Takes onward missers (pair_of (certificate_of search.now) i) }
{
    let many = ROWS < search.scope.count;
    let pair = known_pair(search.pairs, i);
    let q = pair.place;
    let set = pair.set;
    // `&`, so that both parts are made: the innermost test of a load, and no branch between them
    if listed(missers, q) & (set & onward == set) {
        let row = missing[q];
        let events = events_of(i, set, many, search.scope.m, search.sets, search.rows);
        let rest = without(row, events);
        missing[q] = rest;
        return Looked {
            missers: missers ^ chosen(rest == 0, bit(q)),
            served: rest != row,
        };
    }
    Looked {
        missers,
        served: false,
    }
}
