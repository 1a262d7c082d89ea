#![tactic(auto)]
// Clause 4 of a pair: the events that are missing at each follower of its place, until a pair of that follower serves them. The table `missing`
// has a row for each place; only the rows of the places `missers` count.
ghost use Rattle.std.specs.Prelude.{◌≡◌, cond, ◌≤◌, ◌<◌, ltb, length};
ghost use Rattle.std.specs.Int.Bits.{bit_and};
ghost use Rattle.bits.specs.Bits.{has};
ghost use Rattle.certificate.specs.Certificate.{in_order};
ghost use Rattle.faults.specs.Fault.{finding_of};
ghost use Rattle.looks.specs.Looks.{certificate_of, IsReady};
ghost use Rattle.clause4.specs.Clause4.{Active, Scoped, Wanted, Served, Hint, missing_at, clause4_by_tables};

use bits::rows::{gather, lowest_row};
use bits::{Members, below, bit, chosen, lowest, without};
use faults::Fault;
use looks::{Scope, Search, look, skip};

// What clause 4 asks of a pair: its number, the followers of its place and those of its set, and the pair at which the search starts.
#[derive(Clone, Copy)]
pub struct Ask {
    pub pair: usize,
    pub followers: u64,
    pub onward: u64,
    pub start: usize,
}

// What is found of a pair, and the number of the pair at which the search for the next one is to start, beside a fault too. The program chooses that
// number: what is found is the same for each.
#[derive(Clone, Copy)]
pub struct Turned {
    pub finding: Result<(), Fault>,
    pub start: usize,
}

// The rest of what is missing: the places that miss an event, and the pair at which the next search may start. That is the lowest pair that served,
// or the number of pairs where none did.
#[derive(Clone, Copy)]
pub struct Rest {
    pub missers: u64,
    pub lowest: usize,
}

// The looks in vain that a search of many pairs may make before it asks of each pair which events it serves.
pub const TRIES: usize = 64;

// The places below n whose leaf holds an event.
pub fn active(sets: &[u64; 64], n: usize, events: usize) -> u64
    requires { (n ≤ 64) × (events ≤ 64) }
    ensures { Active sets.now n events result }
{
    let mask = below(events);
    let mut found = 0;
    for q in 0..n {
        found |= chosen(sets[q] & mask != 0, bit(q));
    }
    found
}

// The row of each place of `missers` becomes the events of `mask` that its leaf holds. The sets are the left side's, and only read: `missing` is written, so
// that it is no part of a struct with them.
pub fn want(missers: u64, sets: &[u64; 64], mask: u64, missing: &mut [u64; 64])
    ensures { Wanted missers sets.now mask missing.new }
{
    for q in Members::of(missers) {
        missing[q] = sets[q] & mask;
    }
}

// A search starts at the pair that is asked for, and at the first where there is no such pair.
pub fn start_of(asked: usize, count: usize) -> usize
    ensures start { result ≡ cond (ltb asked count) asked 0 }
    ensures bound { (result ≤ count) × (0 < count → result < count) }
{
    if asked < count { asked } else { 0 }
}

// What the pairs leave of what the places `wanted` miss: from the pair that the ask names to the last, and then from the first on. It stops where
// nothing is missing any more. What is left is the same wherever it starts.
pub fn serve(search: &Search, ask: Ask, wanted: u64, missing: &mut [u64; 64]) -> Rest
    requires { IsReady search.now }
    ensures rest { Served (certificate_of search.now) search.now.scope.m ask.onward search.now.sets.now wanted
        missing.old result.missers missing.new }
    ensures hint { Hint (certificate_of search.now) ask.onward wanted result.lowest }
{
    let onward = ask.onward;
    let count = search.scope.count;
    let start = start_of(ask.start, count);
    let mut missers = wanted;
    let mut lowest = count;
    let mut i = start;
    let mut to = count;
    let mut tries = TRIES;
    // no `for`: `skip` sets the number of the pair, and the search goes round
    while missers != 0 {
        i = skip(search, onward, i, to, tries, missing);
        if i < to {
            let looked = look(search, onward, i, missers, missing);
            missers = looked.missers;
            if looked.served {
                if i < lowest {
                    lowest = i;
                }
            } else {
                tries = tries.saturating_sub(1);
            }
            i += 1;
            continue;
        }
        if to == start {
            return Rest { missers, lowest };
        }
        i = 0;
        to = start;
    }
    Rest { missers, lowest }
}

// What clause 4 finds of pair i: the lowest event that is missing, at the lowest place that misses it.
pub fn first_missing(scope: Scope, missers: u64, i: usize, missing: &[u64; 64]) -> Result<(), Fault>
    requires { (scope.n ≤ 64) × (scope.events ≤ 64) }
    ensures { finding_of result ≡ in_order scope.events (missing_at scope.n i missers missing.now) }
{
    if missers == 0 {
        return Ok(());
    }
    let all = gather(missing, scope.n, missers);
    let Some(event) = lowest(all, scope.events) else {
        return Ok(());
    };
    let Some(place) = lowest_row(missing, missers, scope.n, event) else {
        return Ok(());
    };
    Err(Fault {
        clause: 4,
        pair: i,
        event,
        place,
    })
}

// Clause 4 of a pair. The search for the next one is to start at the lowest pair that served this one: what a pair needs often stands near what the
// pair before it needed. What is found is the same wherever a search starts.
pub fn clause4(search: &Search, ask: Ask, lsets: &[u64; 64], missing: &mut [u64; 64]) -> Turned
    requires { Scoped search.now lsets.now }
    ensures finding { finding_of result.finding ≡ in_order search.now.scope.events (clause4_by_tables (certificate_of search.now) search.now.scope.n
        ask.pair ask.followers lsets.now search.now.scope.m ask.onward search.now.sets.now) }
    ensures rows { length missing.new ≡ 64 }
    ensures hint { Hint (certificate_of search.now) ask.onward (bit_and ask.followers search.now.scope.alive) result.start }
{
    let wanted = ask.followers & search.scope.alive;
    want(wanted, lsets, below(search.scope.events), missing);
    let rest = serve(search, ask, wanted, missing);
    Turned {
        finding: first_missing(search.scope, rest.missers, ask.pair, missing),
        start: rest.lowest,
    }
}
