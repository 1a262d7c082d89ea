#![tactic(auto)]
// The clauses of a certificate: its first fault, found in its part of the sheet with the tables of the two sides.
ghost use Rattle.std.specs.Prelude.{◌≡◌, ℕ, ◌+◌, ◌*◌, ◌≤◌, ◌<◌, ◌^◌, not, ◌&&◌, eqb, ltb, length, IfOk};
ghost use Rattle.std.specs.Int.Bits.{bit_and};
ghost use Rattle.bits.specs.Bits.{has, ◌⇒◌};
ghost use Rattle.condition.specs.Condition.{Condition};
ghost use Rattle.certificate.specs.Certificate.{starts_right, pair_finding, in_order, check};
ghost use Rattle.sheet_laws.specs.AtOffset.{certificate_at};
ghost use Rattle.faults.specs.Fault.{finding_of};
ghost use Rattle.format.specs.Pairs.{pair_is};
ghost use Rattle.places.specs.Tables.{Tables};
ghost use Rattle.meets.specs.Meets.{table_rows};
ghost use Rattle.looks.specs.Looks.{certificate_of};
ghost use Rattle.known.specs.Known.{Next};
ghost use Rattle.clauses.specs.Clauses.{Spans, each_pair, PlacesOf, SidesAre, Ready};

use bits::member;
use bits::rows::gather;
use clause4::{Ask, active};
use faults::{Fault, fault_of};
use format::listing::Pair;
use items::Places;
use known::{Known, Onward, clause4_once};
use looks::{Scope, Search};
use meets::{ROWS, survey};
use pairs::{bytes_of, known_pair, pair_in};
use places::Side;

// An inclusion that a certificate is to show: over how many events, and the two sides.
#[derive(Clone, Copy)]
pub struct Inclusion {
    pub events: usize,
    pub left_side: Side,
    pub right_side: Side,
}

// Room for the search of faults: the rows that are kept of a certificate, and what is missing at each place.
#[derive(Clone, Copy)]
pub struct Room {
    pub rows: [u64; ROWS],
    pub missing: [u64; 64],
}

// The search for the first fault: what it goes by, the same for all pairs, and the two sides, each with the rows of its places; of the right one the followers
// are read here, and the sets by the search.
#[derive(Clone, Copy)]
pub struct Task<'a> {
    pub search: Search<'a>,
    pub left_side: Side,
    pub right_side: Side,
    pub left: &'a Places,
    pub right: &'a Places,
}

// The pair in turn: its number, its place and set, and what the pair before it leaves for its search.
#[derive(Clone, Copy)]
pub struct Turn {
    pub number: usize,
    pub pair: Pair,
    pub begin: Onward,
}

// The number of a side's places, which is at most 63.
pub fn places_of(side: Side) -> usize
    ensures { PlacesOf side.leaves result }
{
    let leaves = side.leaves;
    if leaves <= 62 { leaves + 1 } else { 63 }
}

// Clause 1: the first pair exists and is place 0 with set 1.
pub fn clause1(pairs: &[u8]) -> bool
    ensures { result ≡ starts_right (certificate_at pairs.now 0) }
{
    let Some(pair) = pair_in(pairs, 0) else {
        return false;
    };
    pair.place == 0 && pair.set == 1
}

// Clause 2: the place is one of n, and the set has only numbers below m.
pub fn clause2(n: usize, m: usize, pair: Pair) -> bool
    requires { m < 64 }
    ensures { result ≡ (ltb pair.place n && ltb pair.set (2 ^ m)) }
{
    pair.place < n && pair.set < 1 << m
}

// Clause 3: if the place ends a word, so does one of the set.
pub fn clause3(lends: u64, rends: u64, pair: Pair) -> bool
    requires { pair.place < 64 }
    ensures { result ≡ (has lends pair.place ⇒ not (eqb (bit_and pair.set rends) 0)) }
{
    !member(lends, pair.place) || pair.set & rends != 0
}

// Clauses 2 to 4 of one pair: its fault, or what it leaves for the next one. What is found is the same wherever the search starts.
pub fn pair_fault(task: &Task, turn: Turn, missing: &mut [u64; 64]) -> Result<Onward, Fault>
    requires ready { Ready task.now }
    requires next_2 { Next task.now.search task.now.left.now.sets turn.begin }
    ensures finding { (l g : Condition) → SidesAre task.now l g → finding_of result ≡ pair_finding task.now.search.scope.events l g (certificate_of task.now.search) turn.number (pair_is turn.pair) }
    ensures next { IfOk result (Next task.now.search task.now.left.now.sets) }
    ensures rows { length missing.new ≡ 64 }
{
    let number = turn.number;
    let pair = turn.pair;
    let m = task.search.scope.m;
    if !clause2(task.search.scope.n, m, pair) {
        return Err(fault_of(2, number));
    }
    if !clause3(task.left_side.ends, task.right_side.ends, pair) {
        return Err(fault_of(3, number));
    }
    let ask = Ask {
        pair: number,
        followers: task.left.follow[pair.place],
        onward: gather(&task.right.follow, m, pair.set),
        start: turn.begin.start,
    };
    clause4_once(
        &task.search,
        ask,
        turn.begin.known,
        &task.left.sets,
        missing,
    )
}

// Clauses 2 to 4 of all pairs, in order: the first fault, or how many bytes the certificate takes with its end.
pub fn in_turn(task: &Task, missing: &mut [u64; 64]) -> Result<usize, Fault>
    requires { Ready task.now }
    ensures finding { (l g : Condition) → SidesAre task.now l g → finding_of result ≡ in_order (length (certificate_of task.now.search)) (each_pair task.now.search.scope.events l g (certificate_of task.now.search)) }
    ensures bytes { IfOk result (λ n. n ≡ 6 * length (certificate_of task.now.search) + 1) }
    ensures rows { length missing.new ≡ 64 }
{
    let count = task.search.scope.count;
    let mut begin = Onward {
        start: 0,
        known: Known {
            followers: 0,
            onward: 0,
        },
    };
    for i in 0..count {
        let turn = Turn {
            number: i,
            pair: known_pair(task.search.pairs, i),
            begin,
        };
        begin = pair_fault(task, turn, missing)?;
    }
    Ok(bytes_of(count))
}

// A certificate that is to show an inclusion, with the rows of the places of the two sides: its first fault, or how many bytes it takes with its end.
// With n pairs it takes at most n * n looks at a pair, each of which reads at most six rows for the set of a sheet's pair.
pub fn first_fault<'a>(
    pairs: &'a [u8],
    t: Inclusion,
    left: &'a Places,
    right: &'a Places,
    room: &'a mut Room,
) -> Result<usize, Fault>
    requires { t.events ≤ 64 }
    ensures finding { (l g : Condition) → Tables l t.left_side left.now.follow left.now.sets → Tables g t.right_side right.now.follow right.now.sets → finding_of result ≡ check t.events l g (certificate_at pairs.now 0) }
    ensures bytes { IfOk result (Spans pairs.now) }
    ensures room { (length room.new.missing ≡ 64) × (length room.new.rows ≡ table_rows) }
{
    if !clause1(pairs) {
        return Err(fault_of(1, 0));
    }
    let events = t.events;
    let n = places_of(t.left_side);
    let m = places_of(t.right_side);
    let count = survey(pairs, m, &right.sets, &mut room.rows);
    let scope = Scope {
        count,
        events,
        n,
        m,
        alive: active(&left.sets, n, events),
    };
    let task = Task {
        search: Search {
            pairs,
            scope,
            sets: &right.sets,
            rows: &room.rows,
        },
        left_side: t.left_side,
        right_side: t.right_side,
        left,
        right,
    };
    in_turn(&task, &mut room.missing)
}
