#![tactic(auto)]
// The events that each place of a set holds: a pair with that set serves them. A table of 384 rows keeps them, so that a search need not find them
// again: a row for each pair where a certificate has no more pairs than rows, as most have. Of a longer one the rows are for groups of places, and
// a set takes six rows, whatever its places. The sets are the right side's and the rows the search's, which outlives it: two tables, of no one struct.
// m, how many places the right side has, is at most 64: each function asks for it, since a type of such a number would be left at each comparison.
ghost use Rattle.std.specs.Prelude.{◌≡◌, ℕ, ◌≤◌, ◌<◌, length, ltb};
ghost use Rattle.bits.specs.Bits.{has};
ghost use Rattle.certificate.specs.Certificate.{Certificate, pair_of};
ghost use Rattle.sheet_laws.specs.AtOffset.{certificate_at};
ghost use Rattle.meets.specs.Meets.{all_hold, table_rows, PairRows, GroupRows, Surveyed};

use bits::{Members, below};
use pairs::pair_in;

// How many rows the table has.
pub const ROWS: usize = 384;

// The events that each place of the set below m holds.
pub fn meet(set: u64, m: usize, sets: &[u64; 64]) -> u64
    requires { m ≤ 64 }
    ensures { (e : ℕ) → e < 64 → has result e ≡ all_hold m sets.now set e }
{
    let mut events = u64::MAX;
    for k in Members::of(set & below(m)) {
        events &= sets[k];
    }
    events
}

// How many pairs the certificate has. Row i becomes the events that each place of pair i's set holds, of the pairs that have a row.
fn fill_pairs(pairs: &[u8], m: usize, sets: &[u64; 64], rows: &mut [u64; ROWS]) -> usize
    requires { m ≤ 64 }
    ensures count { result ≡ length (certificate_at pairs.now 0) }
    ensures rows { PairRows (certificate_at pairs.now 0) m sets.now result rows.new }
{
    // how many pairs there are is known only at the end
    let mut count: usize = 0;
    while let Some(pair) = pair_in(pairs, count) {
        if count < ROWS {
            rows[count] = meet(pair.set, m, sets);
        }
        count += 1;
    }
    count
}

// Row 64 g + x becomes the events that each place 6 g + b holds, for the bits b of x.
fn fill_groups(m: usize, sets: &[u64; 64], rows: &mut [u64; ROWS])
    requires { m ≤ 64 }
    ensures { GroupRows m sets.now table_rows rows.new }
{
    for (j, row) in rows.iter_mut().enumerate() {
        *row = meet(((j % 64) as u64) << (6 * (j / 64)), m, sets);
    }
}

// How many pairs the certificate has. The rows become what the search asks of them: by pairs where these are few, else by groups.
pub fn survey(pairs: &[u8], m: usize, sets: &[u64; 64], rows: &mut [u64; ROWS]) -> usize
    requires { m ≤ 64 }
    ensures count { result ≡ length (certificate_at pairs.now 0) }
    ensures rows { Surveyed (certificate_at pairs.now 0) m sets.now rows.new }
{
    let count = fill_pairs(pairs, m, sets, rows);
    if ROWS < count {
        fill_groups(m, sets, rows);
    }
    count
}

// The events that each place of the set below m holds, group after group. The groups have 36 places, so that their sets are below 2 ^ 36; a sheet has
// no other sets.
fn meet_groups(set: u64, m: usize, sets: &[u64; 64], rows: &[u64; ROWS]) -> u64
    requires { m ≤ 64 }
    ensures { GroupRows m sets.now table_rows rows.now → (e : ℕ) → e < 64 → has result e ≡ all_hold m sets.now set e }
{
    if 68719476735 < set {
        return meet(set, m, sets);
    }
    let mut events = u64::MAX;
    for g in 0..6usize {
        let x = ((set >> (6 * g)) & 63) as usize;
        events &= rows[64 * g + x];
    }
    events
}

// The events that each place of the set holds, which is that of pair i: by the pair's row, or by the groups where there are many pairs. The parts of a
// search are named one by one: the struct that has them stands above, since it has more.
pub fn events_of(
    i: usize,
    set: u64,
    many: bool,
    m: usize,
    sets: &[u64; 64],
    rows: &[u64; ROWS],
) -> u64
    requires { m ≤ 64 }
    ensures { (c : Certificate) → Surveyed c m sets.now rows.now → many ≡ ltb table_rows (length c) → i < length c
        → (pair_of c i).set ≡ set → (e : ℕ) → e < 64 → has result e ≡ all_hold m sets.now set e }
{
    if many {
        return meet_groups(set, m, sets, rows);
    }
    if i < ROWS { rows[i] } else { 0 }
}
