// Tables of sets: 64 rows, each a set of numbers below 64. How many rows count, and that a number is below 64, each function asks for: types of such numbers
// would be left at each sum.
ghost use Rattle.std.specs.Prelude.{◌≡◌, ◌&&◌, ℕ, ◌<◌, ◌≤◌, length};
ghost use Rattle.bits.specs.Bits.{has};
ghost use Rattle.bits.specs.Rows.{row_has, in_rows, Linked, Holding, Unions, IsLowest};

use crate::{Members, below, bit, chosen, member};

// The rows whose numbers the set has get the numbers of `more`.
pub fn link(set: u64, more: u64, rows: &mut [u64; 64])
    requires { length rows.old ≡ 64 }
    ensures { Linked set more rows.old rows.new }
{
    for p in Members::of(set) {
        rows[p] |= more;
    }
}

// The union of the rows below n whose numbers the set has.
pub fn gather(rows: &[u64; 64], n: usize, set: u64) -> u64
    requires { n ≤ 64 }
    ensures { (k : ℕ) → has result k ≡ in_rows rows.now n set k }
{
    let mut found: u64 = 0;
    for p in Members::of(set & below(n)) {
        found |= rows[p];
    }
    found
}

// Unions that are kept: of the last set with each lowest number, the set and the union of its rows.
#[derive(Drop)]
pub struct Kept {
    pub sets: [u64; 64],
    pub unions: [u64; 64],
}

// The same union, by what is kept, so that a set that comes again is not gathered again.
pub fn union_of(rows: &[u64; 64], n: usize, set: u64, kept: &mut Kept) -> u64
    requires { (n ≤ 64) × Unions rows.now n kept.old.sets kept.old.unions }
    ensures union { (k : ℕ) → has result k ≡ in_rows rows.now n set k }
    ensures kept { Unions rows.now n kept.new.sets kept.new.unions }
{
    let p = u64::trailing_zeros(set) as usize;
    if 64 <= p {
        return 0;
    }
    if kept.sets[p] == set {
        return kept.unions[p];
    }
    let union = gather(rows, n, set);
    kept.sets[p] = set;
    kept.unions[p] = union;
    union
}

// The rows from 1 to n that have the number k.
pub fn holders(rows: &[u64; 64], n: usize, k: usize) -> u64
    requires { (n ≤ 62) × (k < 64) }
    ensures { (q : ℕ) → 0 < q → q ≤ n → has result q ≡ row_has rows.now q k }
{
    let mut found: u64 = 0;
    for q in 1..=n {
        found |= chosen(member(rows[q], k), bit(q));
    }
    found
}

// For each number below m, the rows from 1 to n that have it: one table is read, and one is written.
pub fn fill_holding(rows: &[u64; 64], n: usize, m: usize, holding: &mut [u64; 64])
    requires { (n ≤ 62) × (m ≤ 64) × (length holding.old ≡ 64) }
    ensures { Holding rows.now n m holding.new }
{
    for k in 0..m {
        holding[k] = holders(rows, n, k);
    }
}

// The lowest number below n of the set whose row has the number k.
pub fn lowest_row(rows: &[u64; 64], set: u64, n: usize, k: usize) -> Option<usize>
    requires { (n ≤ 64) × (k < 64) }
    ensures { IsLowest n (λ q. has set q && row_has rows.now q k) result }
{
    for q in 0..n {
        if member(set, q) && member(rows[q], k) {
            return Some(q);
        }
    }
    None
}
