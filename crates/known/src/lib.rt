#![tactic(auto)]
// Clause 4 of a pair, without a search where an earlier one says that it holds: many pairs of a certificate have the same followers.
ghost use Rattle.std.specs.Prelude.{◌≡◌, ◌&&◌, ◌≤◌, eqb, length, IfOk};
ghost use Rattle.std.specs.Int.Bits.{bit_and};
ghost use Rattle.certificate.specs.Certificate.{in_order};
ghost use Rattle.faults.specs.Fault.{finding_of};
ghost use Rattle.looks.specs.Looks.{certificate_of};
ghost use Rattle.clause4.specs.Clause4.{Scoped, clause4_by_tables};
ghost use Rattle.known.specs.Known.{AllServed, Next};

use clause4::{Ask, clause4};
use faults::Fault;
use looks::Search;

// Followers of a place and of a set that were searched for: the pairs serve each event of the former within the latter.
#[derive(Clone, Copy)]
pub struct Known {
    pub followers: u64,
    pub onward: u64,
}

// What a pair leaves for the next one: the pair at which its search is to start, and what is known to be served.
#[derive(Clone, Copy)]
pub struct Onward {
    pub start: usize,
    pub known: Known,
}

// What is known says that these followers of a place are served within these of a set: the place has no others, and the set has no fewer.
pub fn covers(known: Known, followers: u64, onward: u64) -> bool
    ensures { result ≡ (eqb (bit_and followers known.followers) followers && eqb (bit_and known.onward onward) known.onward) }
{
    followers & known.followers == followers && known.onward & onward == known.onward
}

// Clause 4 of a pair: by what is known, or by a search. The sets are the left side's, and what is missing is written: neither is part of the search.
pub fn clause4_once(
    search: &Search,
    ask: Ask,
    known: Known,
    lsets: &[u64; 64],
    missing: &mut [u64; 64],
) -> Result<Onward, Fault>
    requires scoped { Scoped search.now lsets.now }
    requires start_le_count { (ask.start ≤ search.now.scope.count) × AllServed search.now lsets.now known.followers known.onward }
    ensures finding { finding_of result ≡ in_order search.now.scope.events (clause4_by_tables (certificate_of search.now) search.now.scope.n
        ask.pair ask.followers lsets.now search.now.scope.m ask.onward search.now.sets.now) }
    ensures rows { length missing.new ≡ 64 }
    ensures next { IfOk result (Next search.now lsets.now) }
{
    let start = ask.start;
    let followers = ask.followers;
    let onward = ask.onward;
    if covers(known, followers, onward) {
        return Ok(Onward { start, known });
    }
    let turned = clause4(search, ask, lsets, missing);
    turned.finding?;
    Ok(Onward {
        start: turned.start,
        known: Known { followers, onward },
    })
}
