#![tactic(auto)]
// Whether what a record names exists: names point only backward. That a record of the kind stands at the offset (`Named`) is a fact of three parameters, so
// each function asks for it, and no type of one of them holds it.
ghost use Rattle.std.specs.Prelude.{◌≡◌, ℕ, ◌+◌, ◌≤◌, ◌<◌, length, ltb};
ghost use Rattle.sheet.specs.Kind.{kind_of, section_of, steps};
ghost use Rattle.sheet.specs.Record.{record_at};
ghost use Rattle.sheet_laws.specs.AtOffset.{short_at};
ghost use Rattle.sheet.specs.Reading.{all_exist};
ghost use Rattle.kinds.specs.Numbers.{kind_number};
ghost use Rattle.tally.specs.Tally.{count_of};
ghost use Rattle.format.specs.Named.{Named};
ghost use Rattle.names.specs.Names.{two_below, three_below};

use fields::short_inside;
use kinds::{Kind, Section};
use tally::Tally;

pub mod channels; // channels.rt: whether a call on a channel names a plain primitive and a channel
pub mod judge; // judge.rt: what a record is refused for by what it names
pub mod outcomes; // outcomes.rt: whether a call names a method with as many outcomes

// The name at an offset, and two and three one after the other, are of the first n.
fn below(s: &[u8], i: usize, n: usize) -> bool
    requires { i + 2 ≤ length s.now }
    ensures { result ≡ ltb (short_at s.now i) n }
{
    short_inside(s, i) < n
}

fn two_below(s: &[u8], i: usize, n: usize) -> bool
    requires { i + 4 ≤ length s.now }
    ensures { result ≡ two_below s.now i n }
{
    below(s, i, n) && below(s, i + 2, n)
}

fn three_below(s: &[u8], i: usize, n: usize) -> bool
    requires { i + 6 ≤ length s.now }
    ensures { result ≡ three_below s.now i n }
{
    below(s, i, n) && two_below(s, i + 2, n)
}

// In both functions below the tests stand under `&`, by value: where `&&` joins them, the proof knows the value of two only by cases.

// What a point or a method names is counted in the tally: three conditions, and what its kind has behind them.
fn declared_names_exist(s: &[u8], at: usize, kind: Kind, tally: Tally) -> bool
    requires { Named s.now at (kind_number kind) × (section_of (kind_number kind) < steps) }
    ensures { (events : ℕ) → result ≡ all_exist events (count_of tally) (kind_of (kind_number kind)).fields (record_at s.now at).values }
{
    let named = three_below(s, at + 1, tally.conditions);
    match kind {
        Kind::WithBody => named & two_below(s, at + 7, tally.points),
        Kind::TwoOutcomePrimitive => named & two_below(s, at + 7, tally.conditions),
        Kind::TwoOutcomeBody => {
            named
                & two_below(s, at + 7, tally.points)
                & two_below(s, at + 11, tally.conditions)
                & below(s, at + 15, tally.points)
        }
        _ => named,
    }
}

// What a step names is counted in the tally, and its event is of the first `events`: of a stop one point, of the others two, and what the kind has behind
// them.
fn step_names_exist(s: &[u8], at: usize, kind: Kind, tally: Tally, events: usize) -> bool
    requires { Named s.now at (kind_number kind) × (steps ≤ section_of (kind_number kind)) }
    ensures { result ≡ all_exist events (count_of tally) (kind_of (kind_number kind)).fields (record_at s.now at).values }
{
    if let Kind::Stop = kind {
        return below(s, at + 1, tally.points);
    }
    let named = two_below(s, at + 1, tally.points);
    match kind {
        Kind::Event => named & (usize::from(s[at + 5]) < events),
        // a call and one on a channel apart: an edit turns one of them alone
        Kind::Call => named & below(s, at + 5, tally.methods),
        Kind::ChannelCall => named & below(s, at + 5, tally.methods),
        Kind::TwoOutcomeCall => {
            named & below(s, at + 5, tally.points) & below(s, at + 7, tally.methods)
        }
        _ => named,
    }
}

// What a point, a method or a step names is counted in the tally, and its event is of the first `events`.
pub fn names_exist(s: &[u8], at: usize, kind: Kind, tally: Tally, events: usize) -> bool
    requires { Named s.now at (kind_number kind) }
    ensures { result ≡ all_exist events (count_of tally) (kind_of (kind_number kind)).fields (record_at s.now at).values }
{
    match kind.section() {
        Section::Steps => step_names_exist(s, at, kind, tally, events),
        _ => declared_names_exist(s, at, kind, tally),
    }
}
