// The length of a record's body, decided by its kind: request 7. No table holds the lengths; and of comparisons with ranges, and of no more than two
// kinds in a row, the compiler makes none.
ghost use Rattle.std.specs.Prelude.{◌≡◌, ◌≤◌, ◌<◌};
ghost use Rattle.sheet.specs.Kind.{body_length};
ghost use Rattle.kinds.specs.Kinds.{last_kind};
ghost use Rattle.kinds.specs.Lengths.{length_of};

use crate::Kind;

// The kinds by the bytes that stand for them, as far as the decision names them.
const LEAF: u8 = Kind::Leaf as u8;

const WITH_BODY: u8 = Kind::WithBody as u8;

const EVENT: u8 = Kind::Event as u8;

const PAIR: u8 = Kind::Pair as u8;

const TWO_OUTCOME_PRIMITIVE: u8 = Kind::TwoOutcomePrimitive as u8;

const TWO_OUTCOME_BODY: u8 = Kind::TwoOutcomeBody as u8;

const EDITION: u8 = Kind::Edition as u8;

const STOP: u8 = Kind::Stop as u8;

const CHANNEL_CALL: u8 = Kind::ChannelCall as u8;

const LAST: u8 = Kind::ChannelCall as u8;

// A byte and no `Kind` is asked here and below: the clause answers for each of the 256, also for those that stand for no kind, and a match on kinds is made
// a table.
//
// The length of the body of a kind, or that there is no such kind. Most records are pairs, and of the others most stand in conditions.
pub fn body_length(kind: u8) -> Option<usize>
    ensures { result ≡ length_of kind }
{
    if kind == PAIR {
        return Some(5);
    }
    if kind < 7 {
        return condition_length(kind);
    }
    if LAST < kind {
        return None;
    }
    Some(later_length(kind))
}

// Of the kinds of document 01's conditions, where a leaf alone has a body, and of 0, which is no kind.
fn condition_length(kind: u8) -> Option<usize>
    requires { kind < 7 }
    ensures { result ≡ length_of kind }
{
    if kind == 0 {
        return None;
    }
    if kind == LEAF {
        return Some(4);
    }
    Some(0)
}

// Of the kinds behind them, but for pairs.
fn later_length(kind: u8) -> usize
    requires { (7 ≤ kind) × (kind ≤ last_kind) × (kind ≡ 13 → ⊥) }
    ensures { result ≡ body_length kind }
{
    if kind < 13 {
        return one_outcome_length(kind);
    }
    if kind < 17 {
        return two_outcome_length(kind);
    }
    request_length(kind)
}

// Of the kinds from 17 on. A call of a method of two outcomes and a point with an owner have four fields, and a long leaf has a set of eight bytes. Each
// length is chosen from the one before: of three returns in a row the compiler makes a table.
fn request_length(kind: u8) -> usize
    requires { (17 ≤ kind) × (kind ≤ last_kind) }
    ensures { result ≡ body_length kind }
{
    let mut length: usize = 8;
    if kind == EDITION {
        length = 0;
    }
    if kind == STOP {
        length = 2;
    }
    if kind == CHANNEL_CALL {
        length = 7;
    }
    length
}

// Of a point, a primitive and a method with body; of an event, a call and a pass.
fn one_outcome_length(kind: u8) -> usize
    requires { (7 ≤ kind) × (kind < 13) }
    ensures { result ≡ body_length kind }
{
    if 11 < kind {
        return 4;
    }
    if kind == WITH_BODY {
        return 10;
    }
    if kind == EVENT {
        return 5;
    }
    6
}

// Of the end of a certificate; of a primitive and a method with body that have two outcomes.
fn two_outcome_length(kind: u8) -> usize
    requires { (14 ≤ kind) × (kind < 17) }
    ensures { result ≡ body_length kind }
{
    if kind == TWO_OUTCOME_PRIMITIVE {
        return 10;
    }
    if kind == TWO_OUTCOME_BODY {
        return 16;
    }
    0
}
