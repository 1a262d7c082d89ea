#![tactic(auto)]
// Whose the points are that a record names: refusal 24; and whether each owner is a method: refusal 25.
ghost use Rattle.std.specs.Prelude.{◌≡◌, true, ℕ, ◌+◌, ◌≤◌, length, take};
ghost use Rattle.sheet.specs.Kind.{steps, section_of};
ghost use Rattle.sheet.specs.Reading.{agree, no_method};
ghost use Rattle.sheet_laws.specs.AtOffset.{short_at, owner_at};
ghost use Rattle.kinds.specs.Kinds.{body_kind};
ghost use Rattle.kinds.specs.Numbers.{kind_number};
ghost use Rattle.format.specs.Named.{Named};
ghost use Rattle.format.specs.Options.{option_of};
ghost use Rattle.owners.specs.Owners.{owner_listed, owners_fit, stray_in};

use fields::{byte_at, short_at, short_inside};
use kinds::{Kind, Section};

// The owner of the point at an offset, a method by its number, where it has one.
fn owner_at(s: &[u8], at: usize) -> Option<usize>
    ensures { option_of result ≡ owner_at s.now at }
{
    if byte_at(s, at) == Kind::OwnedPoint as u8 {
        Some(short_at(s, at + 7))
    } else {
        None
    }
}

// The owner of the point that is named at an offset; the points stand at the offsets of a table.
fn owner_named(s: &[u8], i: usize, points: &[u32]) -> Option<usize>
    requires { i + 2 ≤ length s.now }
    ensures { option_of result ≡ owner_listed s.now points.now (short_at s.now i) }
{
    let at = points.get(short_inside(s, i))?;
    owner_at(s, *at as usize)
}

// Two owners are compared only where there are two, so this is no derived equality.
fn same_owner(a: Option<usize>, b: Option<usize>) -> bool
    ensures { result ≡ agree (option_of a) (option_of b) }
{
    match (a, b) {
        (Some(m), Some(n)) => m == n,
        _ => true,
    }
}

// The tests stand under `&`, by value: where `&&` joins them, the proof knows the value of two only by cases.
// The entry, the exit and the failed exit of a method with body have the method's number for an owner, if they have one.
#[tactic(auto, using(crate::proofs::Joined::body_inside, crate::proofs::Joined::failed_exit_inside))]
fn body_owned(s: &[u8], at: usize, kind: Kind, number: usize, points: &[u32]) -> bool
    requires { Named s.now at (kind_number kind) × (body_kind (kind_number kind) ≡ true) }
    ensures { result ≡ owners_fit s.now at (kind_number kind) number points.now }
{
    let own = Some(number);
    let entry = same_owner(own, owner_named(s, at + 7, points));
    let exit = same_owner(own, owner_named(s, at + 9, points));
    match kind {
        Kind::TwoOutcomeBody => { entry & exit & same_owner(own, owner_named(s, at + 15, points)) }
        _ => entry & exit,
    }
}

// Each two of the points that a step joins have the same owner, if they have one.
#[tactic(auto, using(crate::proofs::Joined::targets_inside, crate::proofs::Joined::failed_target_inside))]
fn step_joins(s: &[u8], at: usize, kind: Kind, points: &[u32]) -> bool
    requires { Named s.now at (kind_number kind) × (section_of (kind_number kind) ≡ steps) × (kind_number kind ≡ 19 → ⊥) }
    ensures { (number : ℕ) → result ≡ owners_fit s.now at (kind_number kind) number points.now }
{
    let from = owner_named(s, at + 1, points);
    let to = owner_named(s, at + 3, points);
    match kind {
        Kind::TwoOutcomeCall => {
            let failed = owner_named(s, at + 5, points);
            same_owner(from, to) & same_owner(from, failed) & same_owner(to, failed)
        }
        _ => same_owner(from, to),
    }
}

// Not 24, of a record of a kind, which as a method gets the number. A point, a primitive and a stop have no two points.
#[tactic(auto, using(crate::proofs::Joined::none_fit))]
pub fn owners_fit(s: &[u8], at: usize, kind: Kind, number: usize, points: &[u32]) -> bool
    requires { Named s.now at (kind_number kind) }
    ensures { result ≡ owners_fit s.now at (kind_number kind) number points.now }
{
    if kind.has_body() {
        return body_owned(s, at, kind, number, points);
    }
    if kind.section() == Section::Steps && kind != Kind::Stop {
        return step_joins(s, at, kind, points);
    }
    true
}

// The place of 25: the offset of the first of the points whose owner is none of so many methods, if there is one.
pub fn first_stray_owner(s: &[u8], points: &[u32], count: usize, methods: usize) -> Option<usize>
    ensures { option_of result ≡ stray_in s.now methods (take count points.now) }
{
    let known = count.min(points.len());
    for &point in &points[..known] {
        let at = point as usize;
        if no_method(owner_at(s, at), methods) {
            return Some(at);
        }
    }
    None
}

fn no_method(owner: Option<usize>, methods: usize) -> bool
    ensures { result ≡ no_method methods (option_of owner) }
{
    owner.is_some_and(|m| methods <= m)
}
