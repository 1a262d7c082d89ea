#![tactic(auto)]
// The conditions of a sheet's points and methods, by the tables of offsets that lead to them. Which sheet S an index is of is said in each clause: S is a
// value of proofs alone, and what a clause gives is of the same S.
ghost use Rattle.std.specs.Prelude.{◌≡◌, List, ℕ};
ghost use Rattle.sheet.specs.Sheet.{Outcome, failed, Sheet};
ghost use Rattle.condition.specs.Condition.{Condition};
ghost use Rattle.runs.specs.Rules.{entry_asked};
ghost use Rattle.values.specs.Values.{declared_value};
ghost use Rattle.postfix.specs.Parts.{StandsAt};
ghost use Rattle.format.specs.Options.{option_of};
ghost use Rattle.index.specs.Indexed.{ConditionIn, DeclaredIn, PointIs, MethodIs, OutcomeIs, HasPoint, HasMethod, HasFailed, HasCalled};

use format::is_new;
use offsets::Offsets;
use values::{Declared, Method, declaration_at, failed_at, method_at, point_at};

pub mod ways; // ways.rt: ways of returning

// How many methods and steps a sheet has.
#[derive(Clone, Copy)]
pub struct Counts {
    pub methods: usize,
    pub steps: usize,
}

// An indexed sheet: its bytes, the tables of the offsets where its conditions, methods, steps and points stand, by their numbers, and how many methods and
// steps these are. The table of points has as many rows as the instrument takes points.
#[derive(Clone, Copy)]
pub struct Index<'a> {
    pub sheet: &'a [u8],
    pub offsets: &'a Offsets,
    pub points: &'a [u32],
    pub counts: Counts,
}

// The conditions of a point, by the offsets where they stand. An offset has four bytes, as in the tables: a subject's conditions are copied from claim to
// claim. Here and below no one generic struct with those of crate values, which have the conditions by their numbers: only a width would tell an offset
// from a number.
#[derive(Clone, Copy)]
pub struct PointConditions {
    pub past: u32,
    pub own: u32,
    pub due: u32,
}

// The conditions that a method declares of one outcome, by the offsets where they stand.
#[derive(Clone, Copy)]
pub struct OutcomeConditions {
    pub trace: u32,
    pub future: u32,
}

// The conditions that a method declares of its beginning and of the normal outcome.
#[derive(Clone, Copy)]
pub struct MethodConditions {
    pub pre: u32,
    pub normal: OutcomeConditions,
}

// The offset where the condition number c stands.
fn condition_at(offsets: &Offsets, c: usize) -> u32
    requires { (s : List ℕ) × (r : Condition) × ConditionIn s offsets.now.conditions c r }
    ensures { (s : List ℕ) (r : Condition) → ConditionIn s offsets.now.conditions c r → StandsAt s result r }
{
    offsets.conditions[c]
}

// The conditions that are declared of an outcome by their numbers.
fn outcome_of(offsets: &Offsets, declared: Declared) -> OutcomeConditions
    requires { (S : Sheet) × (s : List ℕ) × (m : ℕ) × (o : Outcome) × DeclaredIn S s offsets.now.conditions (declared_value declared) m o }
    ensures { (S : Sheet) (s : List ℕ) (m : ℕ) (o : Outcome) → DeclaredIn S s offsets.now.conditions (declared_value declared) m o →
        OutcomeIs s S m o result }
{
    OutcomeConditions {
        trace: condition_at(offsets, declared.trace),
        future: condition_at(offsets, declared.future),
    }
}

impl<'a> Index<'a> {
    // The conditions of the point p.
    pub fn point(self, p: usize) -> PointConditions
        requires { (S : Sheet) × HasPoint S self p }
        ensures { (S : Sheet) → HasPoint S self.entry p → PointIs self.entry.sheet.now S p result }
    {
        let point = point_at(self.sheet, self.points[p] as usize);
        PointConditions {
            past: condition_at(self.offsets, point.past),
            own: condition_at(self.offsets, point.own),
            due: condition_at(self.offsets, point.due),
        }
    }

    // The conditions that the method m declares.
    pub fn method(self, m: usize) -> MethodConditions
        requires { (S : Sheet) × HasMethod S self m }
        ensures { (S : Sheet) → HasMethod S self.entry m → MethodIs self.entry.sheet.now S m result }
    {
        let declared = declaration_at(self.sheet, self.offsets.methods[m] as usize);
        let normal = outcome_of(self.offsets, declared.normal);
        MethodConditions {
            pre: condition_at(self.offsets, declared.pre),
            normal,
        }
    }

    // The conditions that the method m, which has two outcomes, declares of the failed one.
    pub fn failed(self, m: usize) -> OutcomeConditions
        requires { (S : Sheet) × HasFailed S self m }
        ensures { (S : Sheet) → HasFailed S self.entry m → OutcomeIs self.entry.sheet.now S m failed result }
    {
        let declared = failed_at(self.sheet, self.offsets.methods[m] as usize);
        outcome_of(self.offsets, declared)
    }

    // The entry that rule 26 asks about where the method m is called: in the new edition, that of a method with body.
    pub fn entry_asked(self, m: usize) -> Option<usize>
        requires { (S : Sheet) × HasCalled S self m }
        ensures { (S : Sheet) → HasCalled S self.entry m → option_of result ≡ entry_asked S m }
    {
        if !is_new(self.sheet) {
            return None;
        }
        match method_at(self.sheet, self.offsets.methods[m] as usize) {
            Method::Primitive(_) | Method::TwoOutcomePrimitive(_, _) => None,
            Method::WithBody(_, inner) | Method::TwoOutcomeBody(_, inner, _) => Some(inner.entry),
        }
    }
}
