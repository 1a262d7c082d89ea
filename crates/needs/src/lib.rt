#![tactic(auto)]
// How many rules a sheet has, and how many certificates they need: those of each subject, by its kind alone, summed.
ghost use Rattle.std.specs.Prelude.{List, ◌++◌, ℕ, ◌+◌, ◌≤◌, ◌≡◌};
ghost use Rattle.sheet.specs.Sheet as sheet;
ghost use Rattle.sheet.specs.Sheet.{Sheet};
ghost use Rattle.runs.specs.Rules as runs;
ghost use Rattle.runs.specs.Rules.{if_any, is_among, method_rules, entry_rules, step_rules, rules};
ghost use Rattle.values.specs.Values.{method_value, step_value};
ghost use Rattle.format.specs.Options.{option_of};
ghost use Rattle.claims.specs.Claims.{NthIs};
ghost use Rattle.rules.specs.Order.{groups};
ghost use Rattle.needs.specs.Needs.{Needed, one_each, CallIn, SubjectsOf};

use index::Index;
use values::{Method, Step, method_at, step_at};

// How many rules there are, and how many certificates they need.
#[derive(Clone, Copy)]
pub struct Needs {
    pub rules: usize,
    pub certificates: usize,
}

// A method with body has rules 3 to 6, and 4 is the one without a certificate. One of two outcomes has 22 and 23 too, and 24, which has no certificate,
// where runs start at it.
fn method_needs(method: Method, first: bool) -> Needs
    ensures { (S : Sheet) (starts : List ℕ) (m : ℕ) → first ≡ is_among starts m → Needed (method_rules S starts m (method_value method).body) result }
{
    match method {
        Method::Primitive(_) | Method::TwoOutcomePrimitive(_, _) => Needs {
            rules: 0,
            certificates: 0,
        },
        Method::WithBody(_, _) => Needs {
            rules: 4,
            certificates: 3,
        },
        Method::TwoOutcomeBody(_, _, _) => Needs {
            rules: if first { 7 } else { 6 },
            certificates: 5, // of 3, 5, 6, 22 and 23
        },
    }
}

// A call with so many rules before 26, each with a certificate. 26 has one too, where it is asked.
fn call_needs(others: usize, entry: Option<usize>) -> Needs
    requires { others ≤ 9 }
    ensures { (S : Sheet) (i : ℕ) (t : sheet.CallStep) (xs : List runs.Rule) → Needed xs (one_each others) →
        Needed (xs ++ if_any (option_of entry) (entry_rules S i t)) result }
{
    let all = match entry {
        None => others,
        Some(_) => others + 1,
    };
    Needs {
        rules: all,
        certificates: all,
    }
}

// An event step has rules 7 to 9, a call 10 to 14, one with a failed target 18 to 21 too, a pass step 15 to 17, each with a certificate; a stop has 25.
fn step_needs(x: Index, step: Step) -> Needs
    requires { (S : Sheet) × CallIn S x.sheet.now x.offsets.now.methods (step_value step) }
    ensures { (S : Sheet) (i : ℕ) → CallIn S x.entry.sheet.now x.entry.offsets.now.methods (step_value step) →
        Needed (step_rules S i (step_value step)) result }
{
    match step {
        Step::Event { .. } | Step::Pass { .. } => Needs {
            rules: 3,
            certificates: 3,
        },
        // no or-pattern: each of these two kinds has a must-fail edit of its own
        Step::Call(call) => call_needs(5, x.entry_asked(call.method)),
        Step::ChannelCall(call, _) => call_needs(5, x.entry_asked(call.method)),
        Step::TwoOutcomeCall(call, _) => call_needs(9, x.entry_asked(call.method)),
        Step::Stop(_) => Needs {
            rules: 1,
            certificates: 0, // 25 has none
        },
    }
}

// The needs of a subject, by the number that it has in the order of testing. The first has rules 1 and 2, which have no certificate.
fn needs_at(x: Index, number: usize) -> Needs
    requires subjects { (S : Sheet) × SubjectsOf S x }
    requires number_bound { number ≤ x.counts.methods + x.counts.steps }
    ensures { (S : Sheet) (xs : List runs.Rule) → SubjectsOf S x.entry → NthIs (groups S) number xs → Needed xs result }
{
    if number == 0 {
        return Needs {
            rules: 2,
            certificates: 0,
        };
    }
    let k = number - 1;
    let listed = x.counts.methods;
    if k < listed {
        let method = method_at(x.sheet, x.offsets.methods[k] as usize);
        return method_needs(method, k == 0);
    }
    let step = step_at(x.sheet, x.offsets.steps[k - listed] as usize);
    step_needs(x, step)
}

// The needs of all subjects.
pub fn sheet_needs(x: Index) -> Needs
    requires { (S : Sheet) × SubjectsOf S x }
    ensures { (S : Sheet) → SubjectsOf S x.entry → Needed (rules S) result }
{
    let mut all = Needs {
        rules: 0,
        certificates: 0,
    };
    for number in 0..=x.counts.methods + x.counts.steps {
        let needs = needs_at(x, number);
        all.rules += needs.rules;
        all.certificates += needs.certificates;
    }
    all
}
