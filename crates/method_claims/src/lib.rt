#![tactic(auto)]
// What the rules of methods claim of the conditions that they name, by number: the rules of a start and of a method with body. No table and no byte of
// the sheet is read here.
ghost use Rattle.std.specs.Prelude.{◌≡◌, List, ℕ, ◌+◌};
ghost use Rattle.std.proofs.Math.Option.{Option, some};
ghost use Rattle.sheet.specs.Sheet as sheet;
ghost use Rattle.sheet.specs.Sheet.{Sheet};
ghost use Rattle.runs.specs.Rules.{if_any, is_among, first_rules, exit_rules, failed_exit_rules, method_rules};
ghost use Rattle.index.specs.Indexed.{MethodIs};
ghost use Rattle.index.specs.Ways.{WayIs, FailingIs};
ghost use Rattle.claims.specs.Claims.{RuleIs, Kth};
ghost use Rattle.method_claims.specs.Bodies.{BodyIs};

use answers::Rule;
use claims::Claim;
use claims::forms::{holds_empty, inclusion};
use index::ways::Way;
use index::{MethodConditions, PointConditions};

// A method with body, by the conditions that its rules name; whether runs start at it.
#[derive(Clone, Copy)]
pub struct MethodBody {
    pub method: usize,
    pub pre: u32,
    pub entry: PointConditions,
    pub exit: Way,
    pub failed: Option<Way>,
    pub first: bool,
}

// Rules have numbers, and each number has its own claim: a match says which, where closures would hide it.
//
// 1 and 2, a method that runs start at: pre, and future, hold the empty word.
pub fn first_claim(m: usize, d: MethodConditions, k: usize) -> Option<Claim>
    ensures { (s : List ℕ) (S : Sheet) → MethodIs s S m d → Kth s (first_rules S m) k result }
{
    match k {
        0 => holds_empty(Rule::FirstPre(m), d.pre),
        1 => holds_empty(Rule::FirstFuture(m), d.normal.future),
        _ => None,
    }
}

// 5 own(exit) in trace; 6 future in due(exit); and 22, 23 of the failed exit.
fn exit_claim(own: Rule, due: Rule, exit: Way, k: usize) -> Option<Claim>
    ensures { (s : List ℕ) (S : Sheet) (n m e : ℕ) (o : sheet.Outcome) → RuleIs own n m → RuleIs due (n + 1) m → WayIs s S m o e exit →
        Kth s (exit_rules S n m o e) k result }
{
    match k {
        0 => inclusion(own, exit.point.own, exit.declared.trace),
        1 => inclusion(due, exit.declared.future, exit.point.due),
        _ => None,
    }
}

// 22 and 23 of the failed exit; 24, of a method that runs start at: the failed future holds the empty word.
fn failed_exit_claim(m: usize, failed: Option<Way>, first: bool, k: usize) -> Option<Claim>
    ensures { (s : List ℕ) (S : Sheet) (starts : List ℕ) (e : Option ℕ) → first ≡ is_among starts m → FailingIs s S m e failed →
        Kth s (if_any e (failed_exit_rules S starts m)) k result }
{
    let exit = failed?;
    if k < 2 {
        return exit_claim(Rule::FailedExitOwn(m), Rule::FailedExitDue(m), exit, k);
    }
    if first && k == 2 {
        return holds_empty(Rule::FirstFailedFuture(m), exit.declared.future);
    }
    None
}

// 3 pre in past(entry); 4 own(entry) holds the empty word; then the rules of its exits.
pub fn body_claim(body: MethodBody, k: usize) -> Option<Claim>
    ensures { (s : List ℕ) (S : Sheet) (starts : List ℕ) (b : sheet.Body) → BodyIs s S starts b body →
        Kth s (method_rules S starts body.method (some b)) k result }
{
    let m = body.method;
    if k == 0 {
        return inclusion(Rule::EntryPast(m), body.pre, body.entry.past);
    }
    if k == 1 {
        return holds_empty(Rule::EntryOwn(m), body.entry.own);
    }
    if k < 4 {
        return exit_claim(Rule::ExitOwn(m), Rule::ExitDue(m), body.exit, k - 2);
    }
    failed_exit_claim(m, body.failed, body.first, k - 4)
}
