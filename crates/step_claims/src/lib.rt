#![tactic(auto)]
// What the rules of steps claim of the conditions that they name, by number: the rules of a step of each kind. No table and no byte of the sheet is read
// here.
ghost use Rattle.std.specs.Prelude.{List, ◌++◌, ℕ, ◌<◌};
ghost use Rattle.std.proofs.Math.Option.{Option};
ghost use Rattle.condition.specs.Condition.{Condition};
ghost use Rattle.sheet.specs.Sheet as sheet;
ghost use Rattle.sheet.specs.Sheet.{Sheet, event_step, call_step, pass_step, stop_step};
ghost use Rattle.runs.specs.Rules.{if_any, return_rules, entry_asked, entry_rules, step_rules};
ghost use Rattle.postfix.specs.Parts.{StandsAt};
ghost use Rattle.index.specs.Indexed.{PointIs};
ghost use Rattle.index.specs.Ways.{WayIs, EnteredIs};
ghost use Rattle.claims.specs.Claims.{Kth, RaisedIs, ChannelIs};
ghost use Rattle.step_claims.specs.Calls.{CallIs};
ghost use Rattle.step_claims.specs.Returns.{ReturnRulesAre};
ghost use Rattle.step_claims.specs.Direct.{DirectRulesAre, direct_rules};

use answers::Rule;
use claims::Claim;
use claims::forms::{backward, forward, holds_empty, inclusion, on_channel, within};
use index::PointConditions;
use index::ways::Way;
use postfix::Part;

// A call step, by the conditions that its rules name; its channel, 0 where it names none (`on_channel` says why 0 serves).
#[derive(Clone, Copy)]
pub struct Call {
    pub step: usize,
    pub pre: u32,
    pub channel: u32,
    pub from: PointConditions,
    pub to: Way,
    pub failed: Option<Way>,
    pub entered: Option<u32>,
}

// The four rules of a call about one way of returning, by name.
#[derive(Clone, Copy)]
struct ReturnRules {
    past: Rule,
    own: Rule,
    future: Rule,
    due: Rule,
}

// The three rules of a step that leads straight from one point to another, by name.
#[derive(Clone, Copy)]
struct DirectRules {
    past: Rule,
    own: Rule,
    due: Rule,
}

// Rules have numbers, and each number has its own claim: a match says which, where closures would hide it.
//
// 7 past(p)a in past(q); 8 own(p)a in own(q); 9 a due(q) in due(p), of what is raised, the event a; and 15 to 17, where nothing is.
fn direct_claim(
    rules: DirectRules,
    p: PointConditions,
    q: PointConditions,
    raised: Option<Part>,
    k: usize,
) -> Option<Claim>
    ensures { (s : List ℕ) (S : Sheet) (n i from to : ℕ) (t : Option Condition) → DirectRulesAre rules n i → PointIs s S from p → PointIs s S to q →
        RaisedIs s raised t → Kth s (direct_rules S n i from to t) k result }
{
    match k {
        0 => forward(rules.past, p.past, raised, q.past),
        1 => forward(rules.own, p.own, raised, q.own),
        2 => backward(rules.due, raised, q.due, p.due),
        _ => None,
    }
}

// 7 to 9, of the event a.
pub fn event_claim(
    i: usize,
    p: PointConditions,
    q: PointConditions,
    a: usize,
    k: usize,
) -> Option<Claim>
    ensures { (s : List ℕ) (S : Sheet) (from to : ℕ) → PointIs s S from p → PointIs s S to q → a < 64 →
        Kth s (step_rules S i (event_step from to a)) k result }
{
    let rules = DirectRules {
        past: Rule::EventPast(i),
        own: Rule::EventOwn(i),
        due: Rule::EventDue(i),
    };
    direct_claim(rules, p, q, Some(Part::Event(a)), k)
}

// 15 to 17: past(p) in past(q); own(p) in own(q); due(q) in due(p).
pub fn pass_claim(i: usize, p: PointConditions, q: PointConditions, k: usize) -> Option<Claim>
    ensures { (s : List ℕ) (S : Sheet) (from to : ℕ) → PointIs s S from p → PointIs s S to q → Kth s (step_rules S i (pass_step from to)) k result }
{
    let rules = DirectRules {
        past: Rule::PassPast(i),
        own: Rule::PassOwn(i),
        due: Rule::PassDue(i),
    };
    direct_claim(rules, p, q, None, k)
}

// 11 past(p)T in past(q); 12 own(p)T in own(q); 13 due(q) in future; 14 T due(q) in due(p), T the trace; and 18 to 21 of the failed way. What the method
// declares is read on the call's channel.
fn return_claim(
    rules: ReturnRules,
    channel: u32,
    p: PointConditions,
    q: Way,
    k: usize,
) -> Option<Claim>
    ensures { (s : List ℕ) (S : Sheet) (n i to : ℕ) (t : sheet.CallStep) (o : sheet.Outcome) → ReturnRulesAre rules n i → ChannelIs t.channel channel →
        PointIs s S t.from p → WayIs s S t.method o to q → Kth s (return_rules S n i t o to) k result }
{
    let ReturnRules {
        past,
        own,
        future,
        due,
    } = rules;
    let declared = q.declared;
    let raised = Some(on_channel(declared.trace, channel));
    match k {
        0 => forward(past, p.past, raised, q.point.past),
        1 => forward(own, p.own, raised, q.point.own),
        2 => within(future, q.point.due, on_channel(declared.future, channel)),
        3 => backward(due, raised, q.point.due, p.due),
        _ => None,
    }
}

// 26: due of the entry of the called method is in due(p), where it is asked.
fn entry_claim(i: usize, p: PointConditions, entered: Option<u32>, k: usize) -> Option<Claim>
    ensures { (s : List ℕ) (S : Sheet) (t : sheet.CallStep) (e : Option ℕ) → PointIs s S t.from p → EnteredIs s S e entered →
        Kth s (if_any e (entry_rules S i t)) k result }
{
    let due = entered?;
    match k {
        0 => inclusion(Rule::CallEntry(i), due, p.due),
        _ => None,
    }
}

// The rules of a call behind those of its normal return: 18 to 21, if it has a failed target, and 26.
fn later_call_claim(call: Call, k: usize) -> Option<Claim>
    ensures { (s : List ℕ) (S : Sheet) (t : sheet.CallStep) → CallIs s S t call →
        Kth s (if_any t.failed_to (return_rules S 18 call.step t sheet.failed) ++ if_any (entry_asked S t.method) (entry_rules S call.step t)) k result }
{
    let i = call.step;
    let Some(q) = call.failed else {
        return entry_claim(i, call.from, call.entered, k);
    };
    if k < 4 {
        let rules = ReturnRules {
            past: Rule::FailedPast(i),
            own: Rule::FailedOwn(i),
            future: Rule::FailedFuture(i),
            due: Rule::FailedDue(i),
        };
        return return_claim(rules, call.channel, call.from, q, k);
    }
    entry_claim(i, call.from, call.entered, k - 4)
}

// 10 past(p) in pre; then the rules of its returns, and 26.
pub fn call_claim(call: Call, k: usize) -> Option<Claim>
    ensures { (s : List ℕ) (S : Sheet) (t : sheet.CallStep) → CallIs s S t call → Kth s (step_rules S call.step (call_step t)) k result }
{
    let i = call.step;
    if k == 0 {
        let pre = on_channel(call.pre, call.channel);
        return within(Rule::CallPre(i), call.from.past, pre);
    }
    if k < 5 {
        let rules = ReturnRules {
            past: Rule::CallPast(i),
            own: Rule::CallOwn(i),
            future: Rule::CallFuture(i),
            due: Rule::CallDue(i),
        };
        return return_claim(rules, call.channel, call.from, call.to, k - 1);
    }
    later_call_claim(call, k - 5)
}

// 25: due at the point of a stop holds the empty word.
pub fn stop_claim(i: usize, due: u32, k: usize) -> Option<Claim>
    ensures { (s : List ℕ) (S : Sheet) (p : ℕ) → StandsAt s due (sheet.due S p) → Kth s (step_rules S i (stop_step p)) k result }
{
    match k {
        0 => holds_empty(Rule::StopDue(i), due),
        _ => None,
    }
}
