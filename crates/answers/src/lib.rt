#![tactic(auto)]
// The answers of the loader and of the word test, and the documents' numbers for them.
ghost use Rattle.std.specs.Prelude.{◌≡◌, ◌<◌};
ghost use Rattle.runs.specs.Rules.{of_method};
ghost use Rattle.answers.specs.Answers.{rule_number, rule_subject};

use faults::Fault;
use format::Refusal;

// The rules 1 to 26, each with its method or its step.
#[derive(Clone, Copy)]
pub enum Rule {
    FirstPre(usize),
    FirstFuture(usize),
    EntryPast(usize),
    EntryOwn(usize),
    ExitOwn(usize),
    ExitDue(usize),
    EventPast(usize),
    EventOwn(usize),
    EventDue(usize),
    CallPre(usize),
    CallPast(usize),
    CallOwn(usize),
    CallFuture(usize),
    CallDue(usize),
    PassPast(usize),
    PassOwn(usize),
    PassDue(usize),
    FailedPast(usize),
    FailedOwn(usize),
    FailedFuture(usize),
    FailedDue(usize),
    FailedExitOwn(usize),
    FailedExitDue(usize),
    FirstFailedFuture(usize),
    StopDue(usize),
    CallEntry(usize),
}

// A rule by two numbers, its own and that of its method or step.
#[derive(Clone, Copy)]
pub struct RuleNumbers {
    pub number: usize,
    pub subject: usize,
}

// What the loader returns: the count of an accepted sheet, a refusal, or the first fault of a well formed sheet.
#[derive(Clone, Copy)]
pub enum Verdict {
    Accepted(usize),
    Refused(Refusal),
    Unproved { rule: Rule, fault: Fault },
}

// What the word test returns. A no has the length of the longest beginning of the word that begins some word of the condition.
#[derive(Clone, Copy)]
pub enum WordAnswer {
    Yes,
    No(usize),
    Refused(Refusal),
}

// The rules about a method; the others are about a step.
const RULES_OF_METHODS: [usize; 9] = [1, 2, 3, 4, 5, 6, 22, 23, 24];

// A rule by its number, which has at most two digits, and that of its method or step.
pub fn rule_numbers(r: Rule) -> RuleNumbers
    ensures value { result ≡ record { number = rule_number r; subject = rule_subject r } }
    ensures result_bound { result.number < 100 }
{
    let (number, subject) = match r {
        Rule::FirstPre(k) => (1, k),
        Rule::FirstFuture(k) => (2, k),
        Rule::EntryPast(k) => (3, k),
        Rule::EntryOwn(k) => (4, k),
        Rule::ExitOwn(k) => (5, k),
        Rule::ExitDue(k) => (6, k),
        Rule::EventPast(k) => (7, k),
        Rule::EventOwn(k) => (8, k),
        Rule::EventDue(k) => (9, k),
        Rule::CallPre(k) => (10, k),
        Rule::CallPast(k) => (11, k),
        Rule::CallOwn(k) => (12, k),
        Rule::CallFuture(k) => (13, k),
        Rule::CallDue(k) => (14, k),
        Rule::PassPast(k) => (15, k),
        Rule::PassOwn(k) => (16, k),
        Rule::PassDue(k) => (17, k),
        Rule::FailedPast(k) => (18, k),
        Rule::FailedOwn(k) => (19, k),
        Rule::FailedFuture(k) => (20, k),
        Rule::FailedDue(k) => (21, k),
        Rule::FailedExitOwn(k) => (22, k),
        Rule::FailedExitDue(k) => (23, k),
        Rule::FirstFailedFuture(k) => (24, k),
        Rule::StopDue(k) => (25, k),
        Rule::CallEntry(k) => (26, k),
    };
    RuleNumbers { number, subject }
}

// Whether a rule, by its number, is about a method. A number and no `Rule`: the clause answers for each number, as the definition does.
pub fn of_method(rule: usize) -> bool
    ensures { result ≡ of_method rule }
{
    RULES_OF_METHODS.contains(&rule)
}
