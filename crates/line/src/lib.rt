#![tactic(auto)]
// The line that a program prints, without the newline.
ghost use Rattle.std.specs.Prelude.{◌≡◌, ℕ, List, ◌++◌, ◌+◌, ◌≤◌, ◌<◌};
ghost use Rattle.verdict.specs.Verdict.{unproved};
ghost use Rattle.verdict.specs.Line.{ascii, decimal, subject_name, refused_line, line, answer_line};
ghost use Rattle.faults.specs.Fault.{fault_of};
ghost use Rattle.format.specs.Refusal.{number_of, place_of};
ghost use Rattle.answers.specs.Answers.{rule_number, rule_subject, report_of, answer_of};
ghost use Rattle.arrayvec.specs.ArrayVec.{array_vec_len};
ghost use Rattle.line.specs.Line.{LineIn};

use answers::{Rule, Verdict, WordAnswer, of_method, rule_numbers};
use faults::Fault;
use format::Refusal;
use refusal_rows::{refusal_number, refusal_place};
use text::{put_number, put_text, put_value};

// What has a line: a verdict, which the loading program prints, and the word test's answer. A line has at most 50 bytes of text, a rule's number of
// two digits and five numbers of 20 digits.
pub trait Answer {
    ghost line_of: { Self → List ℕ };

    // The line, behind what is put already.
    fn put(self, out: &mut text::Line)
        requires { array_vec_len out.old + 152 ≤ 160 }
        ensures put { out.new.items ≡ out.old.items ++ line_of self }
        ensures upper_bound { array_vec_len out.new ≤ array_vec_len out.old + 152 };
}

// A rule's method or step.
fn put_subject(rule: usize, k: usize, out: &mut text::Line)
    requires { array_vec_len out.old + 28 ≤ 160 }
    ensures put { out.new.items ≡ out.old.items ++ (subject_name rule ++ decimal k) }
    ensures upper_bound { array_vec_len out.new ≤ array_vec_len out.old + 28 }
{
    if of_method(rule) {
        put_value(b" method ", k, out);
    } else {
        put_value(b" step ", k, out);
    }
}

// The line of a refusal.
fn put_refusal(x: Refusal, out: &mut text::Line)
    requires { array_vec_len out.old + 52 ≤ 160 }
    ensures put { out.new.items ≡ out.old.items ++ refused_line (number_of x) (place_of x) }
    ensures upper_bound { array_vec_len out.new ≤ array_vec_len out.old + 52 }
{
    put_value(b"refused ", refusal_number(x), out);
    if let Some(at) = refusal_place(x) {
        put_value(b" at ", at, out);
    }
}

// The beginning of an unproved answer's line. A rule's number has at most two digits.
fn put_rule(number: usize, out: &mut text::Line)
    requires room { array_vec_len out.old + 16 ≤ 160 }
    requires two_digits { number < 100 }
    ensures put { out.new.items ≡ out.old.items ++ (ascii "unproved rule " ++ decimal number) }
    ensures upper_bound { array_vec_len out.new ≤ array_vec_len out.old + 16 }
{
    put_text(b"unproved rule ", out);
    put_number(number, out);
}

// The line of an unproved answer.
fn put_unproved(rule: Rule, fault: Fault, out: &mut text::Line)
    requires { array_vec_len out.old + 152 ≤ 160 }
    ensures put { out.new.items ≡ out.old.items ++ line (unproved (rule_number rule) (rule_subject rule) (fault_of fault)) }
    ensures short { array_vec_len out.new ≤ array_vec_len out.old + 152 }
{
    let numbers = rule_numbers(rule);
    put_rule(numbers.number, out);
    put_subject(numbers.number, numbers.subject, out);
    put_value(b" clause ", fault.clause, out);
    put_value(b" pair ", fault.pair, out);
    put_value(b" event ", fault.event, out);
    put_value(b" place ", fault.place, out);
}

impl Answer for Verdict {
    ghost line_of = { λ v. line (report_of v) };

    fn put(self, out: &mut text::Line) {
        match self {
            Verdict::Accepted(n) => put_value(b"accepted ", n, out),
            Verdict::Refused(x) => put_refusal(x, out),
            Verdict::Unproved { rule, fault } => put_unproved(rule, fault, out),
        }
    }
}

impl Answer for WordAnswer {
    ghost line_of = { λ a. answer_line (answer_of a) };

    fn put(self, out: &mut text::Line) {
        match self {
            WordAnswer::Yes => put_text(b"yes", out),
            WordAnswer::No(n) => put_value(b"no ", n, out),
            WordAnswer::Refused(x) => put_refusal(x, out),
        }
    }
}

// The line of an answer.
pub fn line_of<A: Answer>(answer: A) -> text::Line
    ensures whole { result.items ≡ A.line_of answer }
    ensures short { array_vec_len result ≤ 152 }
{
    let mut line = text::Line::new();
    answer.put(&mut line);
    line
}

// A line as a plain value, which can be copied and kept: the first bytes of an array, as many as `size` says.
#[derive(Clone, Copy)]
pub struct Line {
    pub bytes: [u8; 160],
    pub size: usize,
}

// The line of an answer, as a plain value.
pub fn plain_line<A: Answer>(answer: A) -> Line
    ensures { LineIn (A.line_of answer) result.bytes result.size }
{
    let line = line_of(answer);
    let size = line.len();
    let mut bytes = [0u8; 160];
    bytes[..size].copy_from_slice(&line);
    Line { bytes, size }
}

// The line of the loading program, as a plain value.
pub fn verdict_line(v: Verdict) -> Line
    ensures { LineIn (line (report_of v)) result.bytes result.size }
{
    plain_line(v)
}

// The line of the word test's program, as a plain value.
pub fn answer_line(a: WordAnswer) -> Line
    ensures { LineIn (answer_line (answer_of a)) result.bytes result.size }
{
    plain_line(a)
}
