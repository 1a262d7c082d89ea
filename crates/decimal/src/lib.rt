#![tactic(auto)]
// Arguments of a program that are numbers in decimal: one number, and the events of a word.
ghost use Rattle.std.specs.Prelude.{◌≡◌, min};
ghost use Rattle.decimal.specs.Decimal.{number_in};
ghost use Rattle.decimal.specs.Arguments.{NumberAtMost, EventsIn};

use input::{argument, argument_count};
use std::env::Env;

// The number that a text says in decimal; one above 65,535 counts as 65,535. No sheet has so many conditions, and no event is so large.
fn number_in(text: &[u8]) -> Option<usize>
    ensures { result ≡ number_in text.now }
{
    if text.is_empty() {
        return None;
    }
    let mut n: usize = 0;
    for &b in text {
        if !b.is_ascii_digit() {
            return None;
        }
        n = (10 * n + usize::from(b - b'0')).min(65535);
    }
    Some(n)
}

// Argument i as a number; one that is missing is none, and so is one that is longer than 4,096 bytes.
pub fn number_at<E: Env>(env: &E, i: usize) -> Option<usize>
    ensures { NumberAtMost 65535 result }
{
    let mut room = [0u8; 4096];
    let n = argument(env, i, &mut room);
    number_in(&room[..n])
}

// An event as a byte; one above 255 counts as 255, which is no event either.
fn event_of(n: usize) -> u8
    ensures { result ≡ min n 255 }
{
    n.min(255) as u8
}

// The events from argument `from` on, as many as there is room for: how many they are, or the argument that is no number.
pub fn read_events<E: Env>(env: &E, from: usize, word: &mut [u8]) -> Result<usize, usize>
    ensures { EventsIn from word.old word.new result }
{
    let count = argument_count(env);
    for i in from..count {
        if word.len() <= i - from {
            return Ok(i - from);
        }
        let Some(n) = number_at(env, i) else {
            return Err(i);
        };
        // by index: no proof names the place that a mutable iterator lends
        word[i - from] = event_of(n);
    }
    Ok(count.saturating_sub(from))
}
