// Days in their second form (docs/RULES.md, "Presence"): a flow for each day and a bit that says whether it is present. Both
// forms convert into each other.
#![tactic(auto)]

ghost use Rattle.std.specs.Prelude.{◌≡◌, ◌≤◌, [], ◌∷◌, cond, length};
ghost use Rattle.std.specs.Int.{w64, trailing_ones};
ghost use Rattle.series.specs.Units.{is_missing};
ghost use Rattle.series.specs.Causes.{outcome_of, Decides};
ghost use Rattle.presence.specs.Form.{word_of, word_count, days_of, flows_of, words_of, wrong_count, one_past_end, flow_under_zero, is_invalid_form};
ghost use Rattle.presence.specs.Call.{ones_in, to_bits_causes, to_bits_outcome, flows_left, words_left, from_bits_causes, from_bits_outcome, days_left};
ghost use Rattle.presence.specs.Private.{any_above};

use series::{FLOW_LIMIT, MISSING, Refusal, refuse_if};

// The days of a word.
const WORD: usize = 64;

// How many days are present: the ones in the words.
#[tactic(auto, using(crate::proofs::Loops::ones_few, crate::proofs::Loops::ones_turn, crate::proofs::Loops::ones_end))]
fn ones(words: &[u64]) -> u32
    requires { length words.now ≤ 1000 }
    ensures { result ≡ ones_in words.now }
{
    let mut ones = 0;
    for word in words {
        ones += word.count_ones();
    }
    ones
}

// 28: too many words, or too few.
fn wrong_count(days: usize, words: &[u64]) -> bool
    ensures { result ≡ wrong_count days words.now }
{
    words.len() != days.div_ceil(WORD)
}

// 28: a one past the end, which is in the last word.
#[tactic(auto, using(crate::proofs::Loops::whole_words, crate::proofs::Loops::last_word))]
fn one_past_end(days: usize, words: &[u64]) -> bool
    requires { length words.now ≡ word_count days }
    ensures { result ≡ one_past_end days words.now }
{
    days % WORD != 0 && words[days / WORD] >> (days % WORD) != 0
}

// The word of up to 64 days, the first in its lowest bit.
#[tactic(auto, using(crate::proofs::Loops::bit_start, crate::proofs::Loops::bit_turn, crate::proofs::Loops::bit_small))]
fn word(days: &[u32]) -> u64
    requires { length days.now ≤ 64 }
    ensures { result ≡ word_of days.now }
{
    let mut word = 0;
    // Kept: by index, since what `iter().rev()` has left is no part of the list that a law of words speaks of.
    for i in (0..days.len()).rev() {
        word = 2 * word + u64::from(days[i] != MISSING);
    }
    word
}

// The place of the lowest zero of a word; 64 where there is none.
fn lowest_zero(word: u64) -> usize
    ensures { result ≡ trailing_ones w64 word }
{
    word.trailing_ones() as usize
}

// A flow stands under a zero of a word.
fn under_zero(bits: u64, flows: &[u32]) -> bool
    requires { length flows.now ≤ 64 }
    ensures { result ≡ flow_under_zero (bits ∷ []) 0 flows.now }
{
    let mut found = 0;
    let mut rest = bits;
    while lowest_zero(rest) < flows.len() {
        found |= flows[lowest_zero(rest)];
        rest |= rest + 1;
    }
    found != 0
}

// 28: a flow under a zero.
#[tactic(auto, using(crate::proofs::Words::flows_turn, crate::proofs::Words::flows_end))]
fn flow_under_zero(words: &[u64], flows: &[u32]) -> bool
    requires { length words.now ≡ word_count (length flows.now) }
    ensures { result ≡ flow_under_zero words.now 0 flows.now }
{
    let mut found = false;
    for (k, bits) in words.iter().enumerate() {
        let start = k * WORD;
        found |= under_zero(*bits, &flows[start..flows.len().min(start + WORD)]);
    }
    found
}

// 28
#[tactic(auto, unfolding(crate::specs::Form::is_invalid_form))]
fn is_invalid_form(flows: &[u32], words: &[u64]) -> bool
    ensures { result ≡ is_invalid_form flows.now words.now }
{
    wrong_count(flows.len(), words)
        || one_past_end(flows.len(), words)
        || flow_under_zero(words, flows)
}

// A number above the largest flow.
#[tactic(auto, using(crate::proofs::Loops::above_turn, crate::proofs::Loops::above_end))]
fn any_above(flows: &[u32]) -> bool
    ensures { result ≡ any_above flows.now }
{
    let mut found = false;
    for flow in flows {
        found |= FLOW_LIMIT < *flow;
    }
    found
}

// A day's flow, with 0 for a missing day.
#[tactic(auto, unfolding(series::specs::Units::is_missing))]
fn flow_of(day: u32) -> u32
    ensures { result ≡ cond (is_missing day) 0 day }
{
    if day == MISSING { 0 } else { day }
}

// The flows of days.
#[tactic(auto, using(crate::proofs::Loops::flow_turn, crate::proofs::Loops::flow_end))]
fn put_flows(days: &[u32], flows: &mut [u32])
    requires { length flows.old ≡ length days.now }
    ensures { flows.new ≡ flows_of days.now }
{
    // Kept: days by their index, here and below, since behind a zip of iter_mut a proof knows no value that was written.
    for (i, flow) in flows.iter_mut().enumerate() {
        *flow = flow_of(days[i]);
    }
}

// The words of days.
#[tactic(auto, using(crate::proofs::Loops::word_start, crate::proofs::Loops::word_turn, crate::proofs::Loops::word_end))]
fn put_words(days: &[u32], words: &mut [u64])
    requires { length words.old ≡ word_count (length days.now) }
    ensures { words.new ≡ words_of days.now }
{
    for (k, bits) in words.iter_mut().enumerate() {
        let from = k * WORD;
        *bits = word(&days[from..days.len().min(from + WORD)]);
    }
}

// The mark of a missing day at each zero of a word, from the lowest on.
fn mark_zeros(word: u64, days: &mut [u32])
    requires { length days.old ≤ 64 }
    ensures { days.new ≡ days_of days.old (word ∷ []) }
{
    let mut rest = word;
    while lowest_zero(rest) < days.len() {
        days[lowest_zero(rest)] = MISSING;
        rest |= rest + 1;
    }
}

// The days of flows, which stand in their place, and words.
#[tactic(auto, using(crate::proofs::Words::put_start, crate::proofs::Words::put_turn, crate::proofs::Words::put_end))]
fn mark_missing(words: &[u64], days: &mut [u32])
    requires { length words.now ≡ word_count (length days.old) }
    ensures { days.new ≡ days_of days.old words.now }
{
    for (k, word) in words.iter().enumerate() {
        let first = k * WORD;
        let end = days.len().min(first + WORD);
        mark_zeros(*word, &mut days[first..end]);
    }
}

// The checks of to_bits: 9, 14, 28 (the number of words alone), 10.
#[tactic(auto, unfolding(crate::specs::Call::to_bits_causes, series::specs::Lists::lengths_differ))]
fn check_days(days: &[u32], flows: &[u32], words: &[u64]) -> Result<(), Refusal>
    ensures { Decides (to_bits_causes days.now flows.now words.now) result }
{
    refuse_if(series::too_long(days), Refusal::DayListTooLong)?;
    refuse_if(days.len() != flows.len(), Refusal::LengthsDiffer)?;
    refuse_if(wrong_count(days.len(), words), Refusal::InvalidPresence)?;
    refuse_if(series::any_invalid_day(days), Refusal::InvalidDay)
}

// The checks of from_bits: 9, 14, 28, 10. (Behind 28 no number above the largest flow stands under a zero.)
#[tactic(auto, using(crate::proofs::Loops::above_is_invalid), unfolding(crate::specs::Call::from_bits_causes, series::specs::Lists::lengths_differ))]
fn check_form(flows: &[u32], words: &[u64], days: &[u32]) -> Result<(), Refusal>
    ensures { Decides (from_bits_causes flows.now words.now days.now) result }
{
    refuse_if(series::too_long(flows), Refusal::DayListTooLong)?;
    refuse_if(flows.len() != days.len(), Refusal::LengthsDiffer)?;
    refuse_if(is_invalid_form(flows, words), Refusal::InvalidPresence)?;
    refuse_if(any_above(flows), Refusal::InvalidDay)
}

// The flows and the words of days. Answers how many are present.
#[tactic(auto, using(crate::proofs::Calls::days_passed, crate::proofs::Calls::to_bits_refuses, crate::proofs::Calls::to_bits_answers, crate::proofs::Calls::flows_put, crate::proofs::Calls::words_put))]
pub fn to_bits(days: &[u32], flows: &mut [u32], words: &mut [u64]) -> Result<u32, Refusal>
    ensures answer { outcome_of result ≡ to_bits_outcome days.now flows.old words.old }
    ensures flow_list { flows.new ≡ flows_left days.now flows.old words.old }
    ensures word_list { words.new ≡ words_left days.now flows.old words.old }
{
    check_days(days, flows, words)?;
    put_flows(days, flows);
    put_words(days, words);
    Ok(ones(words))
}

// The days of flows and words. Answers how many are present.
#[tactic(auto, using(crate::proofs::Calls::form_passed, crate::proofs::Calls::from_bits_refuses, crate::proofs::Calls::from_bits_answers, crate::proofs::Calls::days_put))]
pub fn from_bits(flows: &[u32], words: &[u64], days: &mut [u32]) -> Result<u32, Refusal>
    ensures answer { outcome_of result ≡ from_bits_outcome flows.now words.now days.old }
    ensures day_list { days.new ≡ days_left flows.now words.now days.old }
{
    check_form(flows, words, days)?;
    days.copy_from_slice(flows);
    mark_missing(words, days);
    Ok(ones(words))
}
