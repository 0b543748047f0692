//! A line of stored outcomes: its reader, and whether an outcome is the stored one.

use crate::files::{Lengths, Outcome};
use crate::memory::Inputs;
use crate::values;

/// A line: the patterns of the inputs, ` = `, and the outcome that the original gave.
#[derive(Clone, Copy)]
pub struct Case<'a> {
    inputs: &'a str,
    stored: Stored<'a>,
}

// What the original gave: the patterns of its numbers and then its counts, or its one number as an
// exact value, or a refusal
#[derive(Clone, Copy)]
enum Stored<'a> {
    Patterns(&'a str),
    Value(f64),
    Refused { row: u8, view: u8, index: u32 },
}

impl<'a> Case<'a> {
    /// The case of a line; none of a line out of form.
    pub fn read(line: &'a str) -> Option<Self> {
        let (inputs, stored) = line.split_once(" = ")?;
        let stored = Stored::read(stored)?;
        Some(Self { inputs, stored })
    }

    /// The inputs, `count` patterns; none where there are more or fewer.
    pub fn inputs(&self, count: usize) -> Option<Inputs> {
        let mut given = self.inputs.split(' ');
        let mut words = [0; 108];
        for word in words.iter_mut().take(count) {
            *word = pattern(given.next()?)?;
        }
        match given.next() {
            Some(_) => None,
            None => Some(Inputs::from_words(words)),
        }
    }

    /// Whether the original refused the call.
    pub fn is_refused(&self) -> bool {
        matches!(self.stored, Stored::Refused { .. })
    }

    /// Whether the stored outcome is this one. Beside a refusal the lent memory has to be what it
    /// was.
    pub fn agrees(&self, outcome: &Outcome, lengths: Lengths) -> bool {
        let code = outcome.code;
        match self.stored {
            Stored::Patterns(words) => code == 0 && has_patterns(outcome, words, lengths),
            Stored::Value(x) => code == 0 && values::are_same(x, outcome.after.numbers[0]),
            Stored::Refused { row, view, index } => {
                let stored = u64::from(row) + 256 * u64::from(view) + 65536 * u64::from(index);
                code == stored && outcome.after.is_same(&outcome.before)
            }
        }
    }
}

impl<'a> Stored<'a> {
    fn read(text: &'a str) -> Option<Self> {
        if let Some(value) = text.strip_prefix("value ") {
            return Some(Stored::Value(values::read(value)?));
        }
        let Some(refusal) = text.strip_prefix("refused ") else {
            return Some(Stored::Patterns(text));
        };
        let (row, place) = refusal.split_once(' ')?;
        let (view, index) = place.split_once(' ')?;
        Some(Stored::Refused {
            row: row.parse().ok()?,
            view: view.parse().ok()?,
            index: index.parse().ok()?,
        })
    }
}

// Whether the call gave just these patterns, of its numbers and then of its counts
fn has_patterns(outcome: &Outcome, words: &str, lengths: Lengths) -> bool {
    let mut words = words.split(' ');
    for x in outcome.after.numbers.iter().take(lengths.numbers) {
        if next_pattern(words.next()) != Some(numerics::to_bits(*x)) {
            return false;
        }
    }
    for count in outcome.after.counts.iter().take(lengths.counts) {
        if next_pattern(words.next()) != Some(u64::from(*count)) {
            return false;
        }
    }
    words.next().is_none()
}

// None at the end of the words too
fn next_pattern(word: Option<&str>) -> Option<u64> {
    pattern(word?)
}

// None of a word that is no number in hexadecimal
fn pattern(word: &str) -> Option<u64> {
    u64::from_str_radix(word, 16).ok()
}
