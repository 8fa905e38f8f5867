//! The values that are asked for, as they are found in one buffer.

ghost use Rattle.std.specs.Prelude.{◌≡◌, ◌<◌, ◌≤◌, ◌++◌, ◌∷◌, [], length};

use fb_access::Answer;
use std::marker::Model;

/// The most paths of a run.
pub const MOST_PATHS: usize = 16;

/// The values at the ends of the paths, in the order of these: at most 16. A clause sees the list of them.
#[derive(Drop)]
pub struct Answers<'b> {
    values: [Answer<'b>; MOST_PATHS],
    count: usize,
}

impl<'b> Model for Answers<'b> {
    ghost use Rattle.std.specs.Prelude.{◌≡◌, ◌≤◌, List, length, take};
    ghost use Rattle.fb_access.specs.declared.answer.Answer.{Answer};

    ghost Value = { List Answer };

    ghost view = { λ a. take a.count a.values };

    ghost invariant = { λ a. (length a.values ≡ 16) × (a.count ≤ 16) };
}

impl<'b> Answers<'b> {
    /// None.
    pub fn new() -> Answers<'b>
        ensures { result ≡ [] }
    {
        Answers {
            values: [Answer::Absent; MOST_PATHS],
            count: 0,
        }
    }

    /// Adds one behind them.
    #[tactic(auto, using(std::proofs::lemmas::Grind::common_steps))]
    pub fn push(&mut self, answer: Answer<'b>)
        requires { length self.old < MOST_PATHS }
        ensures { self.new ≡ self.old ++ answer.entry ∷ [] }
    {
        self.values[self.count] = answer;
        self.count += 1;
    }

    /// All of them.
    pub fn as_slice(&self) -> &[Answer<'b>]
        ensures value { result.now ≡ self.now }
        ensures few { length result.now ≤ MOST_PATHS }
    {
        &self.values[..self.count]
    }
}
