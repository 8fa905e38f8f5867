//! A path as C has it.

ghost use Rattle.std.specs.Prelude.{◌≡◌, ◌<◌, MatchOption, Some, length, option_map};
ghost use Rattle.fbcheck_calls.specs.{Around.IsAround, Each.HasEach, Steps.AreWritten, Steps.IsPathOf, Steps.step_of, Steps.steps_in, Steps.steps_said};

use fb_access::Step;

/// One step of a path (`fbcheck_step`).
#[repr(C)]
#[derive(Clone, Copy)]
pub struct PlainStep {
    /// 1 for a field, 2 for an element, 3 for a member.
    pub kind: u32,
    /// The field's number, the element's, or the member's value.
    pub number: u32,
}

/// The most steps of a path.
const STEPS: u32 = 31;

/// What stands where a path has no step.
const NO_STEP: PlainStep = PlainStep { kind: 0, number: 0 };

/// A path that was resolved (`fbcheck_path`).
#[repr(C)]
#[derive(Clone, Copy)]
pub struct PlainPath {
    /// How many steps it has.
    pub count: u32,
    /// Which of its steps stands for each element, counted from 1 on; 0 for none.
    pub each: u32,
    /// The steps, from the first on; behind them zeros.
    pub steps: [PlainStep; 31],
}

/// The steps of a path around the one that stands for each element.
#[derive(Clone, Copy)]
pub struct Around<'p> {
    /// Those to the vector or array.
    pub before: &'p [PlainStep],
    /// Those from an element on.
    pub after: &'p [PlainStep],
}

impl PlainStep {
    /// The step as C has it.
    fn of(step: Step) -> PlainStep
        ensures { step_of result ≡ Some step }
    {
        let (kind, number) = match step {
            Step::Field(number) => (1, u32::from(number)),
            Step::Element(number) => (2, number),
            Step::Member(value) => (3, u32::from(value)),
        };
        PlainStep { kind, number }
    }

    /// The step that this is, if it is one.
    pub fn step(self) -> Option<Step>
        ensures { result ≡ step_of self }
    {
        let number = self.number;
        match self.kind {
            1 if number <= 0xFFFF => Some(Step::Field(number as u16)),
            2 => Some(Step::Element(number)),
            3 if number <= 0xFF => Some(Step::Member(number as u8)),
            _ => None,
        }
    }
}

/// Writes the steps of a path where there is room for all of them. Whether there was.
pub fn write_steps(path: &[Step], room: &mut [PlainStep]) -> bool
    ensures { AreWritten path.now room.old room.new result }
{
    if path.len() > room.len() {
        return false;
    }
    for place in 0..path.len() {
        room[place] = PlainStep::of(path[place]);
    }
    true
}

impl PlainPath {
    /// The path of these steps to one value, none where they are more than 31.
    pub fn of(path: &[Step]) -> Option<PlainPath>
        ensures { MatchOption result (31 < length path.now) (λ p. IsPathOf path.now p × (p.each ≡ 0)) }
    {
        let mut steps = [NO_STEP; 31];
        if !write_steps(path, &mut steps) {
            return None;
        }
        Some(PlainPath {
            count: path.len() as u32,
            each: 0,
            steps,
        })
    }

    /// The steps that it says, none where they are said to be more than 31.
    pub fn said(&self) -> Option<&[PlainStep]>
        ensures { option_map (λ s. s.now) result ≡ steps_said self.now }
    {
        if self.count > STEPS {
            return None;
        }
        Some(&self.steps[..self.count as usize])
    }

    /// Its steps to one value, none where one of them stands for each element.
    pub fn steps(&self) -> Option<&[PlainStep]>
        ensures { option_map (λ s. s.now) result ≡ steps_in self.now }
    {
        if self.each != 0 {
            return None;
        }
        self.said()
    }

    /// The steps around the one that stands for each element, none where there is none.
    pub fn around(&self) -> Option<Around<'_>>
        ensures { MatchOption result (HasEach self.now → ⊥) (IsAround self.now) }
    {
        if self.each == 0 || self.each > self.count || self.count > STEPS {
            return None;
        }
        let each = self.each as usize;
        if self.steps[each - 1].kind != 2 {
            return None;
        }
        Some(Around {
            before: &self.steps[..each - 1],
            after: &self.steps[each..self.count as usize],
        })
    }
}
