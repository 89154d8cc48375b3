// Ranges of numbers.
ghost use Rattle.std.specs.Prelude.{◌≡◌};
ghost use Rattle.std.specs.Option.{option_map};
ghost use Rattle.py_value.specs.Elements.{is_in_range, range_at};
ghost use Rattle.ui_elements.specs.Ranges.{range_seen};

use crate::params::number_at;
use py_value::Pairs;

/// Numbers from a first to a last one, and how far one is from the next.
#[derive(Clone, Copy)]
pub struct Range {
    pub start: i128,
    pub stop: i128,
    pub step: i128,
}

/// The range that parameters of an element give, where they are numbers.
pub fn range_at(params: &Pairs) -> Option<Range>
    ensures { option_map range_seen result ≡ range_at params.now }
{
    let start = number_at(params, "start");
    let stop = number_at(params, "stop");
    let step = number_at(params, "step");
    match (start, stop, step) {
        (Some(start), Some(stop), Some(step)) => Some(Range { start, stop, step }),
        _ => None,
    }
}

/// The number is in the range, a whole number of steps of 1 or more from its start.
#[tactic(auto, using(crate::proofs::Gaps::gaps))]
pub fn is_in_range(range: Range, n: i128) -> bool
    ensures { result ≡ is_in_range (range_seen range) n }
{
    if range.step < 1 || n < range.start || range.stop < n {
        return false;
    }
    range.start.abs_diff(n) % range.step.unsigned_abs() == 0
}
