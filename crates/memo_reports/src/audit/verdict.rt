//! The result of an audit.

ghost use Rattle.std.specs.Prelude.{◌≡◌, ◌<◌, ◌+◌, ◌^◌, if◌then◌else◌, IfSome, None, Some};
ghost use Rattle.memo_reports.specs.Claims.{first_of_both};

/// The result of an audit.
#[derive(Clone, Copy)]
pub struct Verdict {
    /// How many instructions were executed: the turns of all thunks.
    pub instructions: u64,
    /// The place of the first record that isn't as the machine makes it, or the place after the last record if all are
    /// and no end comes after them. None if the history is honest.
    pub first: Option<u32>,
}

impl Verdict {
    /// The verdict of no record.
    pub(super) fn of_none() -> Verdict
        ensures instructions { result.instructions ≡ 0 }
        ensures first { result.first ≡ None }
    {
        Verdict {
            instructions: 0,
            first: None,
        }
    }

    /// The verdict of `count` records, of which this is the verdict, and of others after them.
    pub(super) fn and(self, count: u32, others: Verdict) -> Verdict
        requires instructions { self.instructions + others.instructions < 2 ^ 64 }
        requires places { IfSome others.first (λ place. count + place < 2 ^ 32) }
        ensures instructions { result.instructions ≡ self.instructions + others.instructions }
        ensures first { result.first ≡ first_of_both self.first count others.first }
    {
        let first = match (self.first, others.first) {
            (Some(place), _) => Some(place),
            (None, Some(place)) => Some(count + place),
            (None, None) => None,
        };
        Verdict {
            instructions: self.instructions + others.instructions,
            first,
        }
    }

    /// The verdict of all records, of which the first `count` were examined. `is_false` is whether what follows them is
    /// false: a record, or that no end comes.
    pub(super) fn closed(self, count: u32, is_false: bool) -> Verdict
        ensures instructions { result.instructions ≡ self.instructions }
        ensures first { result.first
            ≡ first_of_both self.first count (if is_false then Some 0 else None) }
    {
        let first = match self.first {
            Some(place) => Some(place),
            None => { if is_false { Some(count) } else { None } }
        };
        Verdict {
            instructions: self.instructions,
            first,
        }
    }
}
