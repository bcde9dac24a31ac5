//! Segments of frames: consecutive frames whose tables have consecutive places.
ghost use Rattle.std.specs.Prelude.{◌≡◌, ◌&&◌, ◌+◌, ◌∷◌, [], true, nat_le};
ghost use Rattle.std.specs.List.{list_all};
ghost use Rattle.x86_64_tables.specs.FrameSegments as segment;

/// Consecutive 4KiB frames whose tables have consecutive places (numbers of tables in the memory): the frame with number
/// `first` + i has the place `place` + i, for each i below `count`.
#[derive(Clone, Copy, Debug, PartialEq, Eq)]
#[repr(C)]
pub struct FrameSegment {
    /// The number of the first frame.
    pub first: u64,
    /// The number of frames.
    pub count: u64,
    /// The place of the first frame.
    pub place: u64,
}

impl FrameSegment {
    /// The segment without frames.
    pub(super) const EMPTY: FrameSegment = FrameSegment {
        first: 0,
        count: 0,
        place: 0,
    };

    /// Returns true if the segment may come after others: the sums `first` + `count` and `place` + `count` are below 2^64,
    /// the frames of the others end before `first`, and no place of the others is one of its own.
    pub(super) fn may_follow(&self, others: &[FrameSegment]) -> bool
        ensures { result ≡ (list_all (λ other. segment.may_precede other self.now) others.now
            && segment.ends_below_limit self.now) }
    {
        self.follows_each(others) & self.ends_below_limit()
    }

    /// Returns true if each of others may come before the segment.
    fn follows_each(&self, others: &[FrameSegment]) -> bool
        ensures { result ≡ list_all (λ other. segment.may_precede other self.now) others.now }
    {
        others.iter().all(|other| other.may_precede(self))
    }

    /// Returns the place of the frame with a number, or `None` if the segment doesn't have it.
    pub(super) fn place_of(&self, number: u64) -> Option<u64>
        requires { segment.ends_below_limit self.now ≡ true }
        ensures { result ≡ segment.segment_place (self.now ∷ []) number }
    {
        let distance = number.checked_sub(self.first)?;
        if distance < self.count {
            Some(self.place + distance)
        } else {
            None
        }
    }

    /// Returns true if the sums `first` + `count` and `place` + `count` are below 2^64.
    fn ends_below_limit(&self) -> bool
        ensures { result ≡ segment.ends_below_limit self.now }
    {
        self.first.checked_add(self.count).is_some() && self.place.checked_add(self.count).is_some()
    }

    /// Returns true if the segment may come before another.
    fn may_precede(&self, other: &FrameSegment) -> bool
        ensures { result ≡ segment.may_precede self.now other.now }
    {
        ends_before(self.first, self.count, other.first)
            && (ends_before(self.place, self.count, other.place)
                || ends_before(other.place, other.count, self.place))
    }
}

/// Returns true if so many numbers from a first one on are all below a limit, or there is none and the first is no
/// greater than the limit.
fn ends_before(first: u64, count: u64, limit: u64) -> bool
    ensures { result ≡ nat_le (first + count) limit }
{
    first <= limit && count <= limit - first
}
