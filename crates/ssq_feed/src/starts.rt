//! The starts of the windows that hold a time.

ghost use Rattle.std.specs.Prelude.{◌≡◌, ◌<◌, ◌≤◌, ℕ, pos, ◌+ℤ◌, ◌*ℤ◌};
ghost use Rattle.ssq_time.specs.Time.{IsSpan, IsStampTime};

/// The starts of the windows that hold a time, the first one first, in microseconds since 1970.
#[derive(Clone, Copy)]
pub(crate) struct Starts {
    pub(crate) first: i64,
    /// How long after a window begins the next one does, in microseconds.
    pub(crate) slide: i64,
    pub(crate) count: u32,
    ghost years: { (k : ℕ) → k < count → IsStampTime (first +ℤ (pos k *ℤ slide)) },
    ghost slide_is: { IsSpan slide },
    ghost few: { count ≤ 64 },
}

impl Starts {
    /// The start of one of them, which are counted from 0.
    pub(crate) fn start(&self, nth: u32) -> i64
        requires { nth < self.now.count }
        ensures { result ≡ self.now.first +ℤ (pos nth *ℤ self.now.slide) }
    {
        self.first + i64::from(nth) * self.slide
    }
}
