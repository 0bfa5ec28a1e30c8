//! Truth values of a filter's parts, as they are found from left to right.

ghost use Rattle.std.specs.Prelude.{◌≡◌, true, false, not};

use arrayvec::ArrayVec;

/// At most so many `(` are open at once.
const DEEPEST: usize = 16;

/// What was found inside one `(`.
#[derive(Clone, Copy, Default)]
pub(crate) struct Frame {
    /// Whether an alternative before this one holds.
    any: bool,
    /// Whether all factors of this alternative hold.
    all: bool,
    /// Whether the next operand is inverted.
    odd: bool,
}

impl Frame {
    ghost use Rattle.trace_filter.specs.Steps.{fresh as fresh_frame, inverted, with_operand, total as total_of};

    fn new() -> Frame
        ensures { result ≡ fresh_frame }
    {
        Frame {
            any: false,
            all: true,
            odd: false,
        }
    }

    /// Behind one more operand.
    fn with(self, holds: bool) -> Frame
        ensures { result ≡ with_operand self holds }
    {
        Frame {
            any: self.any,
            all: self.all & (holds != self.odd),
            odd: false,
        }
    }

    fn total(self) -> bool
        ensures { result ≡ total_of self }
    {
        self.any | self.all
    }
}

/// What was found inside the innermost `(`, and inside those outside it.
#[derive(Drop)]
pub(crate) struct Frames {
    current: Frame,
    /// Innermost last.
    outer: ArrayVec<Frame, DEEPEST>,
}

impl Frames {
    ghost use Rattle.trace_filter.specs.Steps.{at_start, state_of, opened, closed, with_operand, total as total_of};

    pub(crate) fn new() -> Frames
        ensures { state_of result ≡ at_start }
    {
        Frames {
            current: Frame::new(),
            outer: ArrayVec::new(),
        }
    }

    /// Behind a `(`.
    pub(crate) fn open(&mut self)
        ensures { state_of self.new ≡ opened self.old.current (state_of self.old).outer }
    {
        if self.outer.try_push(self.current).is_ok() {
            self.current = Frame::new();
        }
    }

    /// Behind a `)`.
    pub(crate) fn close(&mut self)
        ensures { state_of self.new ≡ closed self.old.current (state_of self.old).outer }
    {
        if let Some(before) = self.outer.pop() {
            self.current = before.with(self.current.total());
        }
    }

    /// Behind a `!`.
    pub(crate) fn invert(&mut self)
        ensures { state_of self.new ≡ record { frame = record { any = self.old.current.any; all = self.old.current.all; odd = not self.old.current.odd }; outer = (state_of self.old).outer } }
    {
        self.current.odd = !self.current.odd;
    }

    /// Behind a `||`.
    pub(crate) fn or_else(&mut self)
        ensures { state_of self.new ≡ record { frame = record { any = total_of self.old.current; all = true; odd = false }; outer = (state_of self.old).outer } }
    {
        self.current = Frame {
            any: self.current.total(),
            all: true,
            odd: false,
        };
    }

    /// Behind a test.
    pub(crate) fn test(&mut self, holds: bool)
        ensures { state_of self.new ≡ record { frame = with_operand self.old.current holds; outer = (state_of self.old).outer } }
    {
        self.current = self.current.with(holds);
    }

    pub(crate) fn total(&self) -> bool
        ensures { result ≡ total_of self.now.current }
    {
        self.current.total()
    }
}
