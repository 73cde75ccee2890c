//! Where in a picture an entry stands.

ghost use Rattle.std.specs.Prelude.{◌<◌};

use crate::svg::Length;

/// How wide the plot is at most, in pixels.
pub const WIDEST: u64 = 1_500;

/// How wide it is at least: as wide as the legend below it.
const NARROWEST: u64 = 750;

/// How wide an entry is, in hundredths of a pixel, where that is neither too wide nor too narrow.
const STEP: u64 = 1_400;

/// How far from each other numbers stand on the axis, in hundredths of a pixel.
const APART: u64 = 6_000;

/// A stretch of time that is drawn from left to right.
#[derive(Clone, Copy, Debug, PartialEq, Eq)]
pub struct Scale {
    /// What stands at the left edge: an entry's number or a moment.
    pub first: u64,
    /// What stands at the right edge.
    pub last: u64,
    /// Where the left edge is.
    pub left: Length,
}

impl Scale {
    /// How much time it has; at least 1.
    pub fn span(self) -> u64
        ensures { 0 < result }
    {
        self.last.saturating_sub(self.first).max(1)
    }

    /// How wide it is.
    pub fn width(self) -> Length {
        let wished = self.span().saturating_mul(STEP);
        Length(wished.clamp(NARROWEST * 100, WIDEST * 100))
    }

    /// How much time stands within one pixel; 1 where there is room for each.
    pub fn merged(self) -> u64
        ensures { 0 < result }
    {
        (self.span() / WIDEST).max(1)
    }

    /// Where a time stands.
    pub fn at(self, time: u64) -> Length {
        let behind = time
            .clamp(self.first, self.last.max(self.first))
            .saturating_sub(self.first);
        let whole = u128::from(behind).saturating_mul(u128::from(self.width().0));
        let along = whole / u128::from(self.span());
        self.left
            .and(Length(u64::try_from(along).unwrap_or(u64::MAX)))
    }

    /// In which pixel's column a time stands, from 0.
    pub fn column(self, time: u64) -> usize {
        (self.at(time).without(self.left).0 / 100) as usize
    }

    /// From one number of the axis to the next: 1, 2 or 5 with zeros behind it, so that numbers are far enough from each other.
    pub fn step(self) -> u64
        ensures { 0 < result }
    {
        let width = u128::from(self.width().0);
        let wanted = u128::from(APART).saturating_mul(u128::from(self.span()));
        let mut step = 1u64;
        for turn in 0u8..58 {
            if u128::from(step).saturating_mul(width) >= wanted {
                return step.max(1);
            }
            // From 2 to 5 it is two and a half times as much, and else twice.
            step = if turn % 3 == 1 {
                step.saturating_mul(5) / 2
            } else {
                step.saturating_mul(2)
            };
        }
        step.max(1)
    }
}
