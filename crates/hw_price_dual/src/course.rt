//! How far prices are moved in a step, and how long: Polyak's step, the gap to a target over the square of the
//! direction's length, with a pace that falls where nothing is gained. See M. Held, P. Wolfe and H. P. Crowder,
//! "Validation of Subgradient Optimization", Mathematical Programming 6, 1974.

use crate::settings::{COUNTED_PACE, DISTANCE, LENGTH, NEAR, PATIENCE, PROGRESS, SCALE, SLOWED};

/// What a room may earn at most, in parts, so that nothing in it carries more than this, in tenths of a tonne.
pub fn goal(best: u64) -> i64 {
    i64::try_from(best)
        .unwrap_or(i64::MAX)
        .saturating_add(1)
        .saturating_mul(SCALE)
        .saturating_sub(1)
}

/// A little less than what a room earns, both in parts: a target that is met soon.
pub fn near(earned: i64) -> i64 {
    earned.saturating_sub(earned.saturating_abs() / NEAR)
}

/// What to do in a room.
#[derive(Clone, Copy)]
pub struct Course {
    /// How many steps at most.
    pub(crate) steps: u32,
    /// How fast they begin, in parts of `FULL_PACE`.
    pace: i64,
    /// What the room may earn in the end, in parts.
    target: i64,
    /// It is enough if the room earns no more than this.
    stop: i64,
}

impl Course {
    /// The course to a goal, in parts, with which it ends; without a goal it takes all its steps. The pace with which it
    /// begins is in parts of `FULL_PACE`.
    pub fn towards(goal: Option<i64>, steps: u32, pace: i64) -> Course {
        Course {
            steps,
            pace,
            target: goal.unwrap_or(i64::MAX),
            stop: goal.unwrap_or(i64::MIN),
        }
    }

    /// A slow course to a goal, on which it is counted what ships choose. It goes towards a target of its own, in parts
    /// like the goal.
    pub fn counting(goal: Option<i64>, steps: u32, target: i64) -> Course {
        Course {
            target,
            ..Course::towards(goal, steps, COUNTED_PACE)
        }
    }
}

/// The rule by which the steps of a course are measured, and how far the course is.
#[derive(Clone, Copy)]
pub(crate) struct StepRule {
    course: Course,
    /// The least total so far.
    pub(crate) best: i64,
    pace: i64,
    /// Steps without progress.
    since: u32,
}

impl StepRule {
    pub(crate) fn new(course: Course) -> StepRule {
        StepRule {
            course,
            best: i64::MAX,
            pace: course.pace,
            since: 0,
        }
    }

    /// Takes the total of a step. Whether more steps are worth it.
    pub(crate) fn goes_on(&mut self, total: i64) -> bool {
        if total < self.best {
            self.on_improvement(total);
            self.course.stop < total
        } else {
            self.on_stall();
            0 < self.pace
        }
    }

    fn on_improvement(&mut self, total: i64) {
        let left = self.best.saturating_sub(self.course.target);
        if left / PROGRESS < self.best.saturating_sub(total) {
            self.since = 0;
        }
        self.best = total;
    }

    fn on_stall(&mut self) {
        self.since = self.since.saturating_add(1);
        if PATIENCE <= self.since {
            self.since = 0;
            self.pace = self.pace.saturating_mul(SLOWED) / 4;
        }
    }

    /// How far a direction of this length moves a price for each unit of it, in parts of
    /// `FULL_PACE`.
    pub(crate) fn unit(&self, total: i64, norm: i64) -> i64 {
        let below = self
            .best
            .saturating_sub(self.best.saturating_abs() / DISTANCE);
        let target = self.course.target.min(below);
        let gap = total.saturating_sub(target).max(SCALE);
        if norm <= 0 {
            return 0;
        }
        gap.saturating_mul(self.pace.saturating_mul(LENGTH)) / norm
    }
}
