//! One level of the search: the solutions found so far, and the vectors from which it goes on.
ghost use Rattle.std.specs.Prelude.{◌≡◌, ◌≢◌, pos, ◌↔◌, ◌+◌, ◌*◌, ◌<◌, [], IfOk, OnOk, IsTrue, All, Contains};
ghost use Rattle.fvn_lindio.specs.Vectors.{IsAtOrBelow, add};
ghost use Rattle.fvn_lindio.specs.inner.Search.{IsOpposite};

use crate::vector::{is_at_or_below, is_opposite, is_same, sum_of};
use smallvec::SmallVec;
use std::alloc::{AllocError, Global};

/// A vector, and the value of the row at it.
#[derive(Drop)]
pub(crate) struct Point {
    pub parts: SmallVec<u64, 8>,
    pub value: i64,
}

/// Solutions of the row, and the vectors from which the search goes on, each once.
#[derive(Drop)]
pub(crate) struct Level {
    pub found: Vec<Point>,
    pub ahead: Vec<Point>,
}

/// Whether one of the points is at or below the vector.
fn has_below(points: &[Point], parts: &[u64]) -> bool
    ensures { IsTrue result
        ↔ ((p : Point) × Contains points.now p × IsAtOrBelow p.parts.items parts.now) }
{
    for p in points {
        if is_at_or_below(p.parts.as_slice(), parts) {
            return true;
        }
    }
    false
}

/// Whether one of the points is at the vector.
fn has_at(points: &[Point], parts: &[u64]) -> bool
    ensures { IsTrue result ↔ ((p : Point) × Contains points.now p × (p.parts.items ≡ parts.now)) }
{
    for p in points {
        if is_same(p.parts.as_slice(), parts) {
            return true;
        }
    }
    false
}

impl Level {
    ghost use Rattle.fvn_lindio.specs.inner.Levels.{CanAdd, GrowsAnew, CoversSteps, CoversStepsFrom, Grows, IsCovered, IsOnce, IsStepBy, IsStep, IsStepFrom, IsThis, IsAt};

    /// Nothing found, and nothing ahead.
    pub fn new(alloc: Global) -> Level
        ensures found { result.found.items ≡ [] }
        ensures ahead { result.ahead.items ≡ [] }
    {
        Level {
            found: Vec::new(alloc),
            ahead: Vec::new(alloc),
        }
    }

    /// Takes a point in, unless a solution found is at or below it, or it is ahead already.
    fn admit(&mut self, point: Point) -> Result<(), AllocError>
        ensures grows { OnOk result (Grows (IsThis point) self.old self.new) }
        ensures covered { OnOk result (IsCovered self.new point.parts.items) }
        ensures once { OnOk result (IsOnce self.old → IsOnce self.new) }
    {
        if has_below(self.found.as_slice(), point.parts.as_slice()) {
            return Ok(());
        }
        if point.value == 0 {
            self.found.push(point)?;
            return Ok(());
        }
        if has_at(self.ahead.as_slice(), point.parts.as_slice()) {
            return Ok(());
        }
        self.ahead.push(point)?;
        Ok(())
    }

    /// Takes in `x` and `g` together, where their values have opposite signs.
    fn step_by(&mut self, alloc: Global, x: &Point, g: &Point) -> Result<(), AllocError>
        requires { CanAdd x.now g.now }
        ensures grows { OnOk result (Grows (IsStepBy x.now g.now) self.old self.new) }
        ensures covered { OnOk result (IsOpposite x.now.value g.now.value
            → IsCovered self.new (add x.now.parts.items g.now.parts.items)) }
        ensures once { OnOk result (IsOnce self.old → IsOnce self.new) }
    {
        if !is_opposite(x.value, g.value) {
            return Ok(());
        }
        let parts = sum_of(alloc, x.parts.as_slice(), g.parts.as_slice())?;
        let value = x.value + g.value;
        self.admit(Point { parts, value })?;
        Ok(())
    }

    /// Takes in each vector that is one generator on from `x`.
    fn step_from(
        &mut self,
        alloc: Global,
        x: &Point,
        generators: &[Point],
    ) -> Result<(), AllocError>
        requires { All (CanAdd x.now) generators.now }
        ensures grows { OnOk result (Grows (IsStep generators.now x.now) self.old self.new) }
        ensures covered { OnOk result (CoversSteps generators.now x.now self.new) }
        ensures once { OnOk result (IsOnce self.old → IsOnce self.new) }
    {
        for g in generators {
            self.step_by(alloc, x, g)?;
        }
        Ok(())
    }

    /// The next level: each vector ahead is one generator on from one that was ahead.
    pub fn next(self, alloc: Global, generators: &[Point]) -> Result<Level, AllocError>
        requires { All (λ x. All (CanAdd x) generators.now) self.ahead.items }
        ensures grows { IfOk result (λ level. GrowsAnew
            (IsStepFrom generators.now self.ahead.items) self level) }
        ensures covered { IfOk result (CoversStepsFrom generators.now self.ahead.items) }
        ensures once { IfOk result IsOnce }
    {
        let Level { found, ahead } = self;
        let mut level = Level {
            found,
            ahead: Vec::new(alloc),
        };
        for x in &ahead {
            level.step_from(alloc, x, generators)?;
        }
        Ok(level)
    }

    /// The first level: the generators themselves.
    pub fn first(alloc: Global, generators: &[Point]) -> Result<Level, AllocError>
        ensures found { IfOk result (λ level. (p : Point) → Contains level.found.items p →
            IsAt generators.now p × (p.value ≡ pos 0)) }
        ensures ahead { IfOk result (λ level. (p : Point) → Contains level.ahead.items p →
            IsAt generators.now p × (p.value ≢ pos 0)) }
        ensures covered { IfOk result (λ level. (g : Point) → Contains generators.now g →
            IsCovered level g.parts.items) }
        ensures once { IfOk result IsOnce }
    {
        let mut level = Level::new(alloc);
        for g in generators {
            let parts = SmallVec::from_slice(alloc, g.parts.as_slice())?;
            let value = g.value;
            level.admit(Point { parts, value })?;
        }
        Ok(level)
    }
}
