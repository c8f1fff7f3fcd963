ghost use Rattle.std.specs.Prelude.{◌≡◌, ℕ};
ghost use Rattle.circuits.specs.Growths.{Tables, Grows, Level, Bounded, exponential, linear};
ghost use Rattle.std.proofs.Common.{rules};

// How levels grow: the level of the sum and of the product of two wires, by their levels from 1 to 64. Levels are plain numbers, as a run
// writes them into lent memory, so that their bounds are clauses.
pub trait Growth {
    ghost tables: { Self → Tables };

    // Every growth gives a sum the larger of the two.
    fn sum(&self, a: u32, b: u32) -> u32
        requires first { Level a }
        requires second { Level b }
        ensures { result ≡ (tables self.now).sum a b }
    {
        a.max(b)
    }

    fn product(&self, a: u32, b: u32) -> u32
        requires first { Level a }
        requires second { Level b }
        ensures { result ≡ (tables self.now).product a b };

    ghost grows: { (g : Self) → Grows (tables g) };
}

// A growth with the highest level that a wire may have, and the level after a refresh.
pub trait Scheme: Growth {
    const LIMIT: u32;

    const FRESH: u32;

    ghost LIMIT: { ℕ };

    ghost FRESH: { ℕ };

    fn limit_level(&self) -> u32
        ensures { result ≡ LIMIT }
    {
        Self::LIMIT
    }

    fn fresh_level(&self) -> u32
        ensures { result ≡ FRESH }
    {
        Self::FRESH
    }

    ghost bounded: { Bounded LIMIT FRESH };
}

// A product has the sum of the two levels; the limit is 2.
#[derive(Clone, Copy)]
pub struct Exponential;

impl Growth for Exponential {
    ghost tables = { λ _. exponential };

    ghost grows = { Prim.search rules };

    fn product(&self, a: u32, b: u32) -> u32 {
        a + b
    }
}

impl Scheme for Exponential {
    const LIMIT: u32 = 2;

    const FRESH: u32 = 1;

    ghost LIMIT = { 2 };

    ghost FRESH = { 1 };

    ghost bounded = { Prim.search rules };
}

// A product has the larger level and 1 more; the limit is 2.
#[derive(Clone, Copy)]
pub struct Linear;

impl Growth for Linear {
    ghost tables = { λ _. linear };

    ghost grows = { Prim.search rules };

    fn product(&self, a: u32, b: u32) -> u32 {
        1 + a.max(b)
    }
}

impl Scheme for Linear {
    const LIMIT: u32 = 2;

    const FRESH: u32 = 1;

    ghost LIMIT = { 2 };

    ghost FRESH = { 1 };

    ghost bounded = { Prim.search rules };
}

// Grows as `Linear` does; the limit is 20, and a refresh leaves level 9. A type of its own, since a scheme's two constants belong to its type.
#[derive(Clone, Copy)]
pub struct LinearTwenty;

impl Growth for LinearTwenty {
    ghost tables = { λ _. linear };

    ghost grows = { Prim.search rules };

    fn product(&self, a: u32, b: u32) -> u32 {
        Linear.product(a, b)
    }
}

impl Scheme for LinearTwenty {
    const LIMIT: u32 = 20;

    const FRESH: u32 = 9;

    ghost LIMIT = { 20 };

    ghost FRESH = { 9 };

    ghost bounded = { Prim.search rules };
}
