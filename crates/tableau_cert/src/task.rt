//! What is still to be walked through of an instance.

use crate::way::WayPoint;
use calculus::sign::Side;
use formula_core::Value;
use tableau_core::{GroundLiteral, Part};

/// A part of the problem's formula and its position.
#[derive(Clone, Copy)]
pub struct PlacedPart<'p> {
    pub part: Part<'p>,
    pub position: u32,
}

/// A part that waits, and how far the way to it goes.
#[derive(Clone, Copy)]
pub struct Task<'p> {
    pub placed: PlacedPart<'p>,
    pub point: WayPoint,
}

/// The sides and values that are still to be used.
#[derive(Clone, Copy)]
pub struct Supply<'v> {
    pub sides: &'v [Side],
    pub values: &'v [Value],
}

/// What is still to be used past a part's modal step, and the number of steps that were made.
#[derive(Clone, Copy)]
pub struct Entered<'v> {
    pub supply: Supply<'v>,
    pub steps: u64,
}

/// What a part gives: its literal, or the components that the instance has of it, at the end of the way.
#[derive(Clone, Copy)]
pub enum Opened<'p> {
    Literal(GroundLiteral),
    One(PlacedPart<'p>),
    Two(PlacedPart<'p>, PlacedPart<'p>),
}

/// What a part gives, whether its term is allowed, and what is still to be used.
#[derive(Clone, Copy)]
pub struct Step<'p, 'v> {
    pub opened: Opened<'p>,
    pub allowed: bool,
    pub supply: Supply<'v>,
}
