//! The numbers that come next.

ghost use Rattle.scope_declarations.specs.Props.{scope_props};
ghost use Rattle.scope_declarations.specs.Within.{AreWithin};

/// The numbers that the next point and the next variable get. The points so far are within their limit, and bound no
/// more variables than there are tokens for each of them, so 32 bits are enough.
#[derive(Clone, Copy)]
pub struct Numbers {
    pub point: u32,
    pub variable: u32,
    ghost within: { AreWithin point variable } by { Prim.hlevel scope_props },
}
