//! The height of one node more.

ghost use Rattle.std.specs.Prelude.{◌≡◌, suc, max};
ghost use Rattle.hs_marks.specs.Says.{Says};
ghost use Rattle.hs_limits.specs.Walk.{first_high};

use hs_base::rule::Rule;
use hs_marks::{Breach, refuse_if};
use hs_syntax::Span;

/// The greatest height of an expression, a statement or a block.
pub const HEIGHT: u32 = 64;

/// The height of an expression, a statement or a block over parts of this height.
///
/// # Errors
///
/// The node, where it is too high.
pub fn one_more(span: Span, parts: u32) -> Result<u32, Breach>
    ensures { Says (first_high span parts) (λ height. height ≡ suc parts) result }
{
    refuse_if(parts >= HEIGHT, Rule::S2, span)?;
    Ok(parts + 1)
}

/// The greater of the height before and that of an expression, a statement or a block over parts of this height.
///
/// # Errors
///
/// The node, where it is too high.
pub fn settle(span: Span, parts: u32, before: u32) -> Result<u32, Breach>
    ensures { Says (first_high span parts) (λ height. height ≡ max before (suc parts)) result }
{
    Ok(before.max(one_more(span, parts)?))
}
