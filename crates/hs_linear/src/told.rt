//! What is told of moves.

ghost use Rattle.std.specs.Prelude.{◌≡◌};
ghost use Rattle.hs_linear.specs.Told.{is_before, earlier};

use hs_base::rule::Rule;
use hs_tree::node::Span;

/// A rule that a node breaks, and where the node stands in the text.
#[derive(Clone, Copy, Debug, PartialEq, Eq)]
pub struct Breach {
    pub rule: Rule,
    pub span: Span,
}

/// A read that takes the value out of its local, and where it stands in the text.
#[derive(Clone, Copy, Debug, PartialEq, Eq)]
pub struct Take {
    pub local: usize,
    pub span: Span,
}

/// Whether what is broken is told before something else: its node ends first; of those that end there it is the innermost, which
/// begins last; of the rules of one node it has the least number.
fn is_before(one: Breach, other: Breach) -> bool
    ensures { result ≡ is_before one other }
{
    if one.span.end != other.span.end {
        return one.span.end < other.span.end;
    }
    if one.span.start != other.span.start {
        return other.span.start < one.span.start;
    }
    one.rule.number() < other.rule.number()
}

/// Of what is told so far and something else that is broken, what is told before the other.
pub fn earlier(told: Option<Breach>, breach: Breach) -> Option<Breach>
    ensures { result ≡ earlier told breach }
{
    match told {
        Some(before) if !is_before(breach, before) => Some(before),
        _ => Some(breach),
    }
}
