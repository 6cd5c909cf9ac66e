//! A broken rule.

ghost use Rattle.std.specs.Prelude.{◌≡◌, cond, [], ◌∷◌};
ghost use Rattle.hs_marks.specs.First.{breach};
ghost use Rattle.hs_marks.specs.Says.{SaysNone};

use hs_base::rule::Rule;
use hs_syntax::Span;

/// A rule that is broken, and the bytes of the node that breaks it.
#[derive(Clone, Copy, Debug, PartialEq, Eq)]
pub struct Breach {
    pub rule: Rule,
    pub span: Span,
}

/// A step of a walk: the node with these bytes breaks the rule, or it doesn't.
///
/// # Errors
///
/// The rule at the node, where it is broken.
pub fn refuse_if(is_broken: bool, rule: Rule, span: Span) -> Result<(), Breach>
    ensures { SaysNone (breach span (cond is_broken (rule ∷ []) [])) result }
{
    if is_broken {
        Err(Breach { rule, span })
    } else {
        Ok(())
    }
}
