//! The nodes that forms make of their parts.

ghost use Rattle.std.specs.Prelude.{◌≡◌, IfOk};
ghost use Rattle.hs_forms.specs.Nodes as nodes;

use hs_forms::{Kind, Token, across};
use hs_syntax::{Arg, Arm, ArmPat, Block, Else, Exp, If, Path, Postfix, PrefixOp, Span};
use sqlite_items::{Boxed, Items};
use std::alloc::{AllocError, Global};

/// What a call is, or its path alone where nothing stands behind it.
pub(crate) fn call(path: Path, args: Option<(Items<Arg>, Span)>) -> Exp
    ensures { result ≡ nodes.call_of path args }
{
    match args {
        Some((args, close)) => {
            let span = across(path.span(), close);
            Exp::Call(span, path, args)
        }
        None => Exp::Path(path),
    }
}

/// An expression in parentheses.
pub(crate) fn group(alloc: Global, left: Span, inner: Exp, right: Span) -> Result<Exp, AllocError>
    ensures { IfOk result (λ e. e ≡ nodes.group_of left inner right) }
{
    Ok(Exp::Group(across(left, right), Boxed::new(alloc, inner)?))
}

/// A tuple of a first expression and more.
pub(crate) fn tuple(
    alloc: Global,
    left: Span,
    first: Exp,
    more: Items<Exp>,
    right: Span,
) -> Result<Exp, AllocError>
    ensures { IfOk result (λ e. e ≡ nodes.tuple_of left first more right) }
{
    let mut parts = Items::new(alloc);
    parts.push(first)?;
    parts.append(more)?;
    Ok(Exp::Tuple(across(left, right), parts))
}

/// An `if`, and what stands behind its `else`.
#[tactic(auto, unfolding(hs_syntax::specs::Spans::span_of_block))]
pub(crate) fn choice(word: Span, condition: Exp, then: Block, otherwise: Option<Else>) -> If
    ensures { result ≡ nodes.if_of word condition then otherwise }
{
    let end = match &otherwise {
        Some(branch) => branch.span(),
        None => then.span,
    };
    If {
        span: across(word, end),
        condition,
        then,
        otherwise,
    }
}

/// A `match`.
pub(crate) fn selection(
    alloc: Global,
    word: Span,
    value: Exp,
    arms: Items<Arm>,
    right: Span,
) -> Result<Exp, AllocError>
    ensures { IfOk result (λ e. e ≡ nodes.match_of word value arms right) }
{
    Ok(Exp::Match(across(word, right), Boxed::new(alloc, value)?, arms))
}

/// An arm of a `match`.
pub(crate) fn arm_of(pattern: ArmPat, value: Exp) -> Arm
    ensures { result ≡ nodes.arm_of pattern value }
{
    Arm {
        span: across(pattern.span(), value.span()),
        pattern,
        value,
    }
}

/// An expression with steps behind it.
#[tactic(auto, using(crate::proofs::Last::post_of_last))]
pub(crate) fn stepped(alloc: Global, first: Exp, steps: Items<Postfix>) -> Result<Exp, AllocError>
    ensures { IfOk result (λ e. e ≡ nodes.post_of first steps) }
{
    let Some(last) = steps.as_slice().last() else {
        return Ok(first);
    };
    let span = across(first.span(), last.span());
    Ok(Exp::Post(span, Boxed::new(alloc, first)?, steps))
}

/// An expression with a prefix before it.
pub(crate) fn prefixed(alloc: Global, token: Token, inner: Exp) -> Result<Exp, AllocError>
    ensures { IfOk result (λ e. e ≡ nodes.prefix_of token inner) }
{
    let op = match token.kind {
        Kind::Minus => PrefixOp::Negate,
        Kind::Not => PrefixOp::Not,
        _ => PrefixOp::Read,
    };
    Ok(Exp::Prefix(
        across(token.span, inner.span()),
        op,
        Boxed::new(alloc, inner)?,
    ))
}

/// An expression with the names of types behind it, each after an `as`.
#[tactic(auto, using(crate::proofs::Last::cast_of_last))]
pub(crate) fn converted(alloc: Global, inner: Exp, names: Items<Span>) -> Result<Exp, AllocError>
    ensures { IfOk result (λ e. e ≡ nodes.cast_of inner names) }
{
    let Some(last) = names.as_slice().last() else {
        return Ok(inner);
    };
    let span = across(inner.span(), *last);
    Ok(Exp::Cast(span, Boxed::new(alloc, inner)?, names))
}
