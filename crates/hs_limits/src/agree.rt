//! The bytes of nodes.

ghost use Rattle.hs_limits.specs.Spans.{SpansAgree};

/// The node of a type, a pattern, an expression, an `if`, what stands behind `else`, a step, a block or a statement has the
/// bytes that it stands for, and that of an operator those of its right operand. Nothing runs: the clause is what is proved.
pub fn spans_agree()
    ensures { SpansAgree }
{}
