//! The parser of the forms above operands.

use hs_parse_exps::Rules;

/// The parser of operators, statements and blocks, over the parsers of the rules that lead back to themselves.
#[derive(Clone, Copy)]
pub struct Forms<E, U, B, I> {
    pub rules: Rules<E, U, B, I>,
}
