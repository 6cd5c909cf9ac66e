//! What the next token can begin.

ghost use Rattle.std.specs.Prelude.{◌≡◌};
ghost use Rattle.hs_grammar.specs.Kinds.{starts};
ghost use Rattle.hs_grammar.specs.Lookahead.{begin};
ghost use Rattle.hs_forms.specs.Lexis.{lexis};
ghost use Rattle.hs_forms.specs.Reading as g;

use hs_forms::{Kind, Token, is_at_name};
use hs_grammar::cursor::Tokens;

/// The kinds, but for names, that an expression can begin with.
const EXPRESSION_KINDS: [Kind; 11] = [
    Kind::Minus,
    Kind::Not,
    Kind::Star,
    Kind::Int,
    Kind::Digits,
    Kind::True,
    Kind::False,
    Kind::LeftParenthesis,
    Kind::If,
    Kind::Match,
    Kind::LeftBrace,
];

/// Whether an expression can begin with the next token.
#[tactic(auto, using(crate::proofs::Starts::starts_append))]
pub(crate) fn is_at_expression(tokens: &Tokens<'_, Token>) -> bool
    ensures { result ≡ starts lexis (begin g.tables g.expression) tokens.now }
{
    tokens.is_at_any(&EXPRESSION_KINDS) || is_at_name(tokens)
}

/// Whether an argument can begin with the next token.
#[tactic(auto, using(crate::proofs::Starts::starts_append), unfolding(hs_forms::specs::Reading::arg_form, hs_forms::specs::Reading::lent_arg, hs_forms::specs::Reading::list_arg))]
pub(crate) fn is_at_arg(tokens: &Tokens<'_, Token>) -> bool
    ensures { result ≡ starts lexis (begin g.tables g.arg_form) tokens.now }
{
    tokens.is_at_any(&[Kind::And, Kind::LeftBracket]) || is_at_expression(tokens)
}
