//! The grammar, and the parser of it.

ghost use Rattle.hs_grammar.specs.Whole.{ParsesAll};
ghost use Rattle.hs_forms.specs.Reading.{RFile};
ghost use Rattle.hs_forms.specs.Written.{written};

use hs_forms::Token;
use hs_grammar::cursor::Tokens;
use hs_grammar::error::Refusal;
use hs_grammar::grammar::{Grammar, exact};
use hs_grammar::whole::finish;
use hs_parse_items::file;
use hs_syntax::Item;
use sqlite_items::Items;
use std::alloc::Global;

/// The grammar of the source language.
pub struct Source;

impl Grammar for Source {
    ghost use Rattle.hs_forms.specs.Lexis as l;
    ghost use Rattle.hs_forms.specs.Written as w;
    ghost use Rattle.hs_forms.specs.Reading as r;
    ghost use Rattle.hs_forms.specs.Lookahead as f;
    ghost use Rattle.hs_forms.proofs.Agree as a;

    ghost lexis = { l.lexis };

    ghost decides = { l.decides };

    ghost rules = { r.rules };

    ghost written = { w.written };

    ghost parsed = { r.grammar };

    ghost agree = { a.agree };

    ghost tables = { r.tables };

    ghost fits = { f.fits };
}

/// The items of the file that all the tokens are.
///
/// `At`: the first token with which no file goes on. `NoMemory`: want of memory. A rule refers to itself only behind a token,
/// and there are two rules that refer to others before one: so rules nest no deeper than twice the number of tokens, and
/// `TooDeep` never comes.
pub fn read(alloc: Global, tokens: &[Token]) -> Result<Items<Item>, Refusal>
    ensures { ParsesAll written RFile tokens.now result }
{
    let mut rest = Tokens::new(tokens);
    let found = file(alloc, &mut rest, 2 * tokens.len());
    exact::<Source>();
    finish(found, tokens, &rest)
}
