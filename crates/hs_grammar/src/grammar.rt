//! Grammars.

ghost use Rattle.std.specs.Prelude.{◌≡◌, ℕ, ◌+◌, ◌*◌, ◌<◌, ◌≤◌, List, [], ◌++◌, length, Result};
ghost use Rattle.hs_grammar.specs.Form.{Lexis, Rules, Grammar as GrammarOf};
ghost use Rattle.hs_grammar.specs.Kinds.{Decides};
ghost use Rattle.hs_grammar.specs.Derives.{DerivesBy, DerivesAs, IsBegun};
ghost use Rattle.hs_grammar.specs.Break.{Breaks};
ghost use Rattle.hs_grammar.specs.Lookahead.{Tables, FitsRule};
ghost use Rattle.hs_grammar.specs.Parser.{parse_by, Exact, Done};
ghost use Rattle.hs_grammar.specs.Same.{SameGrammars};
ghost use Rattle.hs_grammar.specs.Depth.{Ranked};
ghost use Rattle.hs_grammar.specs.Whole.{Finishes, ParseBreak, Parses, ParsesAll, Only};
ghost use Rattle.hs_grammar.specs.declared.error.Refusal as refusal;

/// A grammar that one token of lookahead reads.
pub trait Grammar {
    /// The tokens and their kinds.
    ghost lexis: { Lexis };

    /// The test of kinds is exact.
    ghost decides: { Decides lexis };

    /// The names of the rules, and what each gives.
    ghost rules: { Rules };

    /// The grammar as it is written.
    ghost written: { GrammarOf lexis rules };

    /// The grammar as it is read.
    ghost parsed: { GrammarOf lexis rules };

    /// Both derive the same, and are begun by the same.
    ghost agree: { SameGrammars written parsed };

    /// What is said of each rule.
    ghost tables: { Tables lexis rules };

    /// One token of lookahead is enough for each rule.
    ghost fits: { (N : rules.rule) → FitsRule tables parsed N };
}

/// The parser of a grammar is exact.
///
/// - `agrees`: what the grammar as it is written derives, that as it is read derives too.
/// - `parses_all`: where rules have ranks that fall until a token is read, tokens are read within a depth that their number bounds.
/// - `farther`: where a front of the tokens breaks before its end, the whole breaks there.
pub fn exact<G: Grammar>()
    ensures answers { (n : ℕ) (N : G.rules.rule) (w : List G.lexis.token) → Exact G.written N w (parse_by G.tables G.parsed n N w) }
    ensures found { (m n : ℕ) (N : G.rules.rule) (w : List G.lexis.token) (x : G.rules.value N) → m ≤ n → DerivesBy G.written m N w x → parse_by G.tables G.parsed n N w ≡ Done x [] }
    ensures unique { (N : G.rules.rule) (w : List G.lexis.token) (x y : G.rules.value N) → DerivesAs G.written N w x → DerivesAs G.written N w y → x ≡ y }
    ensures apart { (N : G.rules.rule) (w rest : List G.lexis.token) (x : G.rules.value N) → Breaks G.written N w rest → ¬ DerivesAs G.written N w x }
    ensures parses { (n : ℕ) (N : G.rules.rule) (w : List G.lexis.token) (r : Result (G.rules.value N) refusal.Refusal) → Finishes (parse_by G.tables G.parsed n N w) w r → Parses G.written N n w r }
    ensures only { (n : ℕ) (N : G.rules.rule) (w : List G.lexis.token) (x : G.rules.value N) (r : Result (G.rules.value N) refusal.Refusal) → DerivesAs G.written N w x → Parses G.written N n w r → Only x r }
    ensures agrees { (N : G.rules.rule) (w : List G.lexis.token) (x : G.rules.value N) → DerivesAs G.written N w x → DerivesAs G.parsed N w x }
    ensures begun { (N : G.rules.rule) (w : List G.lexis.token) (x : G.rules.value N) → DerivesAs G.written N w x → IsBegun G.written N w }
    ensures farther { (N : G.rules.rule) (w more : List G.lexis.token) (place : ℕ) → place < length w → ParseBreak G.written N w place → ParseBreak G.written N (w ++ more) place }
    ensures parses_all { (rank : G.rules.rule → ℕ) (ranks : ℕ) → Ranked G.tables G.parsed rank ranks → (n : ℕ) (N : G.rules.rule) (w : List G.lexis.token) (r : Result (G.rules.value N) refusal.Refusal) → rank N + ranks * length w < n → Finishes (parse_by G.tables G.parsed n N w) w r → ParsesAll G.written N w r }
{}
