//! What the definitions say of small files.

ghost use Rattle.std.specs.Prelude.{◌≡◌, [], ◌∷◌};
ghost use Rattle.hs_base.specs.declared.rule.Rule.TheVariants as rule;
ghost use Rattle.hs_marks.specs.Marked.{mark};
ghost use Rattle.hs_items.specs.Marks.{broken};
ghost use Rattle.hs_items.specs.Meaning.{known};
ghost use Rattle.hs_items.specs.Rows as row;

/// What the definitions say of small files. Nothing runs: the clauses are what is proved.
///
/// - `chain_keeps_all`, `chain_has_table`: `struct S(T); struct T(u8);` breaks no rule, T has number 0 and S number 1.
/// - `moved_part_is_broken`: `#[derive(Copy)] struct S((u8, Seq<u8>));` breaks N9, and nothing else.
/// - `lent_declares`: of `fn f(x: &mut A) -> bool { 1 } type A = U8;` a call gives a secret byte and a truth value.
pub fn small_files()
    ensures chain_keeps_all { broken row.chain (1 ∷ 0 ∷ []) ≡ [] }
    ensures chain_has_table { (known row.chain (1 ∷ 0 ∷ [])).table ≡ row.chain_table }
    ensures moved_part_is_broken { broken row.moved_part (0 ∷ []) ≡ mark (row.between 0 40) 0 rule.N9 ∷ [] }
    ensures lent_declares { (known row.lent (1 ∷ 0 ∷ [])).declares 0 ≡ row.lent_declares }
{}
