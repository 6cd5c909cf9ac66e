//! What is sure of the types of a file whose items declare this.

ghost use Rattle.std.specs.Prelude.{ℕ, ◌≡◌, true, List, [], length};
ghost use Rattle.hs_syntax.specs.declared.file.File.{File};
ghost use Rattle.hs_syntax.specs.declared.ty.Ty.{Ty};
ghost use Rattle.hs_syntax.specs.WellFormed.{well_ty};
ghost use Rattle.hs_limits.specs.Breaks as limits;
ghost use Rattle.hs_limits.specs.Nodes.{ty_outline};
ghost use Rattle.hs_marks.specs.Marked.{marks};
ghost use Rattle.hs_values.specs.declared.types.TypeDef.{TypeDef};
ghost use Rattle.hs_items.specs.declared.decls.Decls.{Decls};
ghost use Rattle.hs_items.specs.declared.decls.Declaration.{Declaration};
ghost use Rattle.hs_items.specs.Meaning as m;
ghost use Rattle.hs_items.specs.Marks.{written};
ghost use Rattle.hs_items.specs.Declares as e;
ghost use Rattle.hs_items.specs.Walk.{stands_in};
ghost use Rattle.hs_items.specs.Promises as p;
ghost use Rattle.hs_items.specs.Sizes as z;

/// What a written type means, by what the items of its file declare. Nothing runs: the clauses are what is proved.
///
/// - `below`: its names are those of entries of the table, where those of the declarations are.
/// - `made`: its tuples have 2 to 12 parts, where it is well formed and passes no limit.
/// - `fits`: it is no higher than 48 and has no more than 4,096 nodes, where it breaks no rule.
pub fn written_types_are_sure()
    ensures below { (file : File) (items : List Declaration) (table : List TypeDef) (t : Ty) → e.NamesEntries table items → e.below (length table) (m.meaning file (stands_in items) t) ≡ true }
    ensures made { (file : File) (order : List ℕ) (decls : Decls) (t : Ty) (depth : ℕ) → p.IsReadWell file → e.AreDecls file order decls → well_ty file.text t ≡ true → marks (limits.marked (ty_outline t)) depth ≡ [] → p.well_made true (length decls.table) (m.meaning file (stands_in decls.items) t) ≡ true }
    ensures fits { (file : File) (order : List ℕ) (decls : Decls) (t : Ty) (depth : ℕ) → e.AreDecls file order decls → marks (written file order t).nodes depth ≡ [] → p.fits_limits decls.table (m.meaning file (stands_in decls.items) t) ≡ true }
{}

/// What holds of a type with all names expanded, by the entries of a table. Nothing runs: the clauses are what is proved.
///
/// - `heights`, `copies`: its height and whether it is copied are found without expanding names.
/// - `entries`: an entry expands to what its definition says.
/// - `limits`: a type within the limits is no higher than 48.
/// - `fits`: a type with a name is no higher than 49, where the parts of the table's types are within the limits.
pub fn sizes_agree()
    ensures heights { z.HeightsAgree }
    ensures copies { z.CopiesAgree }
    ensures entries { z.EntriesExpand }
    ensures limits { z.LimitsAgree }
    ensures fits { z.EntriesFit }
{}
