//! Types, patterns and paths, which have no height: the lengths of their tuples.

ghost use Rattle.std.specs.Prelude.{◌≡◌, map};
ghost use Rattle.hs_marks.specs.Says.{SaysNone};
ghost use Rattle.hs_limits.specs.Outline.{one, part};
ghost use Rattle.hs_limits.specs.Nodes.{ty_outline, optional_ty, node_of_ty, node_of_pat, node_of_arm_pat, node_of_path};
ghost use Rattle.hs_limits.specs.Walk.{first_in, is_limit, listed};

use hs_base::rule::Rule;
use hs_marks::{Breach, refuse_if};
use hs_syntax::{ArmPat, Pat, Path, Ty};
use sqlite_items::Items;

/// The greatest number of parts of a tuple, a constructor or a struct.
pub const PARTS: usize = 12;

/// Whether an item behind so many others is the first past the limit of its list, if it has one.
pub fn is_past(limit: Option<usize>, before: usize) -> bool
    ensures { result ≡ is_limit limit before }
{
    match limit {
        None => false,
        Some(limit) => before == limit,
    }
}

/// Looks over a type.
///
/// # Errors
///
/// The first part of a tuple past the limit.
#[cycle(ty)]
pub fn ty(ty: &Ty) -> Result<(), Breach>
    ensures { SaysNone (first_in (ty_outline ty.now)) result }
{
    match ty {
        Ty::Name(_) | Ty::Unit(_) => Ok(()),
        Ty::Tuple(_, parts) => tys(parts, Some(PARTS)),
        Ty::Applied(_, _, parts) => tys(parts, None),
    }
}

/// Looks over a list of types, with a limit on how many there are or without.
///
/// # Errors
///
/// The first type past the limit, or what is passed before in one of them.
#[cycle(ty)]
pub fn tys(tys: &Items<Ty>, limit: Option<usize>) -> Result<(), Breach>
    ensures { SaysNone (first_in (listed limit part (map node_of_ty tys.now))) result }
{
    for (index, part) in tys.as_slice().iter().enumerate() {
        ty(part)?;
        refuse_if(is_past(limit, index), Rule::S8, part.span())?;
    }
    Ok(())
}

/// Looks over a type that may be missing.
///
/// # Errors
///
/// The first part of a tuple past the limit.
pub fn optional_type(type_: &Option<Ty>) -> Result<(), Breach>
    ensures { SaysNone (first_in (optional_ty type_.now)) result }
{
    match type_ {
        None => Ok(()),
        Some(type_) => ty(type_),
    }
}

/// Looks over a pattern.
///
/// # Errors
///
/// The first part of a tuple past the limit.
#[cycle(pat)]
pub fn pat(pat: &Pat) -> Result<(), Breach>
    ensures { SaysNone (first_in (one (node_of_pat pat.now))) result }
{
    match pat {
        Pat::Name(_, _, _) | Pat::Any(_) => Ok(()),
        Pat::Tuple(_, parts) => pats(parts, Some(PARTS)),
        Pat::Struct(_, _, parts) => pats(parts, None),
    }
}

/// Looks over a list of patterns, with a limit on how many there are or without.
///
/// # Errors
///
/// The first pattern past the limit, or what is passed before in one of them.
#[cycle(pat)]
fn pats(pats: &Items<Pat>, limit: Option<usize>) -> Result<(), Breach>
    ensures { SaysNone (first_in (listed limit part (map node_of_pat pats.now))) result }
{
    for (index, part) in pats.as_slice().iter().enumerate() {
        pat(part)?;
        refuse_if(is_past(limit, index), Rule::S8, part.span())?;
    }
    Ok(())
}

/// Looks over the pattern of an arm.
///
/// # Errors
///
/// The first part of a tuple past the limit.
pub fn arm_pat(pattern: &ArmPat) -> Result<(), Breach>
    ensures { SaysNone (first_in (one (node_of_arm_pat pattern.now))) result }
{
    match pattern {
        ArmPat::Any(_) => Ok(()),
        ArmPat::Ctor(_, _, parts) | ArmPat::Member(_, _, _, parts) => pats(parts, None),
    }
}

/// Looks over a path.
///
/// # Errors
///
/// The first part of a tuple past the limit, in the type that the path has.
pub fn path(path: &Path) -> Result<(), Breach>
    ensures { SaysNone (first_in (one (node_of_path path.now))) result }
{
    match path {
        Path::Name(_) | Path::Member(_, _, _) => Ok(()),
        Path::Of(_, _, type_, _) => ty(type_),
    }
}
