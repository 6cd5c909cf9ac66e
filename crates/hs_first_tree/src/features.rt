//! Features of trees, which a type switches on or off.

ghost use Rattle.std.specs.Prelude.{◌≡◌, Bool, true, false, refl, map};
ghost use Rattle.hs_first_tree.specs.Features.{stage_of, switches, stages};

/// The type of a node's mark where its feature is on.
#[derive(Clone, Copy, Debug, PartialEq, Eq)]
pub enum On {
    Here,
}

/// The type of a node's mark where its feature is off. It has no value, so no such node can be made.
#[derive(Clone, Copy)]
pub enum Off {}

/// A feature that is on or off. A value of the type exists only where it is on.
pub trait Switch: Copy {
    ghost on: { Bool };

    /// Whether the feature is on.
    fn holds() -> bool
        ensures { result ≡ on };

    ghost inhabited: { (x : Self) → on ≡ true };
}

impl Switch for On {
    ghost on = { true };

    ghost inhabited = { λ x. refl };

    fn holds() -> bool {
        true
    }
}

impl Switch for Off {
    ghost on = { false };

    ghost inhabited = { λ x. elim x [ ] };

    fn holds() -> bool {
        false
    }
}

/// A set of features: which nodes a tree may have.
pub trait Features {
    /// Assignments to a part of a local.
    type Place: Switch;
    /// A right side inside an expression.
    type Nested: Switch;
    /// `?`.
    type Quest: Switch;
    /// Mutable parameters, and calls that lend to them.
    type MutArg: Switch;
    /// `return`.
    type Exit: Switch;
    /// Assignments.
    type Assign: Switch;
    /// Loops.
    type Loop: Switch;
    /// Control values.
    type Cf: Switch;
    /// Loops that carry a value along.
    type Acc: Switch;
    /// Folds.
    type Fold: Switch;
}

/// The features of a source.
pub struct Src;

/// The features once no part of a local is assigned.
pub struct NoPlace;

/// The features once no right side is inside an expression.
pub struct Flat;

/// The features once there is no `?`.
pub struct NoQuest;

/// The features once there are no mutable parameters.
pub struct NoMutArg;

/// The features once there is no `return`, but control values.
pub struct NoExit;

/// The features once nothing is assigned, and loops carry values along.
pub struct NoAssign;

/// The features once there are no loops, but folds.
pub struct NoLoop;

impl Features for Src {
    type Place = On;

    type Nested = On;

    type Quest = On;

    type MutArg = On;

    type Exit = On;

    type Assign = On;

    type Loop = On;

    type Cf = Off;

    type Acc = Off;

    type Fold = Off;
}

impl Features for NoPlace {
    type Place = Off;

    type Nested = On;

    type Quest = On;

    type MutArg = On;

    type Exit = On;

    type Assign = On;

    type Loop = On;

    type Cf = Off;

    type Acc = Off;

    type Fold = Off;
}

impl Features for Flat {
    type Place = Off;

    type Nested = Off;

    type Quest = On;

    type MutArg = On;

    type Exit = On;

    type Assign = On;

    type Loop = On;

    type Cf = Off;

    type Acc = Off;

    type Fold = Off;
}

impl Features for NoQuest {
    type Place = Off;

    type Nested = Off;

    type Quest = Off;

    type MutArg = On;

    type Exit = On;

    type Assign = On;

    type Loop = On;

    type Cf = Off;

    type Acc = Off;

    type Fold = Off;
}

impl Features for NoMutArg {
    type Place = Off;

    type Nested = Off;

    type Quest = Off;

    type MutArg = Off;

    type Exit = On;

    type Assign = On;

    type Loop = On;

    type Cf = Off;

    type Acc = Off;

    type Fold = Off;
}

impl Features for NoExit {
    type Place = Off;

    type Nested = Off;

    type Quest = Off;

    type MutArg = Off;

    type Exit = Off;

    type Assign = On;

    type Loop = On;

    type Cf = On;

    type Acc = Off;

    type Fold = Off;
}

impl Features for NoAssign {
    type Place = Off;

    type Nested = Off;

    type Quest = Off;

    type MutArg = Off;

    type Exit = Off;

    type Assign = Off;

    type Loop = On;

    type Cf = On;

    type Acc = On;

    type Fold = Off;
}

impl Features for NoLoop {
    type Place = Off;

    type Nested = Off;

    type Quest = Off;

    type MutArg = Off;

    type Exit = Off;

    type Assign = Off;

    type Loop = Off;

    type Cf = On;

    type Acc = Off;

    type Fold = On;
}

/// Which features a set has, in the order of the trait's types.
pub fn switches<F: Features>() -> [bool; 10]
    ensures { result ≡ switches (stage_of F.Place.on F.Nested.on F.Quest.on F.MutArg.on F.Exit.on F.Assign.on F.Loop.on F.Cf.on F.Acc.on F.Fold.on) }
{
    [
        F::Place::holds(),
        F::Nested::holds(),
        F::Quest::holds(),
        F::MutArg::holds(),
        F::Exit::holds(),
        F::Assign::holds(),
        F::Loop::holds(),
        F::Cf::holds(),
        F::Acc::holds(),
        F::Fold::holds(),
    ]
}

/// Which features the trees of each stage may have, from the source on: those that the stage has by its definition.
pub fn features_of_stages() -> [[bool; 10]; 8]
    ensures { result ≡ map switches stages }
{
    [
        switches::<Src>(),
        switches::<NoPlace>(),
        switches::<Flat>(),
        switches::<NoQuest>(),
        switches::<NoMutArg>(),
        switches::<NoExit>(),
        switches::<NoAssign>(),
        switches::<NoLoop>(),
    ]
}
