//! The rules that a source or an emitted module can break.

ghost use Rattle.std.specs.Prelude.{◌≡◌};
ghost use Rattle.hs_base.specs.Rules.{number_of, code_of, text_of};

/// A rule of HS-1 or of emitted modules, named by its code.
///
/// X: tokens. G: the grammar. N: names and items. T: types. L: moves. S: limits. M: emitted modules.
#[derive(Clone, Copy, Debug, PartialEq, Eq)]
pub enum Rule {
    /// No token begins with this byte.
    X1,
    /// This block comment is not closed.
    X2,
    /// This number has no digit.
    X3,
    /// This number's ending is not a digit of its base or a suffix.
    X4,
    /// This number is above 2^128 - 1.
    X5,
    /// This number does not fit its suffix.
    X6,
    /// This token cannot stand here outside brackets.
    G1,
    /// The file ends too early.
    G2,
    /// This token cannot stand here in ( ).
    G3,
    /// This token cannot stand here in [ ].
    G4,
    /// This token cannot stand here in { }.
    G5,
    /// This closing bracket cannot stand here.
    G6,
    /// This macro is not part of HS-1.
    G7,
    /// This word is not part of HS-1.
    G8,
    /// Unknown type.
    N1,
    /// Unknown function.
    N2,
    /// Unknown name.
    N3,
    /// Unknown constructor or type of a path.
    N4,
    /// An item has this name already, or it is a built-in name.
    N5,
    /// This parameter, pattern or constructor name occurs twice, or is a constant's name.
    N6,
    /// This item needs itself.
    N7,
    /// An array has 1 to 65,536 items, inner items counted.
    N8,
    /// A type that is copied has a part that is not.
    N9,
    /// Only a local can be assigned or lent.
    N10,
    /// An array's items are of a copied type with a zero value.
    N11,
    /// This modulus is not read.
    N12,
    /// The value has another type than the place.
    T1,
    /// The operator is not defined for this type.
    T2,
    /// The number does not fit its type.
    T3,
    /// `as` goes from a public integer to a public integer.
    T4,
    /// An index is a usize.
    T5,
    /// Only a sequence or an array is indexed.
    T6,
    /// The tuple has no such part.
    T7,
    /// Wrong number of arguments.
    T8,
    /// Wrong mode of argument.
    T9,
    /// This local cannot be lent here.
    T10,
    /// This local is not mut.
    T11,
    /// `*` belongs to a reference parameter read as a value.
    T12,
    /// A condition is a bool.
    T13,
    /// The branches have different types.
    T14,
    /// An if without else gives unit.
    T15,
    /// This type has no such constructor.
    T16,
    /// The match lacks a constructor.
    T17,
    /// This arm is never reached.
    T18,
    /// A loop's variable is not assigned.
    T19,
    /// A loop's bound is a usize.
    T20,
    /// This statement or loop body gives unit.
    T21,
    /// `?` needs a Result with the function's error type.
    T22,
    /// The returned value has another type than the function.
    T23,
    /// This type has no such operation.
    T24,
    /// Nothing follows what always exits.
    T25,
    /// This type has no zero value.
    T26,
    /// Values with secret parts are not compared.
    T27,
    /// A list stands in its array's constructor with its length.
    T28,
    /// A constant is made of literals, constants and constructors.
    T29,
    /// The pattern does not fit the type.
    T30,
    /// This local may hold no value.
    L1,
    /// The lent local may hold no value.
    L2,
    /// A loop's body takes this local's value and may not give it back.
    L3,
    /// A value that is not copied is taken out of an item or a part.
    L4,
    /// A part of a local without a value is assigned.
    L5,
    /// A value that is not copied is taken through a reference.
    L6,
    /// Limit passed: file bytes.
    S1,
    /// Limit passed: nesting.
    S2,
    /// Limit passed: functions.
    S3,
    /// Limit passed: parameters.
    S4,
    /// Limit passed: locals.
    S5,
    /// Limit passed: statements.
    S6,
    /// Limit passed: exits.
    S7,
    /// Limit passed: parts.
    S8,
    /// Limit passed: name bytes.
    S9,
    /// Not a module of the dialect.
    M1,
    /// A name is not defined before its use.
    M2,
    /// A name is defined twice.
    M3,
    /// Wrong number of arguments, parts or arms.
    M4,
}

// What a rule is told by.
#[derive(Clone, Copy)]
struct Row {
    number: u32,
    code: &'static str,
    text: &'static str,
}

impl Row {
    const fn new(number: u32, code: &'static str, text: &'static str) -> Row
        ensures number { result.number ≡ number }
        ensures code { result.code.now ≡ code.now }
        ensures text { result.text.now ≡ text.now }
    {
        Row { number, code, text }
    }
}

impl Rule {
    /// The place of the rule among the 75 rules, from 1.
    pub fn number(&self) -> u32
        ensures { result ≡ number_of self.now }
    {
        self.row().number
    }

    /// The code of the rule: a letter and a number, as in the variant's name.
    pub fn code(&self) -> &'static str
        ensures { result.now ≡ code_of self.now }
    {
        self.row().code
    }

    /// What the rule says, without a full stop.
    pub fn text(&self) -> &'static str
        ensures { result.now ≡ text_of self.now }
    {
        self.row().text
    }

    // The table of the rules.
    fn row(&self) -> Row
        ensures number { result.number ≡ number_of self.now }
        ensures code { result.code.now ≡ code_of self.now }
        ensures text { result.text.now ≡ text_of self.now }
    {
        match self {
            Rule::X1 => Row::new(1, "X1", "no token begins with this byte"),
            Rule::X2 => Row::new(2, "X2", "this block comment is not closed"),
            Rule::X3 => Row::new(3, "X3", "this number has no digit"),
            Rule::X4 => Row::new(
                4,
                "X4",
                "this number's ending is not a digit of its base or a suffix",
            ),
            Rule::X5 => Row::new(5, "X5", "this number is above 2^128 - 1"),
            Rule::X6 => Row::new(6, "X6", "this number does not fit its suffix"),
            Rule::G1 => Row::new(7, "G1", "this token cannot stand here outside brackets"),
            Rule::G2 => Row::new(8, "G2", "the file ends too early"),
            Rule::G3 => Row::new(9, "G3", "this token cannot stand here in ( )"),
            Rule::G4 => Row::new(10, "G4", "this token cannot stand here in [ ]"),
            Rule::G5 => Row::new(11, "G5", "this token cannot stand here in { }"),
            Rule::G6 => Row::new(12, "G6", "this closing bracket cannot stand here"),
            Rule::G7 => Row::new(13, "G7", "this macro is not part of HS-1"),
            Rule::G8 => Row::new(14, "G8", "this word is not part of HS-1"),
            Rule::N1 => Row::new(15, "N1", "unknown type"),
            Rule::N2 => Row::new(16, "N2", "unknown function"),
            Rule::N3 => Row::new(17, "N3", "unknown name"),
            Rule::N4 => Row::new(18, "N4", "unknown constructor or type of a path"),
            Rule::N5 => Row::new(
                19,
                "N5",
                "an item has this name already, or it is a built-in name",
            ),
            Rule::N6 => Row::new(
                20,
                "N6",
                "this parameter, pattern or constructor name occurs twice, or is a constant's name",
            ),
            Rule::N7 => Row::new(21, "N7", "this item needs itself"),
            Rule::N8 => Row::new(
                22,
                "N8",
                "an array has 1 to 65,536 items, inner items counted",
            ),
            Rule::N9 => Row::new(23, "N9", "a type that is copied has a part that is not"),
            Rule::N10 => Row::new(24, "N10", "only a local can be assigned or lent"),
            Rule::N11 => Row::new(
                25,
                "N11",
                "an array's items are of a copied type with a zero value",
            ),
            Rule::N12 => Row::new(26, "N12", "this modulus is not read"),
            Rule::T1 => Row::new(27, "T1", "the value has another type than the place"),
            Rule::T2 => Row::new(28, "T2", "the operator is not defined for this type"),
            Rule::T3 => Row::new(29, "T3", "the number does not fit its type"),
            Rule::T4 => Row::new(
                30,
                "T4",
                "`as` goes from a public integer to a public integer",
            ),
            Rule::T5 => Row::new(31, "T5", "an index is a usize"),
            Rule::T6 => Row::new(32, "T6", "only a sequence or an array is indexed"),
            Rule::T7 => Row::new(33, "T7", "the tuple has no such part"),
            Rule::T8 => Row::new(34, "T8", "wrong number of arguments"),
            Rule::T9 => Row::new(35, "T9", "wrong mode of argument"),
            Rule::T10 => Row::new(36, "T10", "this local cannot be lent here"),
            Rule::T11 => Row::new(37, "T11", "this local is not mut"),
            Rule::T12 => Row::new(
                38,
                "T12",
                "`*` belongs to a reference parameter read as a value",
            ),
            Rule::T13 => Row::new(39, "T13", "a condition is a bool"),
            Rule::T14 => Row::new(40, "T14", "the branches have different types"),
            Rule::T15 => Row::new(41, "T15", "an if without else gives unit"),
            Rule::T16 => Row::new(42, "T16", "this type has no such constructor"),
            Rule::T17 => Row::new(43, "T17", "the match lacks a constructor"),
            Rule::T18 => Row::new(44, "T18", "this arm is never reached"),
            Rule::T19 => Row::new(45, "T19", "a loop's variable is not assigned"),
            Rule::T20 => Row::new(46, "T20", "a loop's bound is a usize"),
            Rule::T21 => Row::new(47, "T21", "this statement or loop body gives unit"),
            Rule::T22 => Row::new(
                48,
                "T22",
                "`?` needs a Result with the function's error type",
            ),
            Rule::T23 => Row::new(
                49,
                "T23",
                "the returned value has another type than the function",
            ),
            Rule::T24 => Row::new(50, "T24", "this type has no such operation"),
            Rule::T25 => Row::new(51, "T25", "nothing follows what always exits"),
            Rule::T26 => Row::new(52, "T26", "this type has no zero value"),
            Rule::T27 => Row::new(53, "T27", "values with secret parts are not compared"),
            Rule::T28 => Row::new(
                54,
                "T28",
                "a list stands in its array's constructor with its length",
            ),
            Rule::T29 => Row::new(
                55,
                "T29",
                "a constant is made of literals, constants and constructors",
            ),
            Rule::T30 => Row::new(56, "T30", "the pattern does not fit the type"),
            Rule::L1 => Row::new(57, "L1", "this local may hold no value"),
            Rule::L2 => Row::new(58, "L2", "the lent local may hold no value"),
            Rule::L3 => Row::new(
                59,
                "L3",
                "a loop's body takes this local's value and may not give it back",
            ),
            Rule::L4 => Row::new(
                60,
                "L4",
                "a value that is not copied is taken out of an item or a part",
            ),
            Rule::L5 => Row::new(61, "L5", "a part of a local without a value is assigned"),
            Rule::L6 => Row::new(
                62,
                "L6",
                "a value that is not copied is taken through a reference",
            ),
            Rule::S1 => Row::new(63, "S1", "limit passed: file bytes"),
            Rule::S2 => Row::new(64, "S2", "limit passed: nesting"),
            Rule::S3 => Row::new(65, "S3", "limit passed: functions"),
            Rule::S4 => Row::new(66, "S4", "limit passed: parameters"),
            Rule::S5 => Row::new(67, "S5", "limit passed: locals"),
            Rule::S6 => Row::new(68, "S6", "limit passed: statements"),
            Rule::S7 => Row::new(69, "S7", "limit passed: exits"),
            Rule::S8 => Row::new(70, "S8", "limit passed: parts"),
            Rule::S9 => Row::new(71, "S9", "limit passed: name bytes"),
            Rule::M1 => Row::new(72, "M1", "not a module of the dialect"),
            Rule::M2 => Row::new(73, "M2", "a name is not defined before its use"),
            Rule::M3 => Row::new(74, "M3", "a name is defined twice"),
            Rule::M4 => Row::new(75, "M4", "wrong number of arguments, parts or arms"),
        }
    }
}
