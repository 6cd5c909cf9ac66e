//! A law of control values. The function here does nothing: a caller has its clause.

ghost use Rattle.std.specs.Prelude.{◌≡◌, Some};
ghost use Rattle.hs_values.specs.declared.value.Value.{Value};
ghost use Rattle.hs_control.specs.Control.{settled, val_of};

/// A value of a source is the one value of a source that it is where values may be control values.
pub fn sources_values_settle()
    ensures { (v : Value) → settled (val_of v) ≡ Some v }
{}
