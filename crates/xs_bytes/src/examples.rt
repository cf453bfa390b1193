//! Examples of the definitions, with expected values from outside.
ghost use Rattle.xs_bytes.specs.Examples.{Numbers, Maps};

/// Decimal numbers in text.
pub fn numbers()
    ensures { Numbers }
{}

/// Maps as values.
pub fn maps()
    ensures { Maps }
{}
