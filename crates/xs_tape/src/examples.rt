//! Examples of the definitions, with expected values from outside.
#![tactic(auto, unfolding(crate::specs::Checksum::crc32c, crate::specs::Checksum::with_byte))]

ghost use Rattle.xs_tape.specs.ExamplesChecksum.{Checksums};

/// CRC-32C.
pub fn checksums()
    ensures { Checksums }
{}
