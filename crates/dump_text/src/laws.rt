//! Laws of reading and writing. Each law is the contract of a function that does nothing.
ghost use Rattle.dump_text.specs.WritingLaws.{BlocksAreReadAsWritten, PropertiesAreReadAsWritten};

/// A written block of lines is read as the same lines, and as no others.
pub fn blocks_are_read_as_written()
    ensures { BlocksAreReadAsWritten }
{}

/// A written property block is read as the same properties, and as no others, if no length in it reaches 10^18.
pub fn properties_are_read_as_written()
    ensures { PropertiesAreReadAsWritten }
{}
