//! Says what an input is that doesn't begin as a dump.

/// The line with which a dump of Subversion begins, up to its number.
const FIRST: &[u8] = b"SVN-fs-dump-format-version: ";

/// With what compressed data begins, as gzip, bzip2, xz, zstd and zip write it.
const COMPRESSED: [&[u8]; 5] = [
    b"\x1f\x8b",
    b"BZh",
    b"\xfd7zXZ\x00",
    b"\x28\xb5\x2f\xfd",
    b"PK\x03\x04",
];

/// Whether the input begins as a dump does, as far as it goes. Line feeds before the first record are skipped.
fn begins_dump(input: &[u8]) -> bool {
    let record = match input.iter().position(|byte| *byte != b'\n') {
        Some(place) => &input[place..],
        None => b"",
    };
    record.starts_with(FIRST) || FIRST.starts_with(record)
}

/// What is wrong with an input whose first record can't be read, if it isn't the record.
pub fn input_text(input: &[u8]) -> Option<&'static str> {
    if input.is_empty() {
        return Some("the input is empty");
    }
    for start in &COMPRESSED {
        if input.starts_with(start) {
            return Some("the input is compressed: it has to be decompressed first");
        }
    }
    if begins_dump(input) {
        return None;
    }
    Some("the input is no dump: it does not begin with SVN-fs-dump-format-version")
}
