//! The text of a record.

/// The text of a record, with the digests that its lines give, in hexadecimal. All are slices of the dump.
#[derive(Clone, Copy, Debug, PartialEq, Eq)]
pub struct NodeText<'a> {
    pub text: &'a [u8],
    pub md5: Option<&'a [u8]>,
    pub sha1: Option<&'a [u8]>,
}
