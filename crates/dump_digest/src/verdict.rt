//! The verdict on a record.
ghost use Rattle.dump_records.specs.steps.RecordViews.{record_item};
ghost use Rattle.dump_digest.specs.steps.VerdictMeaning.{IsVerdict};

use crate::content::read_content;
use dump_records::Record;
use dump_rules::Options;

/// The result of checking one record. What isn't checked is ok: in a record that is neither a revision nor a kept node
/// nothing is checked, and in a revision only the properties are.
#[derive(Clone, Copy, Debug, PartialEq, Eq)]
pub struct Verdict {
    /// Whether the properties are a property block. A node under version 3 may delete some.
    pub props_ok: bool,
    /// Whether the MD5 header, if there is one, is the digest of the text, in 32 hexadecimal digits of either case.
    /// True if there is no text length or the text is a delta.
    pub md5_ok: bool,
    /// The same of the SHA-1 header and its 40 digits.
    pub sha1_ok: bool,
    /// Whether the value of each property named `svn:mergeinfo` is mergeinfo. True if the properties can't be read.
    pub merge_ok: bool,
    /// Whether the text was compared with a digest, whatever the result.
    pub checked: bool,
}

impl Verdict {
    /// The verdict on a record in which nothing is checked.
    pub(crate) const UNASKED: Verdict = Verdict {
        props_ok: true,
        md5_ok: true,
        sha1_ok: true,
        merge_ok: true,
        checked: false,
    };
}

/// The verdict on a record under these options. Texts are read in place, and nothing is allocated.
pub fn check(item: &Record<'_>, options: &Options) -> Verdict
    ensures { IsVerdict options.now (record_item item.now) result }
{
    read_content(item, options).verdict
}
