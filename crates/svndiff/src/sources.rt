//! The old text while a delta is read.
ghost use Rattle.std.specs.Prelude.{◌≤◌, length};

/// The old text while a delta is read: the bytes from `start` to `end` are held, and those after them are unread.
#[derive(Clone, Copy)]
pub(crate) struct Source<'a> {
    base: &'a [u8],
    /// The offset of the held bytes, as windows state it.
    offset: u64,
    start: usize,
    end: usize,
    ghost ordered: { start ≤ end },
    ghost within: { end ≤ length base.now },
}

impl<'a> Source<'a> {
    ghost use Rattle.std.specs.Prelude.{◌≡◌, IfSome, [], option_map, take};
    ghost use Rattle.svndiff.specs.Svndiff.{slid};
    ghost use Rattle.svndiff.specs.steps.Readings.{source_of};

    /// An old text of which nothing was read.
    pub(crate) fn new(base: &'a [u8]) -> Source<'a>
        ensures { source_of result ≡ record { offset = 0; held = []; unread = base.now } }
    {
        Source {
            base,
            offset: 0,
            start: 0,
            end: 0,
        }
    }

    /// Slides the source view to this offset and size; `None` if it slides back, or the text ends before it.
    pub(crate) fn slid(&self, offset: u64, size: usize) -> Option<Source<'a>>
        ensures value { slid offset size (source_of self.now) ≡ option_map source_of result }
        ensures size { IfSome result (λ s. size ≤ length (source_of s).held) }
    {
        if offset < self.offset {
            return None;
        }
        let passed = offset - self.offset;
        let held = self.end - self.start;
        let start = if passed < held as u64 {
            self.start + passed as usize
        } else {
            self.end
        };
        let kept = self.end - start;
        if size > 0 && kept > size {
            return None;
        }
        let lacks = size.saturating_sub(kept);
        if lacks > self.base.len() - self.end {
            return None;
        }
        Some(Source {
            base: self.base,
            offset,
            start,
            end: self.end + lacks,
        })
    }

    /// The first so many held bytes.
    pub(crate) fn view(&self, size: usize) -> &'a [u8]
        requires { size ≤ length (source_of self.now).held }
        ensures { result.now ≡ take size (source_of self.now).held }
    {
        &self.base[self.start..self.start + size]
    }
}
