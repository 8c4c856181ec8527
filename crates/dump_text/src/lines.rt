//! The header lines of a block, one after another.
ghost use Rattle.std.specs.Prelude.{◌≡◌, ◌++◌, codes};
ghost use Rattle.dump_text.specs.steps.ReadHeaders.{AreHeaderLines};

use crate::scan::{first_line, name_and_value};

/// A header line: its name, its value, and the whole line without LF, each a part of the dump.
#[derive(Clone, Copy)]
pub struct Line<'a> {
    pub name: &'a [u8],
    pub value: &'a [u8],
    pub whole: &'a [u8],
    pub ghost spelled: { whole.now ≡ name.now ++ codes ": " ++ value.now },
}

/// The lines of a block, in their order.
#[derive(Drop)]
pub struct Lines<'a> {
    pub(crate) rest: &'a [u8],
    pub ghost lines: { AreHeaderLines rest.now },
}

impl<'a> Iterator for Lines<'a> {
    ghost use Rattle.std.specs.Iterator.{item_count};
    ghost use Rattle.dump_text.specs.steps.Views.{LineStep, lines_left};

    type Item = Line<'a>;

    ghost next_gives = { LineStep };

    ghost remaining = { item_count lines_left };

    fn next(&mut self) -> Option<Line<'a>> {
        let Some((whole, rest)) = first_line(self.rest) else {
            return None;
        };
        let Some((name, value)) = name_and_value(whole) else {
            unreachable!()
        };
        self.rest = rest;
        Some(Line { name, value, whole })
    }
}
