//! Writes header lines and property blocks, in the form that the filter gives them.
ghost use Rattle.std.specs.Prelude.{◌≡◌, ◌++◌, ◌∷◌, [], OnOk, Some, None, length};
ghost use Rattle.dump_text.specs.HeaderLine.{header_text};
ghost use Rattle.dump_text.specs.Number.{spelled_number};
ghost use Rattle.dump_text.specs.PropertyList.{block_end, entry_text, sized_text};

use crate::numbers::spell;
use crate::props::BLOCK_END;
use std::alloc::AllocError;

/// Appends the header line of a name and a number.
pub fn push_header(out: &mut Vec<u8>, name: &[u8], number: u64) -> Result<(), AllocError>
    ensures { OnOk result (out.new.items
        ≡ out.old.items ++ (header_text (record { name = name.now; value = spelled_number number }) ++ 10 ∷ [])) }
{
    out.extend_from_slice(name)?;
    out.extend_from_slice(b": ")?;
    out.extend_from_slice(spell(number).bytes())?;
    out.extend_from_slice(b"\n")
}

/// Appends a letter, the length of the bytes and the bytes themselves, as a property entry has them.
fn push_sized(out: &mut Vec<u8>, letter: &[u8], bytes: &[u8]) -> Result<(), AllocError>
    ensures { OnOk result (out.new.items
        ≡ out.old.items ++ sized_text letter.now (spelled_number (length bytes.now)) bytes.now) }
{
    out.extend_from_slice(letter)?;
    out.extend_from_slice(b" ")?;
    out.extend_from_slice(spell(bytes.len() as u64).bytes())?;
    out.extend_from_slice(b"\n")?;
    out.extend_from_slice(bytes)?;
    out.extend_from_slice(b"\n")
}

/// Appends the entry of a property.
pub fn push_property(out: &mut Vec<u8>, name: &[u8], value: &[u8]) -> Result<(), AllocError>
    ensures { OnOk result (out.new.items
        ≡ out.old.items ++ entry_text (record { name = name.now; value = Some value.now })) }
{
    push_sized(out, b"K", name)?;
    push_sized(out, b"V", value)
}

/// Appends the entry that deletes the property of this name.
pub fn push_deletion(out: &mut Vec<u8>, name: &[u8]) -> Result<(), AllocError>
    ensures { OnOk result (out.new.items ≡ out.old.items ++ entry_text (record { name = name.now; value = None })) }
{
    push_sized(out, b"D", name)
}

/// Appends the line that ends a property block.
pub fn push_block_end(out: &mut Vec<u8>) -> Result<(), AllocError>
    ensures { OnOk result (out.new.items ≡ out.old.items ++ block_end) }
{
    out.extend_from_slice(BLOCK_END)
}
