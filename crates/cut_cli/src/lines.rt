//! The lines on standard error. Errors in writing them are ignored, because there is nowhere to report them.
use crate::words::Call;
use std::io::{self, Write};

/// How many lines of a list are written without `--verbose`.
const SHOWN: usize = 10;

/// Writes a text without its control characters; a byte that isn't UTF-8 is written as a number.
pub fn write_seen<E: Write>(errors: &mut E, text: &[u8]) -> io::Result<()> {
    for chunk in text.utf8_chunks() {
        for letter in chunk.valid().chars() {
            if letter.is_control() {
                write!(errors, "\\x{:02x}", u32::from(letter))?;
            } else {
                write!(errors, "{letter}")?;
            }
        }
        for byte in chunk.invalid() {
            write!(errors, "\\x{byte:02x}")?;
        }
    }
    Ok(())
}

/// Writes a path with a slash before it.
pub fn write_path<E: Write>(errors: &mut E, path: &[u8]) -> io::Result<()> {
    write!(errors, "/")?;
    write_seen(errors, path)
}

/// Writes the line of a path in a list.
pub fn write_path_line<E: Write>(errors: &mut E, path: &[u8]) -> io::Result<()> {
    write!(errors, "  ")?;
    write_path(errors, path)?;
    writeln!(errors, "")
}

/// Writes a path below another one.
pub fn write_joined<E: Write>(errors: &mut E, top: &[u8], rest: &[u8]) -> io::Result<()> {
    write_path(errors, top)?;
    if !top.is_empty() && !rest.is_empty() {
        write!(errors, "/")?;
    }
    write_seen(errors, rest)
}

/// Writes a count, with commas between groups of three digits.
pub fn write_grouped<E: Write>(errors: &mut E, count: usize) -> io::Result<()> {
    let (millions, thousands, ones) = (count / 1_000_000, count / 1000 % 1000, count % 1000);
    if millions >= 1000 {
        let (billions, millions) = (millions / 1000, millions % 1000);
        write!(errors, "{billions},{millions:03},{thousands:03},{ones:03}")
    } else if millions > 0 {
        write!(errors, "{millions},{thousands:03},{ones:03}")
    } else if thousands > 0 {
        write!(errors, "{thousands},{ones:03}")
    } else {
        write!(errors, "{ones}")
    }
}

/// Writes a count, and the name of what is counted.
pub fn write_count<E: Write>(errors: &mut E, count: usize, what: &str) -> io::Result<()> {
    write_grouped(errors, count)?;
    let plural = if count == 1 { "" } else { "s" };
    write!(errors, " {what}{plural}")
}

/// Writes how many lines of a list are omitted, if any.
pub fn write_rest<E: Write>(errors: &mut E, all: usize, shown: usize) -> io::Result<()> {
    if all > shown {
        write!(errors, "  and ")?;
        write_grouped(errors, all - shown)?;
        writeln!(errors, " more (--verbose lists all)")?;
    }
    Ok(())
}

/// How many lines of a list the call shows.
pub fn shown(call: &Call<'_>) -> usize {
    if call.verbose { usize::MAX } else { SHOWN }
}

/// Writes the path that a prefix means, if the prefix isn't in canonical form.
pub fn write_spelling<E: Write>(errors: &mut E, prefix: &[u8], path: &[u8]) -> io::Result<()> {
    write!(errors, "prefix '")?;
    write_seen(errors, prefix)?;
    write!(errors, "' means ")?;
    write_path(errors, path)?;
    writeln!(errors, "")
}

/// Warns that a load renumbers the first revision of the dump.
pub fn write_first<E: Write>(errors: &mut E, first: u64) -> io::Result<()> {
    writeln!(
        errors,
        "svndumpcut: warning: the dump begins at r{first}, which svnadmin load makes r1"
    )
}

/// Lists the paths of prefixes that are inside other prefixes.
pub fn write_nested<E: Write>(errors: &mut E, call: &Call<'_>, paths: &[&[u8]]) -> io::Result<()> {
    let most = shown(call);
    for path in paths.iter().take(most) {
        write!(errors, "prefix ")?;
        write_path(errors, path)?;
        writeln!(errors, " is inside another prefix")?;
    }
    write_rest(errors, paths.len(), most)
}

/// Says that nothing is written, since these paths of prefixes are in no revision.
pub fn write_missing<E: Write>(errors: &mut E, call: &Call<'_>, paths: &[&[u8]]) -> io::Result<()> {
    write!(
        errors,
        "svndumpcut: nothing written: prefixes that no revision has: "
    )?;
    write_grouped(errors, paths.len())?;
    writeln!(errors, "")?;
    if call.quiet {
        return Ok(());
    }
    for path in paths {
        write_path_line(errors, path)?;
    }
    writeln!(errors, "use --allow-missing if this is intended")
}

/// Warns of prefixes whose paths are in no revision.
pub fn write_unused<E: Write>(errors: &mut E, call: &Call<'_>, paths: &[&[u8]]) -> io::Result<()> {
    let most = shown(call);
    for path in paths.iter().take(most) {
        write!(errors, "svndumpcut: warning: no revision has ")?;
        write_path(errors, path)?;
        writeln!(errors, "")?;
    }
    write_rest(errors, paths.len(), most)
}

/// Lists the excluded siblings of included paths, if there are any.
pub fn write_siblings<E: Write>(errors: &mut E, paths: &[&[u8]]) -> io::Result<()> {
    if paths.is_empty() {
        return Ok(());
    }
    write!(errors, "other excluded paths: ")?;
    write_grouped(errors, paths.len())?;
    writeln!(errors, "")?;
    for path in paths {
        write_path_line(errors, path)?;
    }
    Ok(())
}

/// Warns that a parent of a prefix is a file in this revision.
pub fn write_file_parent<E: Write>(errors: &mut E, path: &[u8], revision: u64) -> io::Result<()> {
    write!(errors, "svndumpcut: warning: ")?;
    write_path(errors, path)?;
    writeln!(
        errors,
        " is a file in r{revision}: it is kept with its content, as a parent of a prefix"
    )
}
