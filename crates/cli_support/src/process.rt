//! What a program reads from its process.
ghost use Rattle.std.specs.Prelude.{◌≡◌, IfOk, None, map};
ghost use Rattle.std.specs.String.{string_bytes};

use crate::input::{Unread, read_all};
use crate::named_output::NamedOutput;
use crate::targets::NamedFiles;
use crate::usage::Usage;
use std::alloc::Global;
use std::fs::File;
use std::io::{self, ErrorKind, Write};
use std::{env, fs};

/// The arguments of the process, if each is UTF-8. The first is the program's name.
pub fn arguments(rt: &HostRuntime) -> Result<Vec<String>, Usage> {
    match env::args(rt) {
        Ok(arguments) => arguments.collect(rt.alloc()).map_err(|_| Usage::Memory),
        Err(error) if error.kind() == ErrorKind::InvalidData => Err(Usage::Words),
        Err(_) => Err(Usage::Memory),
    }
}

/// The size of standard input if it is a file; otherwise 0 or another number.
pub fn input_size(rt: &HostRuntime) -> u64 {
    match fs::metadata(rt, "/dev/stdin") {
        Ok(input) => input.len(),
        Err(_) => 0,
    }
}

/// The texts of these strings.
pub fn as_texts<'a>(alloc: Global, strings: &'a [String]) -> Result<Vec<&'a str>, Usage>
    ensures { IfOk result (λ texts. map (λ text. text.now) texts.items ≡ map string_bytes strings.now) }
{
    let mut texts = Vec::new(alloc);
    for string in strings {
        if texts.push(string.as_str()).is_err() {
            return Err(Usage::Memory);
        }
    }
    Ok(texts)
}

/// The files of the process. No contract says what they contain.
impl NamedFiles for HostRuntime {
    ghost text_of = { λ _ _. None };

    fn read_named(&self, alloc: Global, name: &str) -> Result<Vec<u8>, Unread> {
        match File::open(self, name) {
            Ok(mut file) => read_all(alloc, &mut file, 0),
            Err(error) if error.kind() == ErrorKind::OutOfMemory => Err(Unread::Memory),
            Err(_) => Err(Unread::Source),
        }
    }
}

/// An output to a file of the process, once it is created. No contract says what the file contains.
#[derive(Drop)]
pub struct NewFile<'r> {
    rt: &'r HostRuntime,
    file: Option<File>,
}

impl<'r> NewFile<'r> {
    /// No file yet.
    pub fn new(rt: &'r HostRuntime) -> NewFile<'r> {
        NewFile { rt, file: None }
    }
}

impl Write for NewFile<'_> {
    fn write(&mut self, bytes: &[u8]) -> io::Result<usize> {
        match &mut self.file {
            Some(file) => file.write(bytes),
            None => Err(ErrorKind::NotFound.into()),
        }
    }

    fn flush(&mut self) -> io::Result<()> {
        match &mut self.file {
            Some(file) => file.flush(),
            None => Ok(()),
        }
    }
}

impl NamedOutput for NewFile<'_> {
    fn create(&mut self, name: &str) -> io::Result<()> {
        let file = File::create(self.rt, name)?;
        self.file = Some(file);
        Ok(())
    }
}
