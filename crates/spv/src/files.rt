//! The files of the command line: they are opened, read whole and made here.
use crate::why::{Noted, Tried, Why};
use spv_commands::{Trouble, read_all};
use spv_words::FromRead;
use std::alloc::{AllocError, Global};
use std::fs::File;
use std::io::{ErrorKind, Read, Stdin, Write};
use std::os::unix::fs::MetadataExt;
use std::{fs, io};

/// The name of the standard input, and of the standard output.
pub const STANDARD: &str = "-";

/// How many bytes of a module are read: one more than it has at most, so that one that is too long is told (W8).
const MOST_BYTES: usize = 16_777_217;

/// How many of them are read at a time: few, since each page of the block costs a small module time.
const BLOCK_SIZE: usize = 8192;

/// An open file, or the standard input.
#[derive(Drop)]
pub enum Input {
    /// The standard input.
    Standard(Stdin),
    /// A file.
    File(File),
}

impl Read for Input {
    fn read(&mut self, buf: &mut [u8]) -> io::Result<usize> {
        match self {
            Input::Standard(input) => input.read(buf),
            Input::File(file) => file.read(buf),
        }
    }
}

/// What a failed call of the system is told as.
fn trouble_of(error: io::Error) -> Trouble {
    match error.kind() {
        ErrorKind::OutOfMemory => Trouble::Memory,
        _ => Trouble::File,
    }
}

/// Opens the file of this name.
pub fn open_file<'a>(rt: &HostRuntime, why: &Why<'a>, name: &'a str) -> Result<Input, Trouble> {
    match fs::open(rt, name) {
        Ok(file) => Ok(Input::File(file)),
        Err(error) => {
            why.note(name, Tried::Open, error);
            Err(trouble_of(error))
        }
    }
}

/// The same, where `-` is the standard input.
pub fn open<'a>(rt: &HostRuntime, why: &Why<'a>, name: &'a str) -> Result<Input, Trouble> {
    if name == STANDARD {
        return Ok(Input::Standard(rt.stdin()));
    }
    open_file(rt, why, name)
}

/// All the bytes of the file of this name. It is apart from its callers, which else pay for its block whatever they do.
#[inline(never)]
pub fn text_bytes<'a>(
    alloc: Global,
    why: &Why<'a>,
    name: &'a str,
    input: Input,
) -> Result<Vec<u8>, Trouble> {
    let input = Noted::new(input, name, Tried::Read, why);
    read_all(alloc, &mut FromRead::new(input))
}

/// Adds bytes. Where there is too little room, it is made at once for all that a module can still take.
fn add(bytes: &mut Vec<u8>, more: &[u8]) -> Result<(), AllocError> {
    if bytes.capacity() - bytes.len() < more.len() {
        bytes.reserve_exact(MOST_BYTES.saturating_sub(bytes.len()))?;
    }
    bytes.extend_from_slice(more)
}

/// All the bytes of the module of this name, or so many that it is none.
#[inline(never)]
pub fn module_bytes<'a>(
    alloc: Global,
    why: &Why<'a>,
    name: &'a str,
    input: Input,
) -> Result<Vec<u8>, Trouble> {
    let mut input = Noted::new(input, name, Tried::Read, why);
    let mut bytes = Vec::with_capacity(alloc, BLOCK_SIZE)?;
    let mut block = [0u8; BLOCK_SIZE];
    for _ in 0..=MOST_BYTES {
        let room = MOST_BYTES.saturating_sub(bytes.len()).min(BLOCK_SIZE);
        if room == 0 {
            break;
        }
        let Ok(size) = input.read(&mut block[..room]) else {
            return Err(Trouble::File);
        };
        if size == 0 {
            break;
        }
        add(&mut bytes, &block[..size])?;
    }
    Ok(bytes)
}

/// Whether two names are those of one file, which may be linked or be the standard input.
pub fn is_same_file(rt: &HostRuntime, one: &str, other: &str) -> bool {
    let one = if one == STANDARD { "/dev/stdin" } else { one };
    let (Ok(one), Ok(other)) = (fs::metadata(rt, one), fs::metadata(rt, other)) else {
        return false;
    };
    one.is_file() && one.dev() == other.dev() && one.ino() == other.ino()
}

/// Makes an empty file where there is none of this name. Where that fails, there is none still.
pub fn make_if_absent(rt: &HostRuntime, name: &str) {
    let _ = fs::File::create_new(rt, name);
}

/// A writer of a file that its first write makes, or makes anew. Before that nothing is opened.
#[derive(Drop)]
pub struct Made<'b> {
    rt: &'b HostRuntime,
    name: &'b str,
    file: Option<File>,
}

impl<'b> Made<'b> {
    /// Of a file of this name.
    pub fn new(rt: &'b HostRuntime, name: &'b str) -> Self {
        Made {
            rt,
            name,
            file: None,
        }
    }
}

impl Write for Made<'_> {
    fn write(&mut self, buf: &[u8]) -> io::Result<usize> {
        if let Some(file) = &mut self.file {
            return file.write(buf);
        }
        let mut file = fs::create(self.rt, self.name)?;
        let answer = file.write(buf);
        self.file = Some(file);
        answer
    }

    fn flush(&mut self) -> io::Result<()> {
        Ok(())
    }
}
