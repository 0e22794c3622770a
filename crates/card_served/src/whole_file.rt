// A file that is there whole or not at all.
use crate::fault::ServeFault;
use std::fs::{self, OpenOptions};
use std::io::{self, BufWriter, ErrorKind, Write};
use std::rt::Files;

// How many names of files that are being written are tried.
const NAMES: u32 = 100;

/// A file that is written under another name, which nothing had, and gets its own once it is whole: so whatever ends the program, a
/// signal too, the name has the whole file or none, and no other file is touched.
#[derive(Drop)]
pub struct WholeFile<'a, F: Write + Drop> {
    /// What is written.
    pub out: BufWriter<F>,
    name: &'a str,
    interim: String,
    // Whether a file of its name goes then.
    replaces: bool,
    unmade: ServeFault,
}

// Whether nothing has this name, not even a link that leads nowhere.
fn is_free(rt: &impl Files, name: &str) -> bool {
    match fs::symlink_metadata(rt, name) {
        Ok(_) => false,
        Err(error) => error.kind() == ErrorKind::NotFound,
    }
}

// A name for a file that is being written: its own with `.part` after it, then with `.part2`, `.part3` and so on.
fn interim_name(rt: &impl AllocGlobal, name: &str, number: u32) -> Result<String, ServeFault> {
    let interim = match number {
        1 => format!(in rt.alloc(); "{name}.part")?,
        _ => format!(in rt.alloc(); "{name}.part{number}")?,
    };
    Ok(interim)
}

// A new file, by the first such name that nothing has.
fn interim_file<R: Files + AllocGlobal>(
    rt: &R,
    name: &str,
    unmade: ServeFault,
) -> Result<(String, R::File), ServeFault> {
    for number in 1..=NAMES {
        let interim = interim_name(rt, name, number)?;
        match OpenOptions::new()
            .write(true)
            .create_new(true)
            .open(rt, interim.as_str())
        {
            Ok(file) => return Ok((interim, file)),
            Err(error) if error.kind() == ErrorKind::AlreadyExists => {}
            Err(_) => return Err(unmade),
        }
    }
    Err(unmade)
}

// Begins a file that isn't there yet, or is to be replaced.
fn begun<'a, R: Files + AllocGlobal>(
    rt: &R,
    name: &'a str,
    replaces: bool,
    unmade: ServeFault,
) -> Result<WholeFile<'a, R::File>, ServeFault> {
    if !replaces && !is_free(rt, name) {
        return Err(unmade);
    }
    let (interim, file) = interim_file(rt, name, unmade)?;
    let Ok(out) = BufWriter::new(rt.alloc(), file) else {
        let _ = fs::remove_file(rt, interim.as_str());
        return Err(ServeFault::NoMemory);
    };
    Ok(WholeFile {
        out,
        name,
        interim,
        replaces,
        unmade,
    })
}

/// Begins a file that isn't there yet, or is to be replaced once this one is whole, where one is named.
///
/// # Errors
/// The fault `unmade`, where it is there and isn't to be replaced, can't be made, or at the end can't be written or named; `NoMemory`.
pub fn begun_where_named<'a, R: Files + AllocGlobal>(
    rt: &R,
    name: Option<&'a str>,
    replaces: bool,
    unmade: ServeFault,
) -> Result<Option<WholeFile<'a, R::File>>, ServeFault> {
    match name {
        None => Ok(None),
        Some(name) => Ok(Some(begun(rt, name, replaces, unmade)?)),
    }
}

impl<F: Write + Drop> WholeFile<'_, F> {
    /// Writes out what a buffer holds back, and gives the file its name, unless another one has got it meanwhile that isn't to be
    /// replaced. Where that can't be done, or what was written before failed, the file is removed.
    ///
    /// # Errors
    /// The fault of `begun_where_named`, where it was removed.
    pub fn finish(self, rt: &impl Files, written: io::Result<()>) -> Result<(), ServeFault> {
        let WholeFile {
            mut out,
            name,
            interim,
            replaces,
            unmade,
        } = self;
        let is_written = written.is_ok() && out.flush().is_ok();
        let may_have_it = replaces || is_free(rt, name);
        if is_written && may_have_it && fs::rename(rt, interim.as_str(), name).is_ok() {
            return Ok(());
        }
        let _ = fs::remove_file(rt, interim.as_str());
        Err(unmade)
    }
}
