// Opens the files that options name.
use crate::fault::ServeFault;
use std::alloc::Global;
use std::fs::{File, OpenOptions};
use std::io::{self, BufWriter, Write};
use std::rt::Files;

/// Where a file that is read stands: `-` is standard input.
pub fn path_of(name: &str) -> &str {
    match name {
        "-" => "/dev/stdin",
        _ => name,
    }
}

/// A file that is read, or the fault `unread` where it can't be opened.
pub fn opened<R: Files>(rt: &R, name: &str, unread: ServeFault) -> Result<R::File, ServeFault> {
    match File::open(rt, path_of(name)) {
        Ok(file) => Ok(file),
        Err(_) => Err(unread),
    }
}

/// The same, where one is named.
pub fn named_file<R: Files>(
    rt: &R,
    name: Option<&str>,
    unread: ServeFault,
) -> Result<Option<R::File>, ServeFault> {
    match name {
        None => Ok(None),
        Some(name) => Ok(Some(opened(rt, name, unread)?)),
    }
}

// A buffer before a file that was opened.
fn buffered<F: Write + Drop>(
    alloc: Global,
    file: io::Result<F>,
    unmade: ServeFault,
) -> Result<BufWriter<F>, ServeFault> {
    let Ok(file) = file else {
        return Err(unmade);
    };
    match BufWriter::new(alloc, file) {
        Ok(file) => Ok(file),
        Err(_) => Err(ServeFault::NoMemory),
    }
}

/// A stream of the program, `/dev/stdout` or `/dev/stderr`, after all that was written there.
///
/// # Errors
/// The fault `unmade` where it can't be opened; `NoMemory`.
pub fn stream<R: Files + AllocGlobal>(
    rt: &R,
    name: &str,
    unmade: ServeFault,
) -> Result<BufWriter<R::File>, ServeFault> {
    let file = OpenOptions::new().append(true).open(rt, name);
    buffered(rt.alloc(), file, unmade)
}

// A file that is written from here on. It wasn't there before, so that nothing that was there is lost, unless it is to be replaced.
fn new_file<R: Files + AllocGlobal>(
    rt: &R,
    name: &str,
    replaces: bool,
    unmade: ServeFault,
) -> Result<BufWriter<R::File>, ServeFault> {
    let file = OpenOptions::new()
        .write(true)
        .create(true)
        .truncate(replaces)
        .create_new(!replaces)
        .open(rt, name);
    buffered(rt.alloc(), file, unmade)
}

/// A file that is written as it goes, where one is named: `-` is standard output, and any other wasn't there before, unless it is
/// to be replaced.
///
/// # Errors
/// The fault `unmade` where it can't be made; `NoMemory`.
pub fn named_new_file<R: Files + AllocGlobal>(
    rt: &R,
    name: Option<&str>,
    replaces: bool,
    unmade: ServeFault,
) -> Result<Option<BufWriter<R::File>>, ServeFault> {
    match name {
        None => Ok(None),
        Some("-") => Ok(Some(stream(rt, "/dev/stdout", unmade)?)),
        Some(name) => Ok(Some(new_file(rt, name, replaces, unmade)?)),
    }
}
