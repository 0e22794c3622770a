// What is wrong with the words of a command line, in a line of its own.

/// Writes a line on standard error with the first line of what `clap` says of words that it refuses, and the next one too where
/// the first ends in a colon: the options that are missing stand there.
pub fn put_mistake(rt: &(impl Eprint + AllocGlobal), error: &clap::Error) {
    let Ok(text) = error.to_string(rt.alloc()) else {
        return;
    };
    let mut lines = text.as_str().lines();
    let line = lines.next().unwrap_or("");
    let mistake = line.strip_prefix("error: ").unwrap_or(line);
    match lines.next() {
        Some(next) if mistake.ends_with(':') => {
            let _ = eprintln!(rt; "cardtool: {mistake} {}", next.trim());
        }
        _ => {
            let _ = eprintln!(rt; "cardtool: {mistake}");
        }
    }
}

/// Writes a line on standard error about a word in the place of a command that is none's name.
pub fn put_unknown(rt: &impl Eprint, word: &str) {
    let _ = eprintln!(rt; "cardtool: there is no command {word}; `cardtool help` lists them");
}
