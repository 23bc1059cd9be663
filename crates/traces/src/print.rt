// Text on standard output, a word at a write. A write that fails shows in what is compared, so no answer is looked at.
use capi::Numbers;
use printer::standard::Output;
use std::fmt::Display;
use std::io::Write;

fn put<T: Display + Drop>(text: T) {
    let _ = write!(Output, "{text}");
}

// A space and a number.
fn entry<T: Display + Drop>(x: T) {
    put(" ");
    put(x);
}

// The entries of a strip, after its name.
pub fn strip<T: Display>(name: &str, entries: &[T]) {
    put(name);
    for x in entries {
        entry(x);
    }
    put("\n");
}

// What was told.
pub fn told(t: Numbers) {
    put("told");
    entry(t.number);
    entry(t.place);
    entry(t.total);
    entry(t.lines);
    entry(t.moves);
    put("\n");
}
