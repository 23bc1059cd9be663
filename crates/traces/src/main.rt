// Sets each job of a file of records and prints the entries of every strip, some past the used part too, and what was told.
// tests/make_vectors.py says how. A record has an edition and a least last length, which no job carries, before its job.
#![tactic(auto)]

mod index;
mod paragraph;
mod print;

ghost use Rattle.std.specs.Prelude.{◌≤◌, length};

use job::Asked;
use paper::Limits;
use printer::read_front;
use printer::standard::Input;
use records::{Records, split_short};

// Prints the strips of what a job asks for, and of a paragraph the penalties.
fn trace_asked(asked: Asked, edition: u16, lastmin: u16, lengths: &[u32])
    requires { length lengths.now ≤ 12 }
{
    match asked {
        Asked::Paragraph(l) => {
            let limits = Limits {
                edition: u32::from(edition),
                lastmin: u32::from(lastmin),
                ..l
            };
            paragraph::trace(limits, lengths);
            paragraph::penalties(limits, lengths);
        }
        Asked::Index(l) => index::trace(l, lengths),
    }
}

// Prints the strips of one record whose job has up to 12 lengths. A job that is refused prints nothing.
fn trace(record: &[u8]) {
    let Some((edition, rest)) = split_short(record) else {
        return;
    };
    let Some((lastmin, job)) = split_short(rest) else {
        return;
    };
    let mut lengths = [0u32; 12];
    let Ok(given) = job::read(job, &mut lengths) else {
        return;
    };
    if let Some(lengths) = lengths.get(..given.n) {
        trace_asked(given.limits.asked, edition, lastmin, lengths);
    }
}

fn main() {
    let mut buffer = [0u8; 65536];
    let file = read_front(&mut Input::default(), &mut buffer);
    for record in Records(file) {
        trace(record);
    }
}
