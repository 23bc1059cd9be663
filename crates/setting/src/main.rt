// Reads a job on standard input and prints its listing: document 01, "Job file and listing". All of the input is read. What is beyond the
// buffer is left out: a job of more than 16,412 bytes is decided by any longer front (listing/specs/Given.antt, `listing_first`).
#![tactic(auto)]

use printer::standard::{Input, Output};
use printer::{print_listing, read_front};

// How many bytes of the input are looked at.
const MOST: usize = 65536;

// Reads the input to its end. A proved loop has to end, and nothing says that input does: no run uses up the turns.
fn drain() {
    let mut buffer = [0u8; MOST];
    for _ in 0..u64::MAX {
        if read_front(&mut Input::default(), &mut buffer).is_empty() {
            break;
        }
    }
}

fn main() {
    let mut buffer = [0u8; MOST];
    let job = read_front(&mut Input::default(), &mut buffer);
    if job.len() == MOST {
        drain();
    }
    if print_listing(&mut Output, job).is_err() {
        io::write_all(2, b"setting: the listing could not be written\n");
    }
}
