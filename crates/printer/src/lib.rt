// What the programs share: the read of the input, and the listing on standard output.
#![tactic(auto)]

ghost use Rattle.std.specs.Prelude.{◌≤◌, length, OnOk};
ghost use Rattle.std.specs.Io.KnownBytes.{Appends, Consumes};
ghost use Rattle.listing.specs.Listing.{listing_of};

use listing::list;
use records::Records;
use standard::{Input, Output};
use std::io::{Read, Result, Write};

pub mod standard;

// Reads as much of the input as the buffer holds. Answers the bytes that came. A read that fails ends the input.
pub fn read_front<'a, R: Read>(input: &mut R, buffer: &'a mut [u8]) -> &'a [u8]
    ensures within { length result.now ≤ length buffer.old }
    ensures front { Consumes (R.remaining input.old) (R.remaining input.new) result.now }
{
    let mut count = 0;
    while count < buffer.len() {
        match input.read(&mut buffer[count..]) {
            Ok(0) | Err(_) => break,
            Ok(n) => count += n,
        }
    }
    &buffer[..count]
}

// Prints the listing of a job.
pub fn print_listing<W: Write>(output: &mut W, job: &[u8]) -> Result<()>
    ensures { OnOk result
        (Appends (W.contents output.old) (W.contents output.new) (listing_of job.now)) }
{
    let mut buffer = [0u8; 81979];
    let Ok(size) = list(job, &mut buffer) else {
        unreachable!() // no listing is longer
    };
    output.write_all(&buffer[..size])
}

// Prints the listings of a file of jobs, read from standard input, one after the other. A write that fails shows in what is compared.
pub fn print_listings() {
    let mut buffer = [0u8; 65536];
    let file = read_front(&mut Input::default(), &mut buffer);
    for job in Records(file) {
        let _ = print_listing(&mut Output, job);
    }
}
