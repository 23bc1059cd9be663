// The reader of a job file: document 01, "Job file and listing".
#![tactic(auto)]

ghost use Rattle.std.specs.Prelude.{◌≡◌, ◌+◌, ◌≤◌, ◌<◌, ◌^◌, length};
ghost use Rattle.job.specs.Reader.{number, lengths_from, lengths_after, announced, asked_by, limits_from, reading_outcome, read_outcome};
ghost use Rattle.job.specs.Section.{SectionIs};
ghost use Rattle.laws.specs.Outcome.{Promise, Is};

use paper::{Limits, PageLimits, Refusal};

// What a job asks for, with its limits.
#[derive(Clone, Copy, Debug, PartialEq, Eq)]
pub enum Asked {
    Paragraph(Limits),
    Index(PageLimits),
}

// The limits of a job: their count, and what they ask for. W-202: "Count 4 means space 0." A caller is told the count all the same.
#[derive(Clone, Copy, Debug, PartialEq, Eq)]
pub struct JobLimits {
    pub count: u32,
    pub asked: Asked,
}

// A job that was read: its limits and n, the lengths being in their strip.
#[derive(Clone, Copy, Debug, PartialEq, Eq)]
pub struct Job {
    pub limits: JobLimits,
    pub n: usize,
}

// The number whose first byte is byte at of the part.
fn number(part: &[u8], at: usize) -> u32
    requires { at + 4 ≤ length part.now }
    ensures { result ≡ number part.now at }
{
    u32::from_le_bytes([part[at], part[at + 1], part[at + 2], part[at + 3]])
}

// The section reader. The part of the job after a count begins at byte at and is to have n numbers, which are written to out where all are
// complete.
fn section(part: &[u8], at: usize, n: usize, out: &mut [u32]) -> Result<(), Refusal>
    requires room { n ≤ length out.old }
    requires fits { at + length part.now < 2 ^ 64 }
    ensures { SectionIs part.now at n out.old result out.new }
{
    let complete = part.len() / 4;
    if complete < n {
        return Err(Refusal::Job(at + 4 * complete));
    }
    for k in 0..n {
        out[k] = number(part, 4 * k);
    }
    Ok(())
}

// The n lengths from byte at on, and then the end of the job.
fn lengths_from(
    job: &[u8],
    limits: JobLimits,
    at: usize,
    count: u32,
    lengths: &mut [u32],
) -> Result<Job, Refusal>
    requires { at ≤ length job.now }
    ensures { Promise Is
        (reading_outcome (lengths_from job.now (length lengths.old) limits at count) lengths.old)
        result lengths.new }
{
    if 4096 < count {
        return Err(Refusal::Many);
    }
    let n = count as usize;
    if lengths.len() < n {
        return Err(Refusal::Room(1));
    }
    let part = &job[at..];
    if 4 * n < part.len() {
        return Err(Refusal::Job(at + 4 * n));
    }
    section(part, at, n, lengths)?;
    Ok(Job { limits, n })
}

// The lengths, whose count stands at byte at.
fn lengths_after(
    job: &[u8],
    at: usize,
    limits: JobLimits,
    lengths: &mut [u32],
) -> Result<Job, Refusal>
    requires { at ≤ length job.now }
    ensures { Promise Is
        (reading_outcome (lengths_after job.now (length lengths.old) at limits) lengths.old)
        result lengths.new }
{
    if job.len() < at + 4 {
        return Err(Refusal::Job(at));
    }
    lengths_from(job, limits, at + 4, number(job, at), lengths)
}

// Whether a first count announces limits.
#[tactic(auto, unfolding(crate::specs::Reader::announced))]
fn announced(count: u32) -> bool
    ensures { result ≡ announced count }
{
    (count == 5) | (count == 4) | (count == 2)
}

// What limits of that count ask for. One that is not among them is 0. W-205: no such job carries an edition; all are of edition 1.
fn asked_by(count: u32, l: &[u32]) -> Asked
    requires { 5 ≤ length l.now }
    ensures { result ≡ asked_by count l.now }
{
    if count == 2 {
        return Asked::Index(PageLimits {
            lmin: l[0],
            lmax: l[1],
        });
    }
    Asked::Paragraph(Limits {
        lmin: l[0],
        lopt: l[1],
        lmax: l[2],
        a: l[3],
        space: l[4],
        edition: 1,
        lastmin: 0,
    })
}

// The limits that the first count announces, from byte 4 on, and then the lengths.
fn limits_from(job: &[u8], count: u32, lengths: &mut [u32]) -> Result<Job, Refusal>
    requires { 4 ≤ length job.now }
    ensures { Promise Is
        (reading_outcome (limits_from job.now (length lengths.old) count) lengths.old)
        result lengths.new }
{
    if !announced(count) {
        return Err(Refusal::Job(0));
    }
    let n = count as usize;
    let mut l = [0u32; 5];
    section(&job[4..], 4, n, &mut l)?;
    let limits = JobLimits {
        count,
        asked: asked_by(count, &l),
    };
    lengths_after(job, 4 + 4 * n, limits, lengths)
}

// The whole job. A refused read writes nothing.
pub fn read(job: &[u8], lengths: &mut [u32]) -> Result<Job, Refusal>
    ensures { Promise Is (read_outcome job.now lengths.old) result lengths.new }
{
    if job.len() < 4 {
        return Err(Refusal::Job(0));
    }
    limits_from(job, number(job, 0), lengths)
}
