//! The sentences for people, on standard error.
use machine::{End, StepFault};
use reader::Refusal;
use std::io;

/// Which of the two files a sentence is about.
// A function in its place was tried: no proof is made where a bound names 'static, nor where it names a lifetime of the caller.
#[derive(Clone, Copy)]
pub enum Source {
    Rules,
    Facts,
}

// What a refusal says of the row or the field of a file of facts that it names.
// By number: a refusal says no more, and an enum here would list the numbers once more.
fn meaning_in_facts(number: u8) -> &'static str {
    match number {
        1 => "the kind is not from 0 to 63",
        2 => "the word is not from -2147483648 to 2147483647",
        8 => "the field is not a number",
        11 => "a file has at most 512 facts",
        _ => "the row is not four fields by RFC 4180 with CRLF",
    }
}

// What a refusal says of the row or the field of a file of rules that it names.
fn meaning_in_rules(number: u8) -> &'static str {
    match number {
        1 => "the kind is not from 0 to 63",
        2 => "the word is not from -2147483648 to 2147483647",
        3 => "a letter stands in no single head, or X, Y, Z or * stands where it may not",
        4 => "one part or one rule is too many",
        5 => "the rule has no drop head",
        6 => "the rule has no all head of this number",
        8 => "the field cannot be read, or is filled and must be empty",
        9 => "the row is out of order",
        _ => "the row is no row by RFC 4180 with CRLF, or has another number of fields",
    }
}

fn meaning(source: Source, number: u8) -> &'static str {
    match source {
        Source::Rules => meaning_in_rules(number),
        Source::Facts => meaning_in_facts(number),
    }
}

/// Where a file's fault is, and what it is.
pub fn explain_refusal<R: Eprint>(
    rt: &R,
    source: Source,
    path: &str,
    found: bool,
    refusal: &Refusal,
) -> io::Result<()> {
    let number = refusal.number;
    let what = meaning(source, number);
    match (refusal.row, refusal.field) {
        (0, _) if found => {
            eprintln!(rt; "{path}: the file has more than 65536 bytes (refusal {number})")
        }
        (0, _) => { eprintln!(rt; "{path}: there is no file that can be read (refusal {number})") }
        (row, 0) => { eprintln!(rt; "{path}, row {row}: {what} (refusal {number})") }
        (row, field) => {
            eprintln!(rt; "{path}, row {row}, field {field}: {what} (refusal {number})")
        }
    }
}

// What stopped a run.
fn shortage(fault: StepFault) -> &'static str {
    match fault {
        StepFault::Facts => "the store would have more facts than its capacity",
        StepFault::Goals => "there would be more than 512 goals",
        StepFault::Labels => "there would be a label above 1000000",
        StepFault::Body => "a term of a rule's body has no value",
        StepFault::List => "the list of labels is too short",
    }
}

/// How many facts were read.
pub fn explain_count<R: Eprint>(rt: &R, path: &str, count: usize) -> io::Result<()> {
    if count == 1 {
        return eprintln!(rt; "{path}: 1 fact read");
    }
    eprintln!(rt; "{path}: {count} facts read")
}

/// Why a run did not end quiet; nothing where it did.
pub fn explain_end<R: Eprint>(rt: &R, end: End, steps: u32) -> io::Result<()> {
    match end {
        End::Quiet => Ok(()),
        End::Spent => { eprintln!(rt; "stopped after {steps} steps: a rule may still have work") }
        End::Stopped(fault) => {
            let number = fault.number();
            let why = shortage(fault);
            eprintln!(rt; "stopped after {steps} steps: {why} (refusal {number})")
        }
    }
}
