// A case of the table: what the code is run on, and what it has to answer.
ghost use Rattle.std.specs.Prelude.{◌≡◌};
ghost use Rattle.casetable.specs.Cases.{case_at};
ghost use Rattle.cases.specs.Case.{case_of};

use crate::bench::{IMAGE_LENGTH, bench_image, bench_layout, changed_image};
use crate::text::{show_number, show_text, show_verdict};
use checksum::{checksum, checksum_after};
use dataflash::block;
use flashrules::error::{Error, number_of};
use framerunner::session::begin;
use gaugestate::state::power_on;
use layout::lookup::find_block;
use parameterrules::parameter::Parameter;
use parameters::{get, set, set_lower};
use scriptrules::session::Report;
use scriptrunner::run::run;

// Room for the replies of any case.
const ROOM: usize = 1024;

#[derive(Clone, Copy)]
pub(crate) enum Case<'a> {
    // Bytes, and their checksum.
    Sum(&'a [u8], u8),
    // A checksum, a byte of the block, the byte that it becomes, and the checksum after it.
    Change(u8, u8, u8, u8),
    // A class, a block of it, and the refusal and the length that its lookup answers.
    Lookup(u8, u8, Option<Error>, usize),
    // The image's first byte, the home at power-on, a script and its output, and the one byte of
    // the image after it that may be another: its index and its value.
    Session(u8, u8, &'a [u8], &'a [u8], usize, u8),
    // Whether power is cut after the first commit, a parameter, a value to be set, the refusal, and
    // the bytes of the image after it that may be others: the index of the first, and their values.
    SetParameter(bool, Parameter, i64, Option<Error>, usize, &'a [u8]),
    // The image's first byte, a parameter, and the value in range that is read.
    GetParameter(u8, Parameter, i64),
}

fn show_value<R: Print>(rt: &R, answer: u64, expected: u64) {
    show_number(rt, answer);
    show_verdict(rt, answer == expected);
}

// Prints the number of a refusal, 0 for none. Whether it is this.
fn refused_so<R: Print>(rt: &R, answer: Option<Error>, expected: Option<Error>) -> bool {
    show_number(rt, u64::from(number_of(answer)));
    answer == expected
}

fn lookup_error(class: u8, number: u8) -> Option<Error> {
    find_block(bench_layout(), IMAGE_LENGTH, class, number).err()
}

fn block_length(class: u8, number: u8) -> usize {
    block(bench_layout(), &bench_image(0), class, number).len()
}

// Prints the output of a script. Whether it is this, and leaves this image.
fn runs_so<R: Print>(
    rt: &R,
    first: u8,
    boot: u8,
    script: &[u8],
    output: &[u8],
    after: &[u8],
) -> bool {
    let mut image = bench_image(first);
    let mut buffer = [0u8; ROOM];
    let session = begin(power_on(boot));
    let ran = run(
        bench_layout(),
        Report::Replies,
        &mut image,
        session,
        script,
        &mut buffer,
    );
    let printed = &buffer[..ran.length];
    show_text(rt, printed);
    printed == output && image[..] == after[..]
}

// Prints the error number of setting a parameter. Whether it is this, and leaves this image.
// Stays: `cut` is a flag, as the table has it.
fn sets_so<R: Print>(
    rt: &R,
    cut: bool,
    parameter: Parameter,
    value: i64,
    error: Option<Error>,
    after: &[u8],
) -> bool {
    let mut image = bench_image(0);
    let answer = if cut {
        set_lower(bench_layout(), &mut image, parameter, value)
    } else {
        set(bench_layout(), &mut image, parameter, value)
    };
    refused_so(rt, answer.err(), error) && image[..] == after[..]
}

// Prints the error number of reading a parameter. Whether this value is read, and in range.
fn reads_so<R: Print>(rt: &R, first: u8, parameter: Parameter, value: i64) -> bool {
    let image = bench_image(first);
    match get(bench_layout(), &image, parameter) {
        Ok(read) => refused_so(rt, None, None) && read.in_range && read.value == value,
        Err(error) => refused_so(rt, Some(error), None),
    }
}

// Runs the case of this number in the table, and prints under this name what the code answers.
pub(crate) fn run_case<R: Print>(rt: &R, number: usize, name: &[u8], case: Case)
    requires { case_at number ≡ case_of case }
{
    show_text(rt, name);
    match case {
        Case::Sum(bytes, sum) => {
            show_text(rt, b" checksum ");
            show_value(rt, checksum(bytes) as u64, sum as u64);
        }
        Case::Change(before, old, new, sum) => {
            show_text(rt, b" checksum ");
            show_value(rt, checksum_after(before, old, new) as u64, sum as u64);
        }
        Case::Lookup(class, block, error, length) => {
            show_text(rt, b" error ");
            let same = refused_so(rt, lookup_error(class, block), error);
            show_verdict(rt, same);
            show_text(rt, name);
            show_text(rt, b" length ");
            show_value(rt, block_length(class, block) as u64, length as u64);
        }
        Case::Session(first, boot, script, output, at, byte) => {
            show_text(rt, b"\n");
            let after = changed_image(first, at, &[byte]);
            let same = runs_so(rt, first, boot, script, output, &after);
            show_text(rt, name);
            show_verdict(rt, same);
        }
        Case::SetParameter(cut, parameter, value, error, at, bytes) => {
            show_text(rt, b" set, error ");
            let after = changed_image(0, at, bytes);
            show_verdict(rt, sets_so(rt, cut, parameter, value, error, &after));
        }
        Case::GetParameter(first, parameter, value) => {
            show_text(rt, b" get, error ");
            show_verdict(rt, reads_so(rt, first, parameter, value));
        }
    }
}
