// Prints what differs between the images of old.hex and new.hex, both in the current folder: one
// line a run, and nothing where they are equal. A file that breaks its rules, is missing or cannot
// be read gives the single line 0A, and layouts that differ the line 12; the reason goes to
// standard error.
//
// What is printed is proved of crate `delta`, whose call does all the work; here it is fed.
#![tactic(auto)]

ghost use Rattle.std.specs.Prelude.{◌≡◌, ◌≤◌, true, false, length, IfErr, IsOkAnd, MatchResult};
ghost use Rattle.flashrules.specs.Layout.{fits, same_layout};
ghost use Rattle.flashrules.specs.declared.error.Error.TheVariants.{Malformed, LayoutMismatch};

use delta::compare;
use deltarules::MAX_RUNS_TEXT;
use flashrules::error::Error;
use flashrules::layout::{Layout, MAX_IMAGE_LENGTH};
use hostio::image_file::load;
use hostio::output::{print, refuse, report};
use std::rt::Files;

// The one refusal that a file can meet.
fn refuse_file<R: Print + Eprint + AllocGlobal>(rt: &R, error: Error)
    requires { error ≡ Malformed }
{
    refuse(rt, error);
}

// The one refusal that two good files can meet.
fn refuse_layouts<R: Print + Eprint + AllocGlobal>(rt: &R, error: Error)
    requires { error ≡ LayoutMismatch }
{
    refuse(rt, error);
}

// The list, at the front of a text, where there is no refusal: nothing printed means equal images.
fn print_list<R: Print + Eprint + AllocGlobal>(rt: &R, written: Result<usize, Error>, text: &[u8])
    requires { IsOkAnd written (λ n. n ≤ length text.now) }
{
    if let Ok(length) = written {
        let _ = print(rt, &text[..length]);
    }
}

// Prints the list of two good files. They are refused only because their layouts differ: the buffer
// has room for the longest list that there is.
#[tactic(auto, using(crate::proofs::ShowLaws::shows))]
fn show<R: Print + Eprint + AllocGlobal>(
    rt: &R,
    layout: Layout,
    old: &[u8],
    other: Layout,
    new: &[u8],
) -> Result<(), Error>
    requires { (fits layout (length old.now) ≡ true) × (fits other (length new.now) ≡ true) }
    ensures { MatchResult result (λ _. same_layout layout other ≡ true) (λ error. (error ≡ LayoutMismatch) × (same_layout layout other ≡ false)) }
{
    let mut text = [0u8; MAX_RUNS_TEXT];
    let written = compare(layout, old, other, new, &mut text);
    match written {
        Ok(_) => {
            print_list(rt, written, &text);
            Ok(())
        }
        Err(error) => {
            report(rt, b"old.hex and new.hex: layouts differ");
            Err(error)
        }
    }
}

// Prints the list of the two files, as `show` does where both are good. A file meets one refusal,
// and two good files another one.
#[tactic(auto, using(crate::proofs::ShowLaws::files))]
fn show_files<R: Files + Print + Eprint + AllocGlobal>(rt: &R) -> Result<Result<(), Error>, Error>
    ensures { MatchResult result (λ shown. IfErr shown (λ error. error ≡ LayoutMismatch)) (λ error. error ≡ Malformed) }
{
    let mut old_bytes = [0u8; MAX_IMAGE_LENGTH];
    let mut new_bytes = [0u8; MAX_IMAGE_LENGTH];
    let old = load(rt, b"old.hex", &mut old_bytes);
    let new = load(rt, b"new.hex", &mut new_bytes);
    let old = old?;
    let new = new?;
    Ok(show(
        rt,
        old.layout,
        &old_bytes[..old.length],
        new.layout,
        &new_bytes[..new.length],
    ))
}

fn main(rt: HostRuntime) {
    match show_files(&rt) {
        Ok(Ok(())) => {}
        Ok(Err(error)) => refuse_layouts(&rt, error),
        Err(error) => refuse_file(&rt, error),
    }
}
