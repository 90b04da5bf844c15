// Both files, found good or refused.
ghost use Rattle.std.specs.Prelude.{◌≡◌, [], ◌∷◌};
ghost use Rattle.hextext.specs.Hex.{hex_line};
ghost use Rattle.flashrules.specs.Error.{number};
ghost use Rattle.scriptrules.specs.Replay.{refusal};

use crate::pass::run_script;
use crate::script_file::{open, parse};
use flashrules::error::Error;
use flashrules::layout::MAX_IMAGE_LENGTH;
use hostio::image_file::load;
use hostio::output::{Reported, refuse};
use scriptrules::session::Report;
use std::rt::Files;

// What is printed in place of all output, where a file was refused.
fn refuse_files<R: Print + Eprint + AllocGlobal>(rt: &R, error: Error)
    requires { hex_line (number error ∷ []) ≡ refusal }
{
    refuse(rt, error);
}

// Runs the script, powered on sealed, and prints what this report puts out; or a file breaks its
// rules, is missing or cannot be read, and the reason goes to standard error.
#[tactic(auto, using(crate::proofs::FileLaws::files))]
fn try_files<R: Files + Print + Eprint + AllocGlobal>(
    rt: &R,
    report: Report,
) -> Result<(), Reported> {
    let mut bytes = [0u8; MAX_IMAGE_LENGTH];
    let image = load(rt, b"image.hex", &mut bytes);
    let mut file = open(rt)?;
    let parsed = parse(rt, &mut file, report)?;
    let Ok(found) = image else {
        return Err(Reported);
    };
    let image = &mut bytes[..found.length];
    run_script(rt, &mut file, found.layout, report, image, parsed);
    Ok(())
}

// The same; where a file is refused, the single line 0A is printed.
pub fn run_files<R: Files + Print + Eprint + AllocGlobal, P: Into<u8>>(rt: &R, report: P) {
    if try_files(rt, Report::from(report.into())).is_err() {
        refuse_files(rt, Error::Malformed);
    }
}
