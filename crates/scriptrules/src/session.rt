// A session, and what a script puts out: a reply to each line, or a line for each refused write and
// supply.
ghost use Rattle.std.specs.Prelude.{◌≡◌};
ghost use Rattle.scriptrules.specs.Session.{report_number, report_of};

use causerules::notes::Notes;
use gaugerules::state::Gauge;

#[derive(Clone, Copy, Debug, PartialEq, Eq)]
pub enum Report {
    Replies,
    Causes,
}

// Of its number: any other than that of causes is taken as replies.
impl From<u8> for Report {
    ghost from_gives = { λ n r. r ≡ report_of n };

    fn from(number: u8) -> Report {
        match number {
            1 => Report::Causes,
            _ => Report::Replies,
        }
    }
}

// The number of a report. Whatever has one is taken as a report: a number, or a `Report`.
impl From<Report> for u8 {
    ghost from_gives = { λ r n. n ≡ report_number r };

    fn from(report: Report) -> u8 {
        match report {
            Report::Replies => 0,
            Report::Causes => 1,
        }
    }
}

// What is carried from line to line of a script, by value. Replies leave the notes alone.
#[repr(C)]
#[derive(Clone, Copy)]
pub struct Session {
    pub gauge: Gauge,
    pub notes: Notes,
}
