//! `part` of any subject: a search within a part of a split, that goes on from the lines of a certificate.

ghost use Rattle.std.specs.Prelude.{◌≡◌, ◌≤◌, false};
ghost use Rattle.hw_model.specs.Rooms.{RoomFits};
ghost use Rattle.hw_desk.specs.State.{IsNewDesk};
ghost use Rattle.hw_desk.specs.declared.desk.Feed.TheVariants.{Certificate};
ghost use Rattle.hw_desk.specs.declared.desk.Tray.TheVariants.{Proof};
ghost use Rattle.hw_command.specs.Carries.{Carries};
ghost use Rattle.hw_subject.specs.Subjects.{subject_of};
ghost use Rattle.hw_command_split.specs.Parting.{part_task_of};
ghost use Rattle.hw_command_split.specs.Parts.{PartsTo};

use crate::split_input::{part_room, read_split_input};
use hw_cert::Version;
use hw_command::{Ending, Status, check_report, finish, read_start, send_lines, stop_outcome};
use hw_desk::Desk;
use hw_flat::{Flat, Room};
use hw_price_adviser::PricingAdviser;
use hw_report::Report;
use hw_search_laws::MOST_BUDGET;
use hw_search_resumed::part;
use hw_subject::{Subject, read_subject};
use std::alloc::Global;

/// The part of a split to search in, and the names of the split, of the certificate to go on from, and
/// of Proof.
#[derive(Clone, Copy)]
pub struct PartWords<'w> {
    pub split: &'w str,
    pub number: u32,
    pub start: &'w str,
    pub proof: &'w str,
}

/// Reads the subject and a split of its problem, checks a certificate of any version, and searches on from
/// its lines within a part of the split, until they show that nothing in the part beats the best, or
/// `budget` new lemmas (1 to 100000) are found. All lines are sent to Proof, and the report says whether
/// the part is closed. Proof isn't made if a line is refused or memory runs out.
pub fn part_subject<D: Desk>(
    alloc: Global,
    desk: &mut D,
    subject: Subject,
    words: PartWords<'_>,
    budget: u32,
) -> Status
    requires least { 1 ≤ budget }
    requires most { budget ≤ MOST_BUDGET }
    requires fresh { IsNewDesk (D.state desk.old) }
    ensures { Carries (part_task_of (subject_of subject.entry) words.entry budget) (D.state desk.old) (D.state desk.new) result }
{
    let given = match read_subject(alloc, desk, subject) {
        Ok(given) => given,
        Err(report) => return finish(desk, &report),
    };
    let flat = given.searched();
    let split = match read_split_input(alloc, desk, flat, words.split) {
        Ok(split) => split,
        Err(report) => return finish(desk, &report),
    };
    let room = match part_room(alloc, flat, &split, words.number) {
        Ok(room) => room,
        Err(report) => return finish(desk, &report),
    };
    match part_to(alloc, desk, flat, &room, words, budget) {
        Ending::Stopped(stopped) => {
            finish(desk, &check_report(stopped, None, None, given.names()))
        }
        Ending::Sent(is_closed) => finish(
            desk,
            &Report::Part {
                number: words.number,
                is_closed,
            },
        ),
        Ending::WriteFailed => Status::WriteFault,
    }
}

/// Begins the certificate under its name and checks it, searches on within a room, and then makes Proof
/// under its name and sends all lines there. Tells whether they close the part.
fn part_to<D: Desk>(
    alloc: Global,
    desk: &mut D,
    flat: &Flat,
    room: &Room,
    words: PartWords<'_>,
    budget: u32,
) -> Ending<bool>
    requires room { RoomFits flat.now room.now }
    requires least { 1 ≤ budget }
    requires most { budget ≤ MOST_BUDGET }
    requires unread { ((D.state desk.old).feeds Certificate).begun ≡ false }
    requires unmade { ((D.state desk.old).trays Proof).made ≡ false }
    ensures { PartsTo flat.now room.now words.entry.start.now budget words.entry.proof.now (D.state desk.old) (D.state desk.new) result }
{
    let start = match read_start(alloc, desk, flat, words.start) {
        Ok(start) => start,
        Err(stopped) => return Ending::Stopped(stopped),
    };
    let adviser = PricingAdviser::new(budget, 0);
    let parted = match part(alloc, start, room, budget, adviser) {
        Ok(parted) => parted,
        Err(stop) => return Ending::Stopped(stop_outcome(stop)),
    };
    match send_lines(desk, Version::Three, &parted.lines, words.proof) {
        Ok(()) => Ending::Sent(parted.is_closed),
        Err(_) => Ending::WriteFailed,
    }
}
