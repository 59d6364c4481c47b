//! A report longer than the writer's buffer of 8192 bytes.

ghost use Rattle.std.specs.Prelude.{◌≤◌};
ghost use Rattle.hw_desk.specs.State.{IsNewDesk};
ghost use Rattle.hw_report.specs.Printing.{CanPrint};
ghost use Rattle.hw_report.specs.Seen.{report_seen};

use hw_desk::{Desk, DeskCall, FailAt, MemoryDesk, NoMemory, Tray};
use hw_flat::Timetable;
use hw_report::{Report, print_report};
use hw_text::put_number;
use std::alloc::Global;
use std::test::Fail;

/// How many restrictions the clash keeps, each with a timetable of 40 ships.
const KEPT: u32 = 200;

/// Restrictions with numbers of four digits.
fn kept(alloc: Global) -> Result<Vec<u32>, NoMemory> {
    let mut ids = Vec::new(alloc);
    for place in 0..KEPT {
        ids.push(1000 + place)?;
    }
    Ok(ids)
}

/// For each restriction a timetable in which all 40 ships sail in slot 511.
fn drops(alloc: Global) -> Result<Vec<Timetable>, NoMemory> {
    let mut tables = Vec::new(alloc);
    for _ in 0..KEPT {
        tables.push(Timetable::from_slots(alloc, &[511; 40])?)?;
    }
    Ok(tables)
}

/// Appends a word, a space and a number.
fn put(text: &mut Vec<u8>, word: &[u8], number: u32) -> Result<(), NoMemory> {
    text.extend_from_slice(word)?;
    text.push(b' ')?;
    Ok(put_number(text, u64::from(number))?)
}

/// The text of that clash, put together from its lines: 35,017 bytes.
fn clash_text(alloc: Global) -> Result<Vec<u8>, NoMemory> {
    let mut text = Vec::from_slice(alloc, b"clash 1\nkeep")?;
    for place in 0..KEPT {
        put(&mut text, b"", 1000 + place)?;
    }
    for place in 0..KEPT {
        put(&mut text, b"\ndrop", 1000 + place)?;
        for _ in 0..40 {
            text.extend_from_slice(b" 511")?;
        }
    }
    text.extend_from_slice(b"\nend\n")?;
    Ok(text)
}

/// Whether the report was sent whole.
fn prints<D: Desk>(desk: &mut D, report: &Report) -> bool
    requires new { IsNewDesk (D.state desk.old) }
    requires can { CanPrint (report_seen report.now) }
{
    print_report(desk, report).is_ok()
}

/// Whether the report was sent whole, and how many bytes were sent, where a write sends at most `most`
/// bytes and the write of this place fails (none where it is 0). None if other bytes were sent.
fn sent(
    alloc: Global,
    report: &Report,
    text: &[u8],
    most: u32,
    place: u32,
) -> Result<Option<(bool, usize)>, NoMemory>
    requires can { CanPrint (report_seen report.now) }
{
    let call = DeskCall::WriteReport;
    let fails = Vec::from_slice(alloc, &[FailAt { call, place }])?;
    let mut desk = MemoryDesk::new(alloc, Vec::new(alloc), most.max(1), 65_536, fails)?;
    let whole = prints(&mut desk, report);
    let bytes = desk.sent(Tray::Report);
    if text.starts_with(bytes) {
        Ok(Some((whole, bytes.len())))
    } else {
        Ok(None)
    }
}

/// How many bytes a write sends, the write that fails, and how many bytes are sent then: the first
/// writes, writes near the end of the first buffer, and the last ones. A buffer is sent before what
/// doesn't fit any more, here a number after 8191 bytes.
const ROWS: [(u32, u32, usize); 18] = [
    (1, 0, 35_017),
    (3, 0, 35_017),
    (4096, 0, 35_017),
    (1, 1, 0),
    (1, 8191, 8190),
    (1, 8193, 8192),
    (1, 35_017, 35_016),
    (3, 2730, 8187),
    (3, 2732, 8191),
    (4096, 1, 0),
    (4096, 2, 4096),
    (4096, 3, 8191),
    (4096, 4, 12_287),
    (4096, 5, 16_383),
    (4096, 6, 20_479),
    (4096, 7, 24_575),
    (4096, 8, 28_671),
    (4096, 9, 32_767),
];

#[test]
fn a_report_of_many_buffers(rt: HostRuntime) -> Result<(), Fail> {
    let kept = kept(rt.alloc())?;
    let drops = drops(rt.alloc())?;
    let text = clash_text(rt.alloc())?;
    let report = Report::Clashed {
        kept: &kept,
        drops: &drops,
    };
    assert_eq!(rt; text.len(), 35_017);
    for (most, place, count) in ROWS {
        let found = sent(rt.alloc(), &report, &text, most, place)?;
        assert!(rt;
            found == Some((place == 0, count)),
            "{most} at once, write {place}: {found:?}"
        );
    }
    Ok(())
}
