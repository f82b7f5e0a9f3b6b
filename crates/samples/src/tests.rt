// Each refusal, the recall, and the tempting errors, on the calls themselves.
use display::Display;
use display::words::{Answer, Question};
use glass::area::Area;
use glass::stroke::{Ink, Stroke};
use history::compare::same;
use history::recall::recall_bytes;
use list::BoundedList;
use panel::draw::draw;
use panel::{Panel, PlainPanel};
use std::test::Fail;
use strip::{Change, NO_CHANGE, StripPanel};
use terms::fault::UNUSED;
use terms::settings::Settings;

// The number of the refusal, if they are refused.
fn refused(set: u8, table: u8, brightness: u8) -> Option<u8> {
    Settings::check(set, table, brightness).err().map(u8::from)
}

#[test]
fn settings_are_refused_in_order(rt: HostRuntime) {
    assert_eq!(rt; refused(12, 8, 4), None);
    assert_eq!(rt; refused(13, 9, 0), Some(11));
    assert_eq!(rt; refused(12, 9, 0), Some(12));
    assert_eq!(rt; refused(12, 8, 0), Some(13));
    assert_eq!(rt; refused(12, 8, 5), Some(13));
}

fn lawful() -> Result<Settings, Fail> {
    Settings::check(0, 0, 4).map_err(|_| Fail::new("lawful settings"))
}

fn switched_on() -> Result<Display<PlainPanel>, Fail> {
    Ok(Display::switch_on(lawful()?, PlainPanel::new()))
}

// How many faults a piece gave; as many as can be where it was refused.
fn fed<P: Panel>(display: &mut Display<P>, piece: &[u8]) -> usize {
    let mut places = [UNUSED; 512];
    let mut faults = BoundedList::over(&mut places);
    display.feed(piece, &mut faults).unwrap_or(usize::MAX)
}

// The cause of a piece's first fault, and its operand.
fn first_fault(display: &mut Display<PlainPanel>, piece: &[u8]) -> Option<(u8, u8)> {
    let mut places = [UNUSED; 512];
    let mut faults = BoundedList::over(&mut places);
    let _ = display.feed(piece, &mut faults);
    let report = faults.nth(0)?.report();
    Some((report.cause, report.operand))
}

// The cell of a position, or the number of the refusal.
fn cell(display: &Display<PlainPanel>, column: u8, row: u8) -> Result<Answer, u8> {
    display
        .ask(Question::Cell { column, row })
        .map_err(u8::from)
}

const EMPTY: Result<Answer, u8> = Ok(Answer::Cell { cell: 32 });

fn macro_byte(display: &Display<PlainPanel>, index: usize) -> Option<u8> {
    match display.ask(Question::Macro { index }) {
        Ok(Answer::Macro { byte }) => byte,
        _ => None,
    }
}

#[test]
fn feeding_is_refused_in_order(rt: HostRuntime) -> Result<(), Fail> {
    let mut display = switched_on()?;
    let long = [65u8; 4097];
    let mut places = [UNUSED; 1];
    let mut faults = BoundedList::over(&mut places);
    assert_eq!(rt; display.feed(&long, &mut faults).map_err(u8::from), Err(21));
    assert_eq!(rt; display.feed(b"A", &mut faults).map_err(u8::from), Err(22));
    assert_eq!(rt; faults.count(), 0);
    assert_eq!(rt; cell(&display, 1, 1), EMPTY);
    assert_eq!(rt; display.feed(b"", &mut faults), Ok(0));
    Ok(())
}

#[test]
fn off_the_glass(rt: HostRuntime) -> Result<(), Fail> {
    let display = switched_on()?;
    assert_eq!(rt; cell(&display, 21, 1), Err(31));
    assert_eq!(rt; cell(&display, 1, 3), Err(31));
    assert_eq!(rt; cell(&display, 0, 1), Err(31));
    assert_eq!(rt; cell(&display, 20, 2), EMPTY);
    let mut panel = display.switch_off();
    assert_eq!(rt; panel.put(40, 65).map_err(u8::from), Err(41));
    assert_eq!(rt; panel.look(40).map_err(u8::from), Err(41));
    Ok(())
}

#[test]
fn a_full_list(rt: HostRuntime) -> Result<(), Fail> {
    let mut places = [UNUSED; 1];
    let mut faults = BoundedList::over(&mut places);
    assert!(rt; faults.append(UNUSED).is_ok());
    assert_eq!(rt; faults.append(UNUSED).map_err(u8::from), Err(42));
    assert_eq!(rt; faults.count(), 1);
    Ok(())
}

#[test]
fn a_faulty_operand_is_not_read_again(rt: HostRuntime) -> Result<(), Fail> {
    let mut display = switched_on()?;
    // brightness 41h is out of range, and is no "A"
    assert_eq!(rt;
        first_fault(&mut display, &[0x1F, 0x58, 0x41]),
        Some((2, 1))
    );
    assert_eq!(rt; cell(&display, 1, 1), EMPTY);
    Ok(())
}

#[test]
fn a_pair_inside_a_user_character_ends_no_recording(rt: HostRuntime) -> Result<(), Fail> {
    let mut display = switched_on()?;
    assert_eq!(rt; fed(&mut display, b"\x1f:"), 0);
    assert_eq!(rt;
        fed(&mut display, &[0x1B, 0x26, 1, 0x41, 0x41, 2, 0x1F, 0x3A]),
        0
    );
    assert_eq!(rt; fed(&mut display, b"B\x1f:"), 0);
    // the macro is the nine bytes between the pairs
    assert_eq!(rt; macro_byte(&display, 7), Some(0x1F));
    assert_eq!(rt; macro_byte(&display, 9), Some(66));
    assert_eq!(rt; macro_byte(&display, 10), None);
    Ok(())
}

#[test]
fn a_recording_of_eighty_and_of_eighty_one(rt: HostRuntime) -> Result<(), Fail> {
    let mut display = switched_on()?;
    assert_eq!(rt; fed(&mut display, b"\x1f:"), 0);
    assert_eq!(rt; fed(&mut display, &[65; 80]), 0);
    assert_eq!(rt; fed(&mut display, b"\x1f:"), 0);
    assert_eq!(rt; macro_byte(&display, 80), Some(65));
    assert_eq!(rt; macro_byte(&display, 81), None);
    assert_eq!(rt; fed(&mut display, b"\x1f:"), 0);
    assert_eq!(rt; fed(&mut display, &[65; 81]), 0);
    assert_eq!(rt; first_fault(&mut display, b"\x1f:"), Some((9, 0)));
    assert_eq!(rt; macro_byte(&display, 1), None);
    match display.ask(Question::Modes) {
        Ok(Answer::Modes { modes }) => {
            assert!(rt; modes.recording);
            Ok(())
        },
        _ => Err(Fail::new("modes")),
    }
}

#[test]
fn the_recall_from_a_half_read_command(rt: HostRuntime) -> Result<(), Fail> {
    let recall = recall_bytes();
    assert_eq!(rt;
        *recall,
        [
            0x18, 0x18, 0x18, 0x18, 0x18, 0x18, 0x1B, 0x3D, 0x02, 0x1B, 0x40,
        ]
    );
    let mut display = switched_on()?;
    // a window, an open recording, and a user character of which five columns are to come
    assert_eq!(rt;
        fed(
            &mut display,
            b"\x1bW\x01\x01\x05\x01\x08\x01AB\x1f:C\x1b&\x01 ~\x05",
        ),
        0
    );
    assert!(rt; !same(&display, &switched_on()?));
    let _ = fed(&mut display, recall);
    assert!(rt; same(&display, &switched_on()?));
    Ok(())
}

// What a strip panel's list wrote while a display held it stands in the lent places; emptying it writes nothing.
#[test]
fn changes_lie_in_the_lent_places(rt: HostRuntime) -> Result<(), Fail> {
    let settings = lawful()?;
    let mut places = [Change { place: 9, cell: 9 }; 50];
    let mut display = Display::switch_on(settings, StripPanel::over(&mut places));
    display.painted();
    assert_eq!(rt; fed(&mut display, b"HI"), 0);
    let panel = display.switch_off();
    assert_eq!(rt; panel.waiting(), 2);
    assert_eq!(rt; places[0], Change { place: 0, cell: 72 });
    assert_eq!(rt; places[1], Change { place: 1, cell: 73 });
    assert_eq!(rt; places[2], Change { place: 2, cell: 32 });
    assert_eq!(rt; places[49], Change { place: 9, cell: 9 });
    Ok(())
}

// The list of changes shows in which order a scroll puts its cells: downward from the last place, upward from the first.
#[test]
fn a_scroll_lists_its_places_in_order(rt: HostRuntime) {
    let area = Area {
        x1: 3,
        y1: 1,
        x2: 6,
        y2: 2,
    };
    for (ink, places) in [
        (Ink::ScrollDown, [25, 24, 23, 22, 5, 4, 3, 2]),
        (Ink::ScrollUp, [2, 3, 4, 5, 22, 23, 24, 25]),
    ] {
        let mut lent = [NO_CHANGE; 64];
        let mut panel = StripPanel::over(&mut lent);
        draw(&mut panel, Stroke { area, ink });
        assert_eq!(rt; panel.waiting(), places.len());
        for (change, place) in panel.changes().iter().zip(places) {
            assert_eq!(rt; change.place, place);
        }
    }
}
