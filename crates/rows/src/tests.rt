// The rows panel in a display, beside the library's own makes.
use crate::RowsPanel;
use display::Display;
use history::compare::same;
use list::BoundedList;
use panel::{Panel, PlainPanel};
use std::process::Abort;
use std::test::Fail;
use strip::{NO_CHANGE, StripPanel};
use terms::fault::UNUSED;
use terms::settings::Settings;

fn settings() -> Result<Settings, Fail> {
    Settings::check(0, 0, 4).map_err(|_| Fail::new("lawful settings"))
}

// A text that scrolls, a mark, and a window with a text of its own.
fn feed<P: Panel>(rt: &impl Abort, display: &mut Display<P>) -> Result<(), Fail> {
    let mut places = [UNUSED; 128];
    let mut faults = BoundedList::over(&mut places);
    let piece = b"\x1f\x02Coffee\n\r3\x1f.25\nTea\x1bW\x01\x01\x05\x01\x08\x01ABCDE\x0d";
    let given = display
        .feed(piece, &mut faults)
        .map_err(|_| Fail::new("a lawful piece"))?;
    assert_eq!(rt; given, 0);
    Ok(())
}

#[test]
fn three_makes_show_the_same(rt: HostRuntime) -> Result<(), Fail> {
    let settings = settings()?;
    let mut rows = Display::switch_on(settings, RowsPanel::new());
    let mut plain = Display::switch_on(settings, PlainPanel::new());
    let mut places = [NO_CHANGE; 3];
    let mut strip = Display::switch_on(settings, StripPanel::over(&mut places));
    assert!(rt; same(&rows, &plain));
    feed(&rt, &mut rows)?;
    assert!(rt; !same(&rows, &plain));
    feed(&rt, &mut plain)?;
    feed(&rt, &mut strip)?;
    assert!(rt; same(&rows, &plain));
    assert!(rt; same(&rows, &strip));
    Ok(())
}

#[test]
fn a_refused_put_is_not_counted(rt: HostRuntime) -> Result<(), Fail> {
    let mut panel = RowsPanel::new();
    assert!(rt; panel.put(39, 65).is_ok());
    assert_eq!(rt; panel.put(40, 66).map_err(u8::from), Err(41));
    assert_eq!(rt; panel.puts(), 1);
    Ok(())
}

// Each place is blanked by a put.
#[test]
fn switching_on_is_forty_puts(rt: HostRuntime) -> Result<(), Fail> {
    let display = Display::switch_on(settings()?, RowsPanel::new());
    assert_eq!(rt; display.panel().puts(), 40);
    Ok(())
}

#[test]
fn painting_is_not_counted(rt: HostRuntime) -> Result<(), Fail> {
    let mut display = Display::switch_on(settings()?, RowsPanel::new());
    feed(&rt, &mut display)?;
    let before = display.panel().puts();
    display.painted();
    assert_eq!(rt; display.panel().puts(), before);
    Ok(())
}

#[test]
fn the_count_goes_on_after_switching_off(rt: HostRuntime) -> Result<(), Fail> {
    let settings = settings()?;
    let mut panel = Display::switch_on(settings, RowsPanel::new()).switch_off();
    assert!(rt; panel.put(0, 65).is_ok());
    assert_eq!(rt; panel.puts(), 41);
    let again = Display::switch_on(settings, panel);
    assert_eq!(rt; again.panel().puts(), 81);
    Ok(())
}
