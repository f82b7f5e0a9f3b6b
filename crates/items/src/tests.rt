// Items of short buffers, each by its place, its length and its kind.
use crate::kinds::Kind;
use crate::parts::Items;
use commands::words::Dialect;
use sets::Commands;
use std::process::Abort;
use std::test::Fail;

fn reads(rt: &impl Abort, buffer: &[u8], expected: &[(usize, usize, Kind)]) -> Result<(), Fail> {
    let mut items = Items::<Commands>::new(buffer, Dialect::EscPos);
    for item in expected {
        let part = items.next().ok_or("an item is missing")?;
        assert_eq!(rt; (part.place, part.bytes.len(), part.kind), *item);
    }
    assert_eq!(rt; items.next(), None);
    Ok(())
}

#[test]
fn window_is_defined(rt: HostRuntime) -> Result<(), Fail> {
    reads(
        &rt,
        &[0x1B, b'W', 1, 1, 5, 1, 8, 1, b'A'],
        &[(0, 8, Kind::Command), (8, 1, Kind::Character)],
    )
}

#[test]
fn faulty_operand_is_dropped(rt: HostRuntime) -> Result<(), Fail> {
    reads(
        &rt,
        &[0x1F, b'$', 0x15, b'A'],
        &[(0, 3, Kind::Faulty), (3, 1, Kind::Character)],
    )
}

#[test]
fn second_escape_is_faulty(rt: HostRuntime) -> Result<(), Fail> {
    reads(
        &rt,
        &[0x1B, 0x1B, 0x00, 0x1F],
        &[
            (0, 2, Kind::Faulty),
            (2, 1, Kind::Ignored),
            (3, 1, Kind::Unfinished),
        ],
    )
}

#[test]
fn columns_are_no_commands(rt: HostRuntime) -> Result<(), Fail> {
    reads(
        &rt,
        &[0x1B, b'&', 1, b'A', b'B', 2, 0x1F, b':', 1, 0x1B, b'A'],
        &[(0, 10, Kind::Command), (10, 1, Kind::Character)],
    )
}
