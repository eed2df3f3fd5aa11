use sock_words::{AtWord, IdWord, Outcome, PlaceWord, SocketId, Ticket, Vref};
use std::test::Fail;

#[test]
fn words_have_their_bits(rt: HostRuntime) {
    let table: [(u64, u64); 14] = [
        (SocketId::pack(0, 0).0, 0),
        (SocketId::pack(2, 3).0, 0x0000_0002_0000_0003),
        (Vref::pack(2, 0).0, 0x0000_0002_0000_0000),
        (Ticket::IDLE.0, 9_223_372_036_854_775_808),
        (Ticket::pack(false, 0, 0).0, 1),
        (Ticket::pack(true, 1, 2).0, 0x8000_0000_0001_0003),
        // 2^38 + 2^36 + 2^33
        (IdWord::pack(1, IdWord::OPEN, 2, 0, 0, 0).0, 352_187_318_272),
        // the error 1,500 of the whole call is 8 * 1,500 + 7, and stands 2^15 times
        (
            IdWord::pack(1, IdWord::LOCKED, 2, 0, 12_007, 0).0,
            421_300_240_384,
        ),
        (IdWord::pack(3, IdWord::FREE, 1, 0, 0, 0).0, 824_633_720_832),
        (AtWord::NONE.0, 0),
        (AtWord::pack(1, 2, 3, 4).0, 0x0000_0040_0080_0104),
        (PlaceWord::NONE.0, 0),
        (PlaceWord::pack(false, 0, 0).0, 1),
        (PlaceWord::pack(true, 1, 2).0, 0x8000_0001_0000_0003),
    ];
    for (word, expected) in table {
        assert!(rt; word == expected);
    }
}

// Those that no row of a script shows.
#[test]
fn outcomes_are_shown(rt: HostRuntime) -> Result<(), Fail> {
    let found = Vref::pack(2, 1);
    let already = Outcome::Already { found };
    let text = format!(in rt.alloc(); "{already}")?;
    assert!(rt; text.as_str() == "already 0000000200000001");
    let not_held = Outcome::NotHeld;
    let text = format!(in rt.alloc(); "{not_held}")?;
    assert!(rt; text.as_str() == "not held");
    Ok(())
}
