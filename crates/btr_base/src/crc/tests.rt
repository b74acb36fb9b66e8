// The forms of CRC-32C against the plain one, bit by bit.
use super::{FoldRoom, crc_register, plain};
use std::test::Fail;

#[test]
fn forms_agree(rt: HostRuntime) -> Result<(), Fail> {
    let mut room = vec![in rt.alloc(); 0u8; 20000]?;
    let bytes = room.as_mut_slice();
    let mut state = 1u64;
    for byte in bytes.iter_mut() {
        state = state
            .wrapping_mul(6364136223846793005)
            .wrapping_add(1442695040888963407);
        *byte = (state >> 56) as u8;
    }
    let mut folds = FoldRoom::new();
    for (from, to) in [
        (0, 0),
        (1, 2),
        (2, 9),
        (3, 11),
        (5, 20),
        (5, 21),
        (5, 28),
        (0, 2047),
        (0, 2048),
        (1, 2056),
        (7, 4102),
        (7, 4103),
        (9, 4168),
        (9, 4169),
        (3, 4674),
        (3, 4675),
        (3, 4676),
        (4, 4740),
        (9, 8776),
        (9, 8777),
        (6, 8790),
        (32, 16384),
        (11, 20000),
    ] {
        for start in [0, 1, 0xFFFF_FFFE, 0xFFFF_FFFF, 0x89AB_CDEF] {
            let piece = bytes.get(from..to).ok_or("range")?;
            let want = plain::register_of(start, piece);
            assert_eq!(rt; crc_register(start, piece), want, "{from} to {to}");
            assert_eq!(rt;
                folds.register(start, piece),
                want,
                "{from} to {to}, in room"
            );
        }
    }
    Ok(())
}
