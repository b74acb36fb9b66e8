// Values from outside: RFC 3720 for CRC-32C, FIPS 180-4 for SHA-256, `xxhsum` for xxhash64, and the hash
// of the name `default`, which every filesystem has in its root tree.
ghost use Rattle.std.specs.Prelude.{◌≤◌, length};

use crate::{
    Header, Key, Memory, Sum, SumKind, SumRoom, array_at, crc_register, name_hash, show_byte, sum,
    u16_at, u32_at, u64_at, xxh64,
};

// What `xxhsum -H1` prints for the first 0 to 100 of the bytes 3, 10, 17 and so on, each 7 more modulo
// 256.
const XXH64_BY_LENGTH: [u64; 101] = [
    0xEF46DB3751D8E999,
    0x1F25C8D0BC1F4BB6,
    0xF5BEDEC232706303,
    0x31D2363F52E564C9,
    0x9BB64B7D66EE9FDA,
    0xC7608EFDDB7051FE,
    0x61436FB28D5CE4C4,
    0x9A7B149959CE60D8,
    0xDAB99D95C6F90092,
    0x170BB6BF975B4C02,
    0xBD7277D7E2D8A98C,
    0x7A52CC9457CF1A1F,
    0xD52E407833AF5133,
    0xF78B031308F5BFC8,
    0xC7F1D4D0ACFA5A14,
    0x1B47CB8243CC8E32,
    0x434850232B787BE2,
    0x1EFA7025F1B97A7A,
    0x28791D24C4CF5E78,
    0x3E91F7C3171250D0,
    0x18AE385ADA6B00CB,
    0xC075185602AF71EB,
    0xB2CEB44AA258FF36,
    0x36A34F92FB0205C0,
    0xC47C71BD4694FF81,
    0xB13F23E884186902,
    0x76A5852D6E1CAB15,
    0x9AB0B90755292FC8,
    0x729299F92FF25C75,
    0x6CD01834BE7D2537,
    0x4BDD83B2B139424F,
    0xA2AA5F33CC4A6119,
    0x23C3C17EF790FD97,
    0x50A7CFC7BA588784,
    0xC3E49B08A6AAD624,
    0xA5B3456011D2913B,
    0xC0B52B0DCC5E3F7F,
    0xE32EF63802F5A3FD,
    0xA4696F18F9ACCE05,
    0x880BBEEA606E4B37,
    0xB620306B253D76B6,
    0x8D56B39A38735FA8,
    0xD50FB183D9C4F252,
    0x71784BDF7CC20CEE,
    0xA4B19436AB40EDB0,
    0x86FAEE00897C4B41,
    0xD524C35B647262AC,
    0xA7C5465CC5AD205E,
    0xDA76BBB3544338EE,
    0x756D92B5FF28E5BC,
    0x3FEB2F60DD4D0DBD,
    0xF1639A50DBA4740B,
    0xE3BBA384BC67D6EE,
    0x84A096F591E6F04E,
    0x6A7E7D3192910190,
    0x0A815463DD86507A,
    0xED350C04E51A88E9,
    0xE1D288E4DE03CB88,
    0xF6E789B251EA5E64,
    0xC7A61C29CFAFE592,
    0x00F7F0730E736D93,
    0xEA5D9295B669D981,
    0xF1A1A311AD02B5B1,
    0x5E3E54B431C7493C,
    0x0EB64B3EF6EEB01F,
    0xA383B724B2BD12F1,
    0xB6D55F01384314C2,
    0x36C3014E8CF0EF72,
    0x69569D3F713F823E,
    0x57793F2C918C48A5,
    0x9CC0BDC853243C07,
    0xFDB8DFC5700141A7,
    0xFD91A561882D1FF7,
    0x8A834ABCF2F8B93C,
    0xD340158F8CF0FB15,
    0xA0BD9A2DB08E831F,
    0x40AB8C3070928BCC,
    0xC4E0603B2473C094,
    0xC64CB670798A0216,
    0x47689D5802EF60F9,
    0x1EFB52C793E16467,
    0xCB446EEF618A5C5F,
    0xCF86163E2A57146D,
    0x5C682F0467158034,
    0xDABB597070523AA0,
    0xD57C286C39A9AA86,
    0xEC269DB55B82C1C5,
    0x453CE28B3E218742,
    0xFA72FFDA01FF1D53,
    0x5334DA4F44541483,
    0xA88599170950FE6B,
    0xE267317D04F769FD,
    0x4972B6528838316B,
    0x440CA19B24B46393,
    0xD23F68BF6AF1ABC1,
    0xF6FFB9103991895F,
    0x3101A958DE582E18,
    0xB2B3F9902EC2EFBD,
    0xEEE3136B2AF7FF5D,
    0x06A08EB098AFA2C3,
    0xA61F8D4C170FE531,
];

// The read command of RFC 3720, B.4.
const READ_COMMAND: [u8; 48] = [
    0x01, 0xc0, 0x00, 0x00, 0x00, 0x00, 0x00, 0x00, 0x00, 0x00, 0x00, 0x00, 0x00, 0x00, 0x00, 0x00,
    0x14, 0x00, 0x00, 0x00, 0x00, 0x00, 0x04, 0x00, 0x00, 0x00, 0x00, 0x14, 0x00, 0x00, 0x00, 0x18,
    0x28, 0x00, 0x00, 0x00, 0x00, 0x00, 0x00, 0x00, 0x02, 0x00, 0x00, 0x00, 0x00, 0x00, 0x00, 0x00,
];

const SHA256_OF_NOTHING: [u8; 32] = [
    0xe3, 0xb0, 0xc4, 0x42, 0x98, 0xfc, 0x1c, 0x14, 0x9a, 0xfb, 0xf4, 0xc8, 0x99, 0x6f, 0xb9, 0x24,
    0x27, 0xae, 0x41, 0xe4, 0x64, 0x9b, 0x93, 0x4c, 0xa4, 0x95, 0x99, 0x1b, 0x78, 0x52, 0xb8, 0x55,
];

const SHA256_OF_ABC: [u8; 32] = [
    0xba, 0x78, 0x16, 0xbf, 0x8f, 0x01, 0xcf, 0xea, 0x41, 0x41, 0x40, 0xde, 0x5d, 0xae, 0x22, 0x23,
    0xb0, 0x03, 0x61, 0xa3, 0x96, 0x17, 0x7a, 0x9c, 0xb4, 0x10, 0xff, 0x61, 0xf2, 0x00, 0x15, 0xad,
];

const SHA256_OF_TWO_BLOCKS: [u8; 32] = [
    0x24, 0x8d, 0x6a, 0x61, 0xd2, 0x06, 0x38, 0xb8, 0xe5, 0xc0, 0x26, 0x93, 0x0c, 0x3e, 0x60, 0x39,
    0xa3, 0x3c, 0xe4, 0x59, 0x64, 0xff, 0x21, 0x67, 0xf6, 0xec, 0xed, 0xd4, 0x19, 0xdb, 0x06, 0xc1,
];

const SHA256_OF_DIGITS: [u8; 32] = [
    0x15, 0xe2, 0xb0, 0xd3, 0xc3, 0x38, 0x91, 0xeb, 0xb0, 0xf1, 0xef, 0x60, 0x9e, 0xc4, 0x19, 0x42,
    0x0c, 0x20, 0xe3, 0x20, 0xce, 0x94, 0xc6, 0x5f, 0xbc, 0x8c, 0x33, 0x12, 0x44, 0x8e, 0xb2, 0x25,
];

// Bytes of which each is `step` more than the one before, modulo 256.
fn steps<const N: usize>(first: u8, step: u8) -> [u8; N] {
    let mut bytes = [0; N];
    let mut next = first;
    for byte in bytes.iter_mut() {
        *byte = next;
        next = next.wrapping_add(step);
    }
    bytes
}

// The sum that has these bytes.
fn sum_of(bytes: &[u8]) -> Sum
    requires { length bytes.now ≤ 32 }
{
    let mut all = [0; 32];
    all[..bytes.len()].copy_from_slice(bytes);
    Sum {
        bytes: all,
        size: bytes.len() as u8,
    }
}

#[test]
fn crc32c_vectors(rt: HostRuntime) {
    for (bytes, want) in [
        (b"123456789".as_slice(), b"\x83\x92\x06\xe3"),
        (&[0; 32], b"\xaa\x36\x91\x8a"),
        (&[0xff; 32], b"\x43\xab\xa8\x62"),
        (&steps::<32>(0, 1), b"\x4e\x79\xdd\x46"),
        (&steps::<32>(31, 255), b"\x5c\xdb\x3f\x11"),
        (&READ_COMMAND, b"\x56\x3a\x96\xd9"),
    ] {
        assert_eq!(rt; sum(SumKind::Crc32c, bytes), sum_of(want), "{bytes:?}");
    }
}

#[test]
fn sha256_vectors(rt: HostRuntime) {
    for (bytes, want) in [
        (b"".as_slice(), SHA256_OF_NOTHING),
        (b"abc", SHA256_OF_ABC),
        (
            b"abcdbcdecdefdefgefghfghighijhijkijkljklmklmnlmnomnopnopq",
            SHA256_OF_TWO_BLOCKS,
        ),
        (b"123456789", SHA256_OF_DIGITS),
    ] {
        assert_eq!(rt; sum(SumKind::Sha256, bytes), sum_of(&want), "{bytes:?}");
    }
}

#[test]
fn xxh64_vectors(rt: HostRuntime) {
    let bytes = steps::<100>(3, 7);
    for (n, want) in XXH64_BY_LENGTH.iter().enumerate() {
        if n <= 100 {
            assert_eq!(rt; xxh64(&bytes[..n]), *want, "{n} bytes");
        }
    }
    assert_eq!(rt; xxh64(b"a"), 0xD24EC4F1A98C6E5B);
    let stored = sum_of(b"\x99\xe9\xd8\x51\x37\xdb\x46\xef");
    assert_eq!(rt; sum(SumKind::Xxh64, b""), stored);
}

#[test]
fn sums_in_room(rt: HostRuntime) {
    let bytes = steps::<4096>(3, 7);
    let mut room = SumRoom::new();
    for kind in [SumKind::Crc32c, SumKind::Sha256, SumKind::Xxh64] {
        for n in [4096, 100, 2048, 4096] {
            if n <= 4096 {
                assert_eq!(rt;
                    room.sum(kind, &bytes[..n]),
                    sum(kind, &bytes[..n]),
                    "{n} bytes"
                );
            }
        }
    }
}

#[test]
fn hashes_of_names(rt: HostRuntime) {
    assert_eq!(rt; name_hash(b"default"), 2378154706);
    assert_eq!(rt; crc_register(0x1234, b""), 0x1234);
}

#[test]
fn kinds(rt: HostRuntime) {
    for (n, kind, size) in [
        (0, SumKind::Crc32c, 4),
        (1, SumKind::Xxh64, 8),
        (2, SumKind::Sha256, 32),
    ] {
        assert_eq!(rt; SumKind::from_type(n), Some(kind));
        assert_eq!(rt; kind.size(), size);
        let bytes = steps::<32>(1, 1);
        if size <= 32 {
            assert_eq!(rt; Sum::read(kind, &bytes), sum_of(&bytes[..size]));
        }
    }
    for n in [3, 256, 65535] {
        assert_eq!(rt; SumKind::from_type(n), None);
    }
    assert_eq!(rt; Memory, Memory);
}

#[test]
fn headers(rt: HostRuntime) {
    let bytes = steps::<101>(0, 1);
    let header = Header {
        sum: sum_of(&[0, 1, 2, 3, 4, 5, 6, 7]),
        fsid: steps(0x20, 1),
        addr: 0x3736353433323130,
        generation: 0x5756555453525150,
        owner: 0x5f5e5d5c5b5a5958,
        items: 0x63626160,
        level: 0x64,
    };
    assert_eq!(rt; Header::read(SumKind::Xxh64, &bytes), header);
    assert_eq!(rt; u16_at(&bytes, 99), 0x6463);
    assert_eq!(rt; u32_at(&bytes, 97), 0x64636261);
    assert_eq!(rt; u64_at(&bytes, 93), 0x64636261605f5e5d);
    assert_eq!(rt; array_at::<3>(&bytes, 98), [98, 99, 100]);
}

fn key(objectid: u64, kind: u8, offset: u64) -> Key {
    Key {
        objectid,
        kind,
        offset,
    }
}

#[test]
fn keys(rt: HostRuntime) {
    let bytes = steps::<17>(0, 1);
    let read = key(0x0706050403020100, 8, 0x100f0e0d0c0b0a09);
    assert_eq!(rt; Key::read(&bytes), read);
    for (before, next) in [
        (key(5, 132, 0), Some(key(5, 132, 1))),
        (key(5, 132, u64::MAX), Some(key(5, 133, 0))),
        (key(5, 255, u64::MAX), Some(key(6, 0, 0))),
        (key(u64::MAX, 255, u64::MAX), None),
    ] {
        assert_eq!(rt; before.next(), next);
    }
    for (less, more) in [
        (key(1, 200, 9), key(2, 100, 3)),
        (key(2, 100, 9), key(2, 200, 3)),
        (key(2, 200, 3), key(2, 200, 9)),
    ] {
        assert!(rt; less < more && more > less && less <= less && less != more);
        assert!(rt; less.is_before(more) && !more.is_before(less) && !less.is_before(less));
    }
}

#[test]
fn shown_bytes(rt: HostRuntime) {
    for (byte, text) in [
        (b'a', b"a".as_slice()),
        (b' ', b" "),
        (b'~', b"~"),
        (b'\\', b"\\x5c"),
        (0, b"\\x00"),
        (0x1f, b"\\x1f"),
        (0x7f, b"\\x7f"),
        (0xab, b"\\xab"),
    ] {
        assert_eq!(rt; show_byte(byte).as_slice(), text);
    }
}
