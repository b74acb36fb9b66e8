use crate::plan::Plan;
use std::test::Fail;

// What a Python program computes of the same turns: it multiplies and divides bytes as polynomials, coefficient by
// coefficient, packs the leaf with `struct`, and finds a lost slice by the equations that it solves. A block is had in
// each turn.
#[test]
fn results(rt: HostRuntime) -> Result<(), Fail> {
    let rows = [
        ("crc", "5000", "3", 0xaea7c50d),
        ("xxh64", "5000", "3", 0x523e08f0ed42cd8c),
        ("sha256", "5000", "3", 0xcf6567bc978575e1),
        ("p", "8", "1", 0x0100000000000000),
        ("p", "4099", "150", 0x020b11181e272d34),
        ("q", "100", "7", 0xb550dc59201bc930),
        ("q", "4099", "150", 0x4a2cb121ad19aeee),
        ("rebuild", "100", "7", 0xcbfccead2800629c),
        ("rebuild", "4099", "150", 0x62f3a718ecb99f90),
        ("rebuild-q", "8", "1", 0x030a11181f262d34),
        ("rebuild-q", "4099", "150", 0x6f7f4f5fa40a502a),
        ("node", "182", "3", 0x100),
        ("node", "16384", "300", 0x63),
        ("node", "65536", "5", 0x100),
        ("tree-block", "4096", "2", 2),
        ("tree-block", "16384", "30", 30),
        ("tree-block", "65536", "2", 2),
        ("sector", "4096", "30", 30),
        ("scan", "1", "1", 1),
        ("scan", "5000", "2", 5000),
        ("find-le", "5000", "2", 5000),
    ];
    for (kernel, size, times, all) in rows {
        let plan = Plan::parse(kernel, size, times)?;
        assert_eq!(rt; plan.run(rt.alloc())?, all, "{kernel} {size} {times}");
    }
    Ok(())
}

#[test]
fn refused(rt: HostRuntime) {
    let rows = [
        ("crc", "0", "1"),
        ("p", "7", "1"),
        ("rebuild-q", "7", "1"),
        ("node", "181", "1"),
        ("node", "65537", "1"),
        ("tree-block", "4095", "1"),
        ("tree-block", "65537", "1"),
        ("sector", "8192", "1"),
        ("scan", "0", "1"),
        ("find-le", "1000001", "1"),
        ("crc", "8", "x"),
        ("crc32", "8", "1"),
    ];
    for (kernel, size, times) in rows {
        assert!(rt;
            Plan::parse(kernel, size, times).is_err(),
            "{kernel} {size} {times}"
        );
    }
}
