//! Generated problems. There is no file.

use crate::runs::ends;
use std::test::Fail;

const ROWS: &[(&[&str], u8, &[u8])] = &[
    (
        &["make", "chain", "2"],
        0,
        b"made chain 2: 91 bytes\nderived at limit 3\naccepted\n",
    ),
    (
        &["make", "shift", "2"],
        0,
        b"made shift 2: 86 bytes\nderived at limit 3\naccepted\n",
    ),
    (
        &["make", "tower", "3", "--logic=s4"],
        0,
        b"made tower 3: 48 bytes\nderived at limit 1\naccepted\n",
    ),
    (
        &["make", "tower", "3", "--logic=t"],
        2,
        b"made tower 3: 48 bytes\nno tableau at limit 1\n",
    ),
    (
        &["make", "chain", "100", "--limit=3"],
        1,
        b"made chain 100: 2915 bytes\nexhausted at limit 3\n",
    ),
    (
        &["make", "chain", "2", "--steps=1"],
        3,
        b"made chain 2: 91 bytes\nsteps ended after limit 0 at 1 steps\n",
    ),
    (&["make", "chain", "0"], 5, b"bad word 3\n"),
    (&["make", "loop", "2"], 5, b"bad word 2\n"),
    (&["make", "tower", "3"], 5, b"bad word 2\n"),
    (
        &["make", "tower", "3", "--domains=constant"],
        5,
        b"bad word 4\n",
    ),
];

#[test]
fn answers_for_generated_problems(rt: HostRuntime) -> Result<(), Fail> {
    for (words, status, line) in ROWS {
        assert!(rt; ends(rt.alloc(), *words, &[], &[], *status, *line)?);
    }
    Ok(())
}
