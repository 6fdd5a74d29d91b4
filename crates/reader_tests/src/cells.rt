//! A list of numbers over three pages.

use cop_cells::Cells;
use std::test::Fail;

// Appends to each list its own length, up to this length.
fn fill(cells: &mut Cells<u64>, len: usize) {
    for place in cells.len()..len {
        if cells.spare() > 0 {
            cells.push(place as u64);
        }
    }
}

#[test]
fn items_stay_until_they_are_cut_off(rt: HostRuntime) -> Result<(), Fail> {
    let mut cells = Cells::new(rt.alloc());
    assert!(rt; cells.len() == 0 && cells.spare() == 0);
    cells.reserve(10000)?;
    let room = cells.spare();
    fill(&mut cells, 10000);
    for place in [0, 4095, 4096, 8191, 8192, 9999] {
        assert!(rt; place < cells.len());
        assert!(rt; cells.get(place) == place as u64);
    }
    assert!(rt; cells.len() == 10000);
    cells.set(8192, 7);
    assert!(rt; cells.get(8192) == 7 && cells.get(8191) == 8191);
    cells.release(4096);
    assert!(rt; cells.len() == 4096 && cells.spare() == room - 4096);
    cells.push(8);
    assert!(rt; cells.get(4095) == 4095 && cells.get(4096) == 8);
    Ok(())
}

#[test]
fn want_of_memory_changes_nothing(rt: HostRuntime) {
    let mut cells = Cells::new(rt.alloc());
    for n in [1, 5000, 20000, usize::MAX - 5000, usize::MAX] {
        let len = cells.len();
        let spare = cells.spare();
        match cells.reserve(n) {
            Ok(()) => cells.push(n as u64),
            Err(_) => assert!(rt; cells.len() == len && cells.spare() == spare),
        }
        fill(&mut cells, 5000);
    }
}
