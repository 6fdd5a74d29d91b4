//! How often labels are tested: less often where that does not pay.

// How many tests are made before it is asked whether they pay.
const FIRST_TESTS: u64 = 64;
// One of so many tests is to refute.
const TESTS_PER_REFUTATION: u64 = 2;
// Where they do not pay, one of so many lists is tested.
const LISTS_PER_TEST: u64 = 16;

/// The tests of labels that were made, how many refuted, and how many lists were passed over since
/// the last one.
#[derive(Clone, Copy)]
pub struct Tests {
    made: u64,
    refuted: u64,
    passed: u64,
}

impl Tests {
    pub fn new() -> Tests {
        Tests {
            made: 0,
            refuted: 0,
            passed: 0,
        }
    }

    // Whether tests pay, so far as is known.
    fn pay(&self) -> bool {
        self.made < FIRST_TESTS || self.refuted.saturating_mul(TESTS_PER_REFUTATION) >= self.made
    }

    /// Whether the next list is to be tested.
    pub fn is_due(&mut self) -> bool {
        self.passed = self.passed.saturating_add(1);
        if self.pay() || self.passed >= LISTS_PER_TEST {
            self.passed = 0;
            return true;
        }
        false
    }

    /// One more test was made.
    pub fn count(&mut self, refuted: bool) {
        self.made = self.made.saturating_add(1);
        if refuted {
            self.refuted = self.refuted.saturating_add(1);
        }
    }
}
