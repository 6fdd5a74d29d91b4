//! Strategies.

/// How a search goes.
#[derive(Clone, Copy, Debug)]
pub struct Strategy {
    /// It does not return to goals that are solved.
    pub cut: bool,
    /// It does not return to goals whose solution has bound nothing outside of it, and drops what is an instance of a
    /// solution after which the goals behind it failed.
    pub remember: bool,
    /// Of the goals of a clause it takes the one with the fewest candidates first.
    pub fewest: bool,
    /// It tries clauses with fewer literals first.
    pub shortest: bool,
    /// It looks at the labels at each step, and not only at the end.
    pub labels: bool,
}

impl Strategy {
    /// How many there are.
    pub const MOST: u32 = 9;

    // How many there are without labels at each step.
    const PLAIN: u32 = 6;

    /// The strategy of this number, from 1.
    pub fn numbered(number: u32) -> Strategy {
        match number {
            1 => Strategy {
                cut: false,
                remember: true,
                fewest: true,
                shortest: true,
                labels: false,
            },
            2 => Strategy {
                cut: true,
                remember: false,
                fewest: true,
                shortest: false,
                labels: false,
            },
            3 => Strategy {
                cut: true,
                remember: false,
                fewest: false,
                shortest: false,
                labels: false,
            },
            4 => Strategy {
                cut: true,
                remember: false,
                fewest: true,
                shortest: true,
                labels: false,
            },
            5 => Strategy {
                cut: false,
                remember: true,
                fewest: true,
                shortest: false,
                labels: false,
            },
            6 => Strategy {
                cut: false,
                remember: false,
                fewest: true,
                shortest: true,
                labels: false,
            },
            7 => Strategy {
                cut: true,
                remember: false,
                fewest: true,
                shortest: true,
                labels: true,
            },
            8 => Strategy {
                cut: true,
                remember: false,
                fewest: false,
                shortest: false,
                labels: true,
            },
            _ => Strategy {
                cut: false,
                remember: false,
                fewest: true,
                shortest: true,
                labels: true,
            },
        }
    }

    /// Whether the strategy of this number is of use in a logic that has labels, or has none.
    pub fn is_of_use(number: u32, has_labels: bool) -> bool {
        if has_labels {
            number != 4
        } else {
            number < Strategy::PLAIN
        }
    }
}
