//! Items with numbers, looked up by their number.

ghost use Rattle.std.specs.List.Sorted.{IsNonDecreasingBy, IsPartitionPoint};
ghost use Rattle.std.specs.Prelude.{◌≡◌, ◌==◌, ◌++◌, ◌∷◌, [], false, find, ltb};
ghost use Rattle.std.specs.Prelude.{option_copied, true};

/// Whether the numbers still rise with one more at the end.
pub fn may_follow<H>(items: &[(u32, H)], number: u32) -> bool
    ensures { (home : H) → result ≡ true → IsNonDecreasingBy (λ x. x.0) items.now
        → IsNonDecreasingBy (λ x. x.0) (items.now ++ (number, home) ∷ []) }
{
    match items.last() {
        Some(last) => last.0 <= number,
        None => true,
    }
}

// The first item of the number, looked for from the first one on.
fn found_in_turn<H>(items: &[(u32, H)], number: u32) -> Option<&(u32, H)>
    ensures { option_copied result ≡ find (λ x. x.0 == number) items.now }
{
    for item in items {
        if item.0 == number {
            return Some(item);
        }
    }
    None
}

// How many items have smaller numbers.
fn smaller<H>(items: &[(u32, H)], number: u32) -> usize
    requires { IsNonDecreasingBy (λ x. x.0) items.now }
    ensures { IsPartitionPoint (λ x. ltb x.0 number ≡ true) (λ x. ltb x.0 number ≡ false)
        items.now result }
{
    items.partition_point(|item| item.0 < number)
}

// The first item of the number, looked for by halves.
fn found_by_halves<H>(items: &[(u32, H)], number: u32) -> Option<&(u32, H)>
    requires { IsNonDecreasingBy (λ x. x.0) items.now }
    ensures { option_copied result ≡ find (λ x. x.0 == number) items.now }
{
    let place = smaller(items, number);
    if place >= items.len() {
        return None;
    }
    let item = &items[place];
    if item.0 == number { Some(item) } else { None }
}

/// The first item of the number. Where the numbers rise, few items are looked at.
pub fn found<H>(items: &[(u32, H)], rises: bool, number: u32) -> Option<&(u32, H)>
    requires { rises ≡ true → IsNonDecreasingBy (λ x. x.0) items.now }
    ensures { option_copied result ≡ find (λ x. x.0 == number) items.now }
{
    if rises {
        found_by_halves(items, number)
    } else {
        found_in_turn(items, number)
    }
}
