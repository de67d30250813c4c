ghost use Rattle.std.specs.Prelude.{◌≤◌};
ghost use Rattle.std.specs.List.Sorted.{IsNonDecreasingBy};
ghost use Rattle.element_store.specs.Numbers.{IsLeastAbove, ArePassed};

/// How many of these rising numbers are at most the last one that was seen.
fn count_passed(numbers: &[u32], last: u32) -> usize
    requires { IsNonDecreasingBy (λ number. number) numbers.now }
    ensures { ArePassed numbers.now last result }
{
    numbers.partition_point(|number| *number <= last)
}

/// The first of these rising numbers that is above the last one that was seen, if one was.
pub fn first_above(numbers: &[u32], last: Option<u32>) -> Option<u32>
    requires { IsNonDecreasingBy (λ number. number) numbers.now }
    ensures { IsLeastAbove last numbers.now result }
{
    match last {
        Some(last) => numbers.get(count_passed(numbers, last)).copied(),
        None => numbers.first().copied(),
    }
}
