//! Places in rising lists.
ghost use Rattle.std.specs.Prelude.{◌≡◌, ◌≤◌, true, false, nat_lt, length};
ghost use Rattle.std.specs.List.Sorted.{IsNonDecreasing, IsPartitionPoint};

/// The first place in a rising list whose number isn't below this one.
pub fn first_not_below(numbers: &[u32], number: u32) -> usize
    requires { IsNonDecreasing numbers.now }
    ensures within { result ≤ length numbers.now }
    ensures point { IsPartitionPoint (λ n. nat_lt n number ≡ true) (λ n. nat_lt n number ≡ false)
        numbers.now result }
{
    numbers.partition_point(|other| *other < number)
}
