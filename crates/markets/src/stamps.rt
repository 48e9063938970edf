//! Stamps on numbers: one walk tells whether a list has a number twice.
ghost use Rattle.std.specs.Prelude.{◌≡◌, ◌<◌, length, nat_eq, slice_index, All};
ghost use Rattle.std.specs.Bool.{OnTrue};
ghost use Rattle.std.specs.List.{list_all};
ghost use Rattle.markets.specs.Markets.{is_list_below};
ghost use Rattle.markets.specs.Stamps.{AreOlder, AreUpTo, BearStamp};

/// Stamps the numbers of a list, and says whether they are in range and none stands twice. It stops
/// at the first that is out of range or bears this stamp already.
pub fn stamp_list(list: &[u32], stamp: u32, stamps: &mut [u32]) -> bool
    requires { AreOlder stamp stamps.old }
    ensures listed { result ≡ is_list_below (length stamps.old) list.now }
    ensures as_many { length stamps.new ≡ length stamps.old }
    ensures up_to { AreUpTo stamp stamps.new }
    ensures bear { OnTrue result (BearStamp stamp list.now stamps.new) }
{
    for number in list {
        let place = *number as usize;
        if place >= stamps.len() {
            return false;
        }
        if stamps[place] == stamp {
            return false;
        }
        stamps[place] = stamp;
    }
    true
}

/// Whether all these numbers bear a stamp.
pub fn all_bear(numbers: &[u32], stamp: u32, stamps: &[u32]) -> bool
    requires { All (λ n. n < length stamps.now) numbers.now }
    ensures { result ≡ list_all (λ n. nat_eq (slice_index stamps.now n) stamp) numbers.now }
{
    numbers
        .iter()
        .all(|number| stamps[*number as usize] == stamp)
}
