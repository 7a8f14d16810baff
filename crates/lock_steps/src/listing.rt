// The numbers of a listing.
ghost use Rattle.std.specs.Prelude.{◌≡◌};
ghost use Rattle.acct_outside.specs.Folder.{greatest};

/// The greatest of the numbers, 0 for none.
pub(crate) fn greatest_of(numbers: &[u64]) -> u64
    ensures { result ≡ greatest numbers.now }
{
    let mut most = 0;
    'numbers: for number in numbers {
        if *number > most {
            most = *number;
        }
    }
    most
}
