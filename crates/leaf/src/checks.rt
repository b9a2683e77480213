// What the checks before the walk answer, as numbers.
ghost use Rattle.std.specs.Prelude.{◌≡◌};
ghost use Rattle.leaf.specs.Link.{check_numbers};

use answer::{Answer, Refusal};

pub fn of_checked(checked: Result<(), Refusal>) -> [u64; 6]
    ensures { result ≡ check_numbers checked }
{
    answer::numbers(checked.map(|()| Answer::Accepted {
        length: 0,
        files: 0,
    }))
}
