//! Where a number is in a list of directories, or would be.
ghost use Rattle.std.specs.Prelude.{◌≡◌, ◌<◌, IfOk, IfErr, length};
ghost use Rattle.held_list.specs.Held.{IsInOrder};
ghost use Rattle.held_list.specs.Places.{number_at, IsGap};

use crate::held::Held;
use vol_numbers::InoNo;

/// The place of a number, or the one where it would be. At most a logarithm of the directories is looked at.
pub(crate) fn place_of(held: &[Held], number: InoNo) -> Result<usize, usize>
    requires { IsInOrder held.now }
    ensures within { IfOk result (λ place. place < length held.now) }
    ensures found { IfOk result (λ place. number_at held.now place ≡ number) }
    ensures gap { IfErr result (λ place. IsGap held.now number place) }
{
    held.binary_search_by_key(&number, |held| held.number)
}
