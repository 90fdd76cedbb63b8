// The balances after a double rotation, as a textbook's table has them.
ghost use Rattle.std.specs.Prelude.{◌≡◌};
ghost use Rattle.sides.specs.Doubles.{balances, double_turn};

use crate::Balances;
use crate::rows::{EVEN, LEFT_TALLER, RIGHT_TALLER};

// The new balances of the three nodes, in label order, by the old balance of the middle one:
//
//   middle before | lower         middle   upper
//   --------------+------------------------------------
//   left taller   | even          even     right taller
//   even          | even          even     even
//   right taller  | left taller   even     even
//
// The table is its own mirror image: seen from the right side, the nodes in the other order and each balance mirrored,
// it is the same. A balance above 2 counts as even.
pub fn double_turn(middle: u16) -> Balances
    ensures { result ≡ double_turn middle }
{
    match middle {
        LEFT_TALLER => balances(EVEN, EVEN, RIGHT_TALLER),
        EVEN | 3.. => balances(EVEN, EVEN, EVEN),
        RIGHT_TALLER => balances(LEFT_TALLER, EVEN, EVEN),
    }
}

fn balances(lower: u16, middle: u16, upper: u16) -> Balances
    ensures { result ≡ balances lower middle upper }
{
    Balances {
        lower,
        middle,
        upper,
    }
}
