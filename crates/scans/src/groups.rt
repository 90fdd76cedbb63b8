// A number in groups of seven bits, read from a lent file at a position.
ghost use Rattle.std.specs.Prelude.{◌≡◌, ◌≤◌, length, drop, IfSome};
ghost use Rattle.files.specs.FileReads.{take_number};
ghost use Rattle.scans.specs.Scanned.{number_says};

use crate::Number;

// The number at a position, at most `highest`; none where it is cut short, has needless groups or is above that. Its
// lowest group comes first: what follows is the number above it, and is not 0, or it would be needless.
pub fn up_to(file: &[u8], at: usize, highest: usize) -> Option<Number>
    ensures result_value { number_says file.now result ≡ take_number 0 highest (drop at file.now) }
    ensures result_in_bounds { IfSome result (λ number. number.next ≤ length file.now) }
{
    if file.len() <= at {
        return None;
    }
    let byte = file[at] as usize;
    if byte < 128 {
        if highest < byte {
            return None;
        }
        return Some(Number {
            n: byte,
            next: at + 1,
        });
    }
    if highest < 128 {
        return None;
    }
    let upper = up_to(file, at + 1, highest / 128)?;
    if upper.n < 1 {
        return None;
    }
    let n = 128 * upper.n + (byte - 128);
    if highest < n {
        return None;
    }
    Some(Number {
        n,
        next: upper.next,
    })
}

// The number at a position, within its limits.
pub fn take(file: &[u8], at: usize, lowest: usize, highest: usize) -> Option<Number>
    ensures result_value { number_says file.now result ≡ take_number lowest highest (drop at file.now) }
    ensures result_in_bounds { IfSome result (λ number. number.next ≤ length file.now) }
{
    let number = up_to(file, at, highest)?;
    if number.n < lowest {
        return None;
    }
    Some(number)
}
