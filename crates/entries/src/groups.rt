// A number in groups of seven bits, the lowest first, the top bit set on all but the last.
ghost use Rattle.std.specs.Prelude.{◌≡◌, length};
ghost use Rattle.words.specs.Filled.{Filled, HasRoom};
ghost use Rattle.files.specs.Groups.{groups_of};

// How many groups a number takes.
pub fn count(n: usize) -> usize
    ensures { result ≡ length (groups_of n) }
{
    // No `for`: how many groups there are is what is asked.
    let mut above = n;
    let mut groups: usize = 1;
    while 128 <= above {
        above = above / 128;
        groups += 1;
    }
    groups
}

// Writes a number into a lent output from a position on, and gives the next one.
pub fn put(output: &mut [u8], at: usize, n: usize) -> usize
    requires { HasRoom (groups_of n) at output.old }
    ensures { Filled (groups_of n) output.old at output.new result }
{
    // No `for`: the number's groups are not known before it is divided.
    let mut rest = n;
    let mut next = at;
    while 128 <= rest {
        output[next] = (128 + rest % 128) as u8;
        rest = rest / 128;
        next += 1;
    }
    output[next] = rest as u8;
    next + 1
}
