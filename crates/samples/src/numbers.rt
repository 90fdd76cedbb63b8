// Numbers that look random, the same in every run. Between u64 and usize, which no `From` joins, they go by `as`.

// Where every sequence starts.
pub const SEED: u64 = 88172645463325252;

// The next number of a sequence.
pub fn next(seed: u64) -> u64 {
    let a = seed ^ (seed << 13);
    let b = a ^ (a >> 7);
    b ^ (b << 17)
}

// A number below `n`, from one of the sequence; 0 where `n` is 0.
pub fn below(seed: u64, n: usize) -> usize {
    ((seed >> 20) as usize).checked_rem(n).unwrap_or(0)
}

// One of some numbers, by one of the sequence.
pub fn one_of(seed: u64, numbers: &[usize]) -> usize {
    numbers
        .get(below(seed, numbers.len()))
        .copied()
        .unwrap_or(0)
}

// A number that stands for two others.
pub fn mixed(one: usize, other: usize) -> usize {
    (mixed_seed(SEED.wrapping_add((one as u64) << 20), other) >> 8) as usize
}

// A value for an insert.
pub fn value(one: usize, other: usize) -> u16 {
    (mixed(one, other) % 65536) as u16
}

// The number of a sequence that stands for one of another and a count.
pub fn mixed_seed(seed: u64, count: usize) -> u64 {
    next(next(next(seed.wrapping_add(count as u64))))
}
