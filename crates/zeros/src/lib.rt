// Whether bytes or words are all zero. The bits of several are gathered into one number, which is tested at once.
#![tactic(auto)]

ghost use Rattle.std.specs.Prelude.{◌≡◌};
ghost use Rattle.std.specs.List.{list_all};
ghost use Rattle.tables.specs.Sound.{all_zero};

// Whether the bytes of a block are zero.
fn block_zero<const N: usize>(block: &[u8; N]) -> bool
    ensures { result ≡ all_zero block.now }
{
    block.iter().fold(0, |bits, &b| bits | b) == 0
}

// Whether all blocks are. Inlined, as `bytes_zero` is: else each node's test spills what it holds, for a call.
#[inline(always)]
fn blocks_zero<const N: usize>(blocks: &[[u8; N]]) -> bool
    ensures { result ≡ list_all all_zero blocks.now }
{
    blocks.iter().all(block_zero)
}

// Whether the words of a row are zero.
fn row_zero(row: &[u16; 8]) -> bool
    ensures { result ≡ all_zero row.now }
{
    row.iter().fold(0, |bits, &word| bits | word) == 0
}

// Whether all bytes are zero: by sixteen, or by eight where there are fewer, and at last the last sixteen or eight,
// of which some have been tested then.
#[inline(always)]
pub fn bytes_zero(bytes: &[u8]) -> bool
    ensures { result ≡ all_zero bytes.now }
{
    let Some(last_eight) = bytes.last_chunk::<8>() else {
        return bytes.iter().all(|&b| b == 0);
    };
    let Some(last) = bytes.last_chunk::<16>() else {
        let (eights, _) = bytes.as_chunks::<8>();
        return blocks_zero(eights) && block_zero(last_eight);
    };
    let (blocks, _) = bytes.as_chunks::<16>();
    blocks_zero(blocks) && block_zero(last)
}

// Whether all words are zero: by eight, and the last ones one by one.
pub fn words_zero(words: &[u16]) -> bool
    ensures { result ≡ all_zero words.now }
{
    let (rows, last) = words.as_chunks::<8>();
    rows.iter().all(row_zero) && last.iter().all(|&word| word == 0)
}
