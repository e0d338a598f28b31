// Sheet files (RULES F1): the kinds and flags in the bytes of a file, as functions on slices.
#![tactic(auto)]

ghost use Rattle.sheet_file.specs.Post.{Opens, HandedBack};

use tokens::Sheet;

const HEAD: usize = 6; // bytes before a payload

const LARGEST: usize = 4096; // bytes of a payload

const KINDS: u16 = 1;

const FLAGS: u16 = 2;

// The payload of the block of a kind with which the bytes begin, if there is one, and the bytes after the block.
fn split_block(bytes: &[u8], kind: u16) -> Option<(&[u8], &[u8])>
    ensures { Opens bytes.entry kind result }
{
    if bytes.len() < HEAD {
        return None;
    }
    let n = u32::from_le_bytes([bytes[0], bytes[1], bytes[2], bytes[3]]) as usize;
    if LARGEST < n || bytes.len() - HEAD < n {
        return None;
    }
    if u16::from_le_bytes([bytes[4], bytes[5]]) != kind {
        return None;
    }
    let end = HEAD + n;
    Some((&bytes[HEAD..end], &bytes[end..]))
}

// The sheet that the bytes are the file of, if they are one's: a block of kinds, a block of flags, and nothing after. Both lists are the caller's own bytes.
pub fn sheet_of(bytes: &[u8]) -> Option<Sheet<'_>>
    ensures { HandedBack bytes.entry result }
{
    let (kinds, second) = split_block(bytes, KINDS)?;
    let (flags, after) = split_block(second, FLAGS)?;
    if !after.is_empty() {
        return None;
    }
    Some(Sheet { kinds, flags })
}
