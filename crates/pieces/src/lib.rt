// Text put into a lent output, piece by piece: words, and numbers in decimal.
#![tactic(auto)]

ghost use Rattle.std.specs.Prelude.{◌+◌, ◌≤◌, length};
ghost use Rattle.pieces.specs.Numerals.{MOST_DIGITS};
ghost use Rattle.pieces.specs.Inner.Pieces.{Goes, Numbered};

// The bytes of the longest number in decimal that the kit writes, a u64.
const LONGEST_DECIMAL: usize = 20;

// Puts a piece into out and answers where the next one goes.
pub fn put_piece(out: &mut [u8], at: usize, piece: &[u8]) -> usize
    requires { at + length piece.now ≤ length out.old }
    ensures { Goes out.old out.new at piece.now result }
{
    let end = at + piece.len();
    out[at..end].copy_from_slice(piece);
    end
}

// Puts a word and a number in decimal behind it.
pub fn put_number(out: &mut [u8], at: usize, word: &[u8], n: u32) -> usize
    requires { at + length word.now + MOST_DIGITS ≤ length out.old }
    ensures { Numbered out.old out.new at word.now n result }
{
    let mut text = [0u8; LONGEST_DECIMAL];
    let k = io::decimal(n as u64, &mut text);
    let behind = put_piece(out, at, word);
    put_piece(out, behind, &text[..k])
}
