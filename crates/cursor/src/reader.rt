ghost use Rattle.std.specs.Prelude.{◌≡◌, ◌+◌, ◌^◌, ◌<◌, length, drop, min};
ghost use Rattle.std.specs.Result.{result_map_both};

use crate::missing::{Lack, Missing};

// What is left to read of a file, and the offset where it begins.
#[derive(Clone, Copy)]
pub struct Cursor<'a> {
    pub bytes: &'a [u8],
    pub at: usize,
    ghost fits: { at + length bytes.now < 2 ^ 64 },
}

impl<'a> Cursor<'a> {
    ghost use Rattle.cursor.specs.Commands.{missing, operands};
    ghost use Rattle.cursor.specs.Exactly.{ReadExactly, MissedExactly};
    ghost use Rattle.cursor.specs.Rests.{before_rest, rest_of};
    ghost use Rattle.cursor.specs.declared.missing.Lack.TheVariants.{CutShort};

    // What is left behind so many bytes: nothing, where no more are left.
    pub fn behind(self, count: usize) -> Cursor<'a>
        ensures at { result.at ≡ self.entry.at + min count (length self.entry.bytes.now) }
        ensures bytes { result.bytes.now ≡ drop count self.entry.bytes.now }
    {
        let count = count.min(self.bytes.len());
        Cursor {
            bytes: &self.bytes[count..],
            at: self.at + count,
        }
    }

    // The operands of the command that is due here, and what is left behind them.
    #[tactic(auto, using(crate::proofs::Commands::read_exactly, crate::proofs::Commands::missed_exactly))]
    pub fn operands<const N: usize>(self, due: u8) -> Result<([u8; N], Cursor<'a>), Missing>
        ensures is_the_reading { operands due N (rest_of self.entry) ≡ result_map_both before_rest (λ m. m) result }
        ensures read_exactly { ReadExactly due N (rest_of self.entry) }
        ensures missed_exactly { MissedExactly due N (rest_of self.entry) }
    {
        match self.bytes {
            [letter, behind @ ..] if *letter == due => {
                let operands = behind.first_chunk::<N>().ok_or(self.cut_short())?;
                Ok((*operands, self.behind(1 + N)))
            }
            [_, ..] => Err(Missing {
                lack: Lack::Letter,
                offset: self.at,
            }),
            [] => Err(self.cut_short()),
        }
    }

    // The bytes end within what is due here.
    pub fn cut_short(self) -> Missing
        ensures { result ≡ missing CutShort (self.entry.at + length self.entry.bytes.now) }
    {
        Missing {
            lack: Lack::CutShort,
            offset: self.at + self.bytes.len(),
        }
    }
}
