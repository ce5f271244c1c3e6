//! Values packed into words.
ghost use Rattle.std.specs.Prelude.{◌≡◌, ◌≢◌, ◌<◌, ◌^◌, Some, IfSome, IfNone};
ghost use Rattle.values.specs.declared.code.Code.{Code as CodeValue};
ghost use Rattle.values.specs.Packing.{packed, unpacked, IsValue, IsPacked};

use crate::code::Code;

const TAGS: u64 = 4;

const NUMBER_TAG: u64 = 1;

const WORD_TAG: u64 = 2;

impl Code {
    /// The value in one word, below 2^34: its 32 bits times 4, and a tag. Empty packs to 0.
    pub fn pack(self) -> u64
        ensures word { result ≡ packed self }
        ensures value { unpacked result ≡ self }
        ensures is_packed { IsPacked result }
        ensures small { result < 2 ^ 34 }
    {
        match self {
            Code::Empty => 0,
            Code::Number(number) => number.cast_unsigned() as u64 * TAGS + NUMBER_TAG,
            Code::Word(index) => index as u64 * TAGS + WORD_TAG,
        }
    }

    /// The value that packs to the word, if one does.
    pub fn unpack(word: u64) -> Option<Code>
        ensures value { IfSome result (λ code. code ≡ unpacked word) }
        ensures packs { IfSome result (λ code. packed code ≡ word) }
        ensures inverts { (code : CodeValue) → IsValue code → packed code ≡ word → result ≡ Some code }
        ensures none { IfNone result ((code : CodeValue) → IsValue code → packed code ≢ word) }
    {
        let bits = u32::try_from(word / TAGS).ok()?;
        match word % TAGS {
            0 if bits == 0 => Some(Code::Empty),
            NUMBER_TAG => Some(Code::Number(bits.cast_signed())),
            WORD_TAG => Some(Code::Word(bits)),
            _ => None,
        }
    }

    /// The value that packs to the word, which is one that `pack` gives.
    #[inline]
    pub fn from_packed(word: u64) -> Code
        requires { IsPacked word }
        ensures { result ≡ unpacked word }
    {
        let bits = (word / TAGS) as u32;
        match word % TAGS {
            NUMBER_TAG => Code::Number(bits.cast_signed()),
            WORD_TAG => Code::Word(bits),
            _ => Code::Empty,
        }
    }
}
