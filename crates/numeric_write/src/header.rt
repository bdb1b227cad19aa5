// The four words before the groups.
ghost use Rattle.std.specs.Prelude.{◌≡◌, ◌+◌, ◌≤◌, [], ◌∷◌, length};
ghost use Rattle.std.specs.List.{flat_map};
ghost use Rattle.numeric.specs.Buffer.{placed};
ghost use Rattle.numeric.specs.Bytes.{word_bytes, signed_word};
ghost use Rattle.numeric.specs.Words.{word_of};

use crate::extent::Extent;
use numeric::sign_word::SignWord;

#[derive(Clone, Copy)]
pub(crate) struct Header {
    groups: u16,
    weight: i16,
    sign: SignWord,
    scale: u16,
}

impl Header {
    // Of a package without groups.
    pub(crate) fn bare(sign: SignWord) -> Header
        ensures { (result.groups ≡ 0) × (signed_word result.weight ≡ 0) × (result.sign ≡ sign) × (result.scale ≡ 0) }
    {
        Header {
            groups: 0,
            weight: 0,
            sign,
            scale: 0,
        }
    }

    pub(crate) fn new(sign: SignWord, extent: Extent) -> Header
        ensures { (result.groups ≡ extent.groups) × (result.weight ≡ extent.weight) × (result.sign ≡ sign) × (result.scale ≡ extent.scale) }
    {
        Header {
            groups: extent.groups,
            weight: extent.weight,
            sign,
            scale: extent.scale,
        }
    }
}

// Puts the header at the front of a part of a buffer.
pub(crate) fn put_header(part: &mut [u8], header: Header)
    requires { 8 ≤ length part.old }
    ensures { part.new ≡ placed part.old 0 (flat_map word_bytes (header.groups ∷ signed_word header.weight ∷ word_of header.sign ∷ header.scale ∷ [])) }
{
    put_word(part, 0, header.groups);
    put_word(part, 2, header.weight.cast_unsigned());
    put_word(part, 4, u16::from(header.sign));
    put_word(part, 6, header.scale);
}

// Puts a word, the most significant byte first.
pub(crate) fn put_word(part: &mut [u8], at: usize, word: u16)
    requires { at + 2 ≤ length part.old }
    ensures { part.new ≡ placed part.old at (word_bytes word) }
{
    part[at..at + 2].copy_from_slice(&word.to_be_bytes());
}
