//! Sets of characters at which a client forwards what it holds (RFC 1184, section 2.3).

ghost use Rattle.std.specs.Prelude.{◌≡◌, ◌≤◌, ◌↔◌, IsTrue, length};
ghost use Rattle.tn_codes.specs.Masks.{HasCharacter, has_character, filled_octets};

/// The 32 octets of a forward mask.
#[derive(Clone, Copy, Debug, PartialEq, Eq)]
pub struct Mask(pub [u8; 32]);

impl Mask {
    /// Makes the mask of these octets, at most 32; the octets that they lack are zero.
    pub fn from_octets(octets: &[u8]) -> Mask
        requires { length octets.now ≤ 32 }
        ensures { result.0 ≡ filled_octets octets.now }
    {
        let mut mask = [0; 32];
        mask[..octets.len()].copy_from_slice(octets);
        Mask(mask)
    }

    /// Returns whether the mask has the character, of 0 to 255. Bit 0x80 is the first of each
    /// octet's eight (RFC 1184, section 2.3).
    pub fn has(self, character: u8) -> bool
        ensures has { IsTrue result ↔ HasCharacter self character }
        ensures test { result ≡ has_character self character }
    {
        let octet = self.0[usize::from(character / 8)];
        octet & (1 << (7 - character % 8)) != 0
    }
}
