//! The parameters of a forward mask and of a list of local characters (RFC 1184). They stand in an array,
//! so that no memory is taken for them.

ghost use Rattle.std.specs.Prelude.{◌≡◌, ◌≤◌, ◌+◌, ◌*◌, ◌∷◌, length, take, flat_map};
ghost use Rattle.tn_codes.specs.{Codes.verb_code, Payloads.{forwardmask, slc, octets_of, max_triples}};
ghost use Rattle.tn_codes.specs.declared.codes.Verb.TheVariants.{DoIt};

use tn_codes::{FORWARDMASK, Mask, SLC, Triple, Verb};

/// The length of DO, FORWARDMASK and the octets of a mask.
const MASK_PARAMETERS: usize = 34;

/// The length of SLC and the most triples that a subnegotiation holds.
const LIST_PARAMETERS: usize = 511;

/// Returns the parameters of a forward mask, the zeros at its end included.
pub(crate) fn mask_parameters(mask: &Mask) -> [u8; MASK_PARAMETERS]
    ensures { result ≡ verb_code DoIt ∷ forwardmask ∷ mask.now.0 }
{
    let mut parameters = [0; MASK_PARAMETERS];
    parameters[0] = Verb::DoIt.code();
    parameters[1] = FORWARDMASK;
    parameters[2..].copy_from_slice(&mask.0);
    parameters
}

/// Returns the parameters of a list at the front of an array, whose rest does not matter.
pub(crate) fn list_parameters(triples: &[Triple]) -> [u8; LIST_PARAMETERS]
    requires { length triples.now ≤ max_triples }
    ensures { take (3 * length triples.now + 1) result ≡ slc ∷ flat_map octets_of triples.now }
{
    let mut parameters = [0; LIST_PARAMETERS];
    parameters[0] = SLC;
    for (i, triple) in triples.iter().enumerate() {
        let at = 3 * i + 1;
        parameters[at] = triple.func;
        parameters[at + 1] = triple.flags;
        parameters[at + 2] = triple.value;
    }
    parameters
}
