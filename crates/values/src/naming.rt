// How names are read from a text and told apart.
ghost use Rattle.std.specs.Prelude.{◌≡◌, codes};
ghost use Rattle.values.specs.Letters.{letter};
ghost use Rattle.values.specs.Names.{Named, spelling, same_spelling};
ghost use Rattle.values.specs.Sameness;

use crate::name::{LONGEST, Name};
use index_set::Same;

fn is_letter(b: u8) -> bool
    ensures { result ≡ letter b }
{
    matches!(b, b'a'..=b'z' | b'A'..=b'Z' | b'0'..=b'9' | b'_')
}

impl Name {
    // The name that the bytes spell; none where they are badly written, of which there is no more to say.
    pub fn new(part: &[u8]) -> Option<Name>
        ensures { Named part.now result }
    {
        if part.is_empty() || part.len() > LONGEST {
            return None;
        }
        let mut bytes = [0; LONGEST];
        for (place, &byte) in part.iter().enumerate() {
            if !is_letter(byte) {
                return None;
            }
            bytes[place] = byte;
        }
        Some(Name {
            bytes,
            len: part.len(),
        })
    }

    // A name to fill memory with that is lent for names: `_`.
    pub fn filler() -> Name
        ensures { spelling result ≡ codes "_" }
    {
        let mut bytes = [0; LONGEST];
        bytes[0] = b'_';
        Name { bytes, len: 1 }
    }

    pub fn as_bytes(&self) -> &[u8]
        ensures { result.now ≡ spelling self.now }
    {
        &self.bytes[..self.len]
    }
}

// Names are the same where they are spelt alike.
impl Same for Name {
    ghost alike = { same_spelling };

    ghost reflexive = { λ x. Sameness.reflexive (spelling x) };

    ghost symmetric = { λ x y. Sameness.symmetric (spelling x) (spelling y) };

    ghost transitive = { λ x y z p q. Sameness.transitive (spelling x) (spelling y) (spelling z) p q };

    fn same(&self, other: &Name) -> bool {
        self.as_bytes() == other.as_bytes()
    }
}
