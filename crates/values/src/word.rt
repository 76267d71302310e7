ghost use Rattle.std.specs.Prelude.{◌≡◌};
ghost use Rattle.std.specs.Str.{bytes_eq};
ghost use Rattle.values.specs.Flags.{flag_of};

// Whether the bytes are the word, byte by byte: `==`, with the contract that callers cite.
pub fn is_word(part: &[u8], word: &[u8]) -> bool
    ensures { result ≡ bytes_eq part.now word.now }
{
    part == word
}

// What `true` and `false` say; none where the bytes are neither.
pub fn flag(part: &[u8]) -> Option<bool>
    ensures { result ≡ flag_of part.now }
{
    match part {
        b"true" => Some(true),
        b"false" => Some(false),
        _ => None,
    }
}
