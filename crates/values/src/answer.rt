// The line that answers a request.
ghost use Rattle.std.specs.Prelude.{◌≡◌, ◌+◌, ◌<◌, ◌≤◌, ◌++◌, length, drop};
ghost use Rattle.values.specs.Lines.{Written};

use refusals::{Answer, Refusal};

// A line that is provided for an answer has at least so many bytes.
pub const LINE_LENGTH: usize = 16;

// The library's `char::from_digit` would give an `Option` of a `char`.
fn digit(n: u32) -> u8
    requires { n < 10 }
    ensures { result ≡ 48 + n }
{
    b'0' + n as u8
}

// Writes the text at the front of the line; answers its length.
fn put(line: &mut [u8], text: &[u8]) -> usize
    requires { length text.now ≤ length line.old }
    ensures len { result ≡ length text.now }
    ensures line { line.new ≡ text.now ++ drop (length text.now) line.old }
{
    line[..text.len()].copy_from_slice(text);
    text.len()
}

// Into a line that is lent, with no heap and no Display:
// writes the answer's line, with its line break, at the front of the line that is provided; answers how many bytes it
// has. Those behind it stay as they were, and so do all of a line that is too short.
pub fn write_answer(line: &mut [u8], answer: Answer) -> Result<usize, Refusal>
    ensures { Written line.old answer line.new result }
{
    if line.len() < LINE_LENGTH {
        return Err(Refusal::LineTooShort);
    }
    match answer {
        Answer::Accepted => Ok(put(line, b"ok\r\n")),
        Answer::Granted => Ok(put(line, b"grant\r\n")),
        Answer::Denied => Ok(put(line, b"deny\r\n")),
        Answer::Refused(refusal) => {
            let code = refusal.code();
            // Two texts, so that each shows its line whole.
            if code < 10 {
                let mut text = *b"refused,N\r\n";
                text[8] = digit(code);
                Ok(put(line, &text))
            } else {
                let mut text = *b"refused,NN\r\n";
                text[8] = digit(code / 10);
                text[9] = digit(code % 10);
                Ok(put(line, &text))
            }
        }
    }
}
