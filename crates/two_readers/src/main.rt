// Reads every short text twice, with the records and with a plain reader by the table of states, and compares.

#![tactic(auto)]

mod event;
mod plain;

ghost use Rattle.std.specs.Prelude.{◌≤◌, ◌<◌, length, IfOk};

use crate::event::Event;
use plain::read_plainly;
use records::{Field, KEPT_FIELDS, Records};
use refusals::Refusal;
use std::alloc::{AllocError, Global};
use std::array;

// The bytes of the longer texts: the four with a meaning, and one without.
const ALPHABET: &[u8] = b"a,\"\r\n";

const LONGEST: usize = 6;

fn read_records(heap: Global, text: &[u8]) -> Result<Vec<Event>, AllocError> {
    let mut log = Vec::new(heap);
    let mut fields = [Field::Bare { part: text, at: 0 }; KEPT_FIELDS];
    let Ok(mut records) = Records::new(text) else {
        return Ok(log);
    };
    // Each record goes into the lent fields, which no iterator could hand out again.
    while let Some(line) = records.next(&mut fields) {
        match line {
            Ok(record) => {
                let kept = &fields[..record.kept()];
                log.extend(kept.iter().map(|field| Event::from(*field)))?;
                log.push(Event::Record {
                    start: record.start,
                    next: record.next,
                })?;
            }
            Err(Refusal::MalformedRecord { at }) => log.push(Event::Fault { at })?,
            Err(_) => {}
        }
    }
    Ok(log)
}

// Whether the two readers agree on a text.
fn agree(heap: Global, text: &[u8]) -> Result<bool, AllocError> {
    Ok(read_records(heap, text)? == read_plainly(heap, text)?)
}

// Makes the text number `n` of its length over the alphabet.
fn make_text(text: &mut [u8], alphabet: &[u8], n: u32)
    requires { 0 < length alphabet.now }
{
    let mut rest = n as usize;
    for byte in text {
        *byte = alphabet[rest % alphabet.len()];
        rest /= alphabet.len();
    }
}

// The first texts of `len` bytes over the alphabet, so many of them: on how many the readers differ.
fn count_apart(heap: Global, alphabet: &[u8], len: usize, texts: u32) -> Result<u32, AllocError>
    requires nonempty { 0 < length alphabet.now }
    requires short { len ≤ 6 }
    ensures { IfOk result (λ apart. apart ≤ texts) }
{
    let mut apart = 0;
    for n in 0..texts {
        let mut text = [0; LONGEST];
        let part = &mut text[..len];
        make_text(part, alphabet, n);
        if !agree(heap, part)? {
            apart += 1;
        }
    }
    Ok(apart)
}

fn main(rt: HostRuntime) -> anyhow::Result<()> {
    let heap = rt.alloc();
    for len in 0..=LONGEST {
        let texts = 5u32.pow(len as u32);
        let apart = count_apart(heap, ALPHABET, len, texts)?;
        println!(rt; "{texts} texts of {len} bytes over five bytes, read apart: {apart}")?;
    }
    let bytes: [u8; 256] = array::from_fn(|i| i as u8);
    let apart = count_apart(heap, &bytes, 1, 256)? + count_apart(heap, &bytes, 2, 65_536)?;
    println!(rt; "65792 texts of one and two bytes, read apart: {apart}")?;
    Ok(())
}
