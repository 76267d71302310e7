// Reads standard input as one text and prints, record by record, its place and its fields, or the place of its fault.

#![tactic(auto)]

use records::{Field, KEPT_FIELDS, Record, Records, TEXT_LIMIT};
use refusals::Refusal;
use std::io::Read;
use std::{fmt, io};

// Bytes as text on one line; those that are no printable ASCII are escaped.
#[derive(Clone, Copy)]
struct Escaped<'a>(&'a [u8]);

impl fmt::Display for Escaped<'_> {
    fn fmt<W: fmt::Write>(&self, f: &mut fmt::Formatter<W>) -> fmt::Result {
        for &byte in self.0 {
            match byte {
                b'\r' => write!(f, "\\r")?,
                b'\n' => write!(f, "\\n")?,
                b'\\' => write!(f, "\\\\")?,
                b' '..=b'~' => write!(f, "{}", char::from(byte))?,
                _ => write!(f, "\\x{byte:02x}")?,
            }
        }
        Ok(())
    }
}

fn show_record(rt: &impl Print, record: Record, kept: &[Field<'_>]) -> io::Result<()> {
    println!(rt;
        "{} record, number of fields: {}",
        record.start, record.count
    )?;
    for field in kept {
        let kind = match field {
            Field::Bare { .. } => "bare",
            Field::Quoted { .. } => "quoted",
        };
        println!(rt; "  {} {kind}: {}", field.place(), Escaped(field.value()))?;
    }
    if record.count > kept.len() {
        println!(rt; "  the others are not kept")?;
    }
    Ok(())
}

fn show_refusal(rt: &impl Print, refusal: Refusal) -> io::Result<()> {
    match refusal {
        Refusal::MalformedRecord { at } => println!(rt; "{at} fault"),
        Refusal::TextTooLong => println!(rt; "the text has more than {TEXT_LIMIT} bytes"),
        _ => println!(rt; "refused, {}", refusal.code()),
    }
}

fn show_text(rt: &impl Print, text: &[u8]) -> io::Result<()> {
    let mut records = match Records::new(text) {
        Ok(records) => records,
        Err(refusal) => return show_refusal(rt, refusal),
    };
    let mut fields = [Field::Bare { part: text, at: 0 }; KEPT_FIELDS];
    // Each record goes into the lent fields, which no iterator could hand out again.
    while let Some(line) = records.next(&mut fields) {
        match line {
            Ok(record) => show_record(rt, record, &fields[..record.kept()])?,
            Err(refusal) => show_refusal(rt, refusal)?,
        }
    }
    Ok(())
}

fn main(rt: HostRuntime) -> anyhow::Result<()> {
    let mut text = Vec::new(rt.alloc());
    rt.stdin().read_to_end(&mut text)?;
    show_text(&rt, &text)?;
    Ok(())
}
