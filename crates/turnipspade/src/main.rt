// The box: standard input is one text of records, and the answers go to standard output.

#![tactic(auto)]

use anyhow::Context;
use console::{Console, Unread};
use names::NAME_PLACES;
use pair_list::{PLACES, PairList};
use refusals::{Answer, Refusal};
use requests::Site;
use sheets::Sheet;
use std::alloc::Global;
use std::io::{Read, Write};
use stores::{BitRows, Pair, PairSet};
use values::{LINE_LENGTH, Name, write_answer};

// A text that is too long gets one answer.
fn refuse(out: &mut impl Write, refusal: Refusal) -> anyhow::Result<()> {
    let mut line = [0; LINE_LENGTH];
    let written = write_answer(&mut line, Answer::Refused(refusal))?;
    out.write_all(&line[..written])?;
    Ok(())
}

// Answers the text by a new box over any two sets of pairs.
fn serve<S: PairSet + Drop, T: PairSet + Drop>(
    out: &mut impl Write,
    heap: Global,
    names: &mut [Name],
    role_pairs: S,
    permissions: T,
    text: &[u8],
) -> anyhow::Result<()> {
    let sheet = Sheet::new(names).context("memory for names")?;
    let site = Site::new(role_pairs, permissions);
    let mut console = Console { sheet, site };
    match console.read_text(heap, text) {
        Ok(answers) => {
            out.write_all(&answers)?;
            Ok(())
        }
        Err(Unread::TooLong) => refuse(out, Refusal::TextTooLong),
        Err(unread) => Err(unread.into()),
    }
}

fn main(rt: HostRuntime) -> anyhow::Result<()> {
    let mut text = Vec::new(rt.alloc());
    rt.stdin().read_to_end(&mut text)?;
    let mut names = [Name::filler(); NAME_PLACES];
    let mut pairs = [Pair { left: 0, right: 0 }; PLACES];
    let permissions = PairList::over(&mut pairs).context("memory for pairs")?;
    serve(
        &mut rt.stdout(),
        rt.alloc(),
        &mut names,
        BitRows::new(),
        permissions,
        &text,
    )
}
