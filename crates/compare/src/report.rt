use crate::comparison::{Answers, compare};
use crate::example::Example;
use crate::step::{Shown, Step};
use std::alloc::Global;
use std::io;
use stores::{LEFTS, Pair, PairSet, RIGHTS, first_difference};

// A word for a bool; a type for Display would be no shorter.
fn yes_or_no(answer: bool) -> &'static str {
    if answer { "yes" } else { "no" }
}

// Prints each step with both answers.
fn show_answers(
    rt: &impl Print,
    heap: Global,
    steps: &[Step],
    answers: &[Answers],
) -> anyhow::Result<()> {
    println!(rt; "  {:<28}{:<10}{}", "step", "bit rows", "pair list")?;
    for (step, answer) in steps.iter().zip(answers.iter()) {
        let text = format!(in heap; "{step}")?;
        let one = yes_or_no(answer.one);
        let two = yes_or_no(answer.two);
        println!(rt; "  {text:<28}{one:<10}{two}")?;
    }
    Ok(())
}

// Prints the pairs of a set in order.
fn show_pairs<S: PairSet>(rt: &impl Print, name: &str, store: &S) -> io::Result<()> {
    print!(rt; "  {name:<9} holds")?;
    // The numbers are what is printed; a chain over both would be no shorter.
    for left in 0..LEFTS {
        for right in 0..RIGHTS {
            if store.contains(left, right) {
                print!(rt; " {}", Shown(Pair { left, right }))?;
            }
        }
    }
    println!(rt; "")
}

fn show_verdict(rt: &impl Print, agree: bool, difference: Option<Pair>) -> io::Result<()> {
    match difference {
        Some(pair) => println!(rt; "  the sets differ first at {}", Shown(pair)),
        None if agree => println!(rt;
            "  all answers agree, and the sets are equal at all {} places",
            LEFTS * RIGHTS
        ),
        None => println!(rt; "  the sets are equal, but some answers differ"),
    }
}

// Plays the example on both sets, and prints every answer, what the sets then hold, and whether they agree.
pub fn show<S: PairSet + Drop, T: PairSet + Drop>(
    rt: &impl Print,
    heap: Global,
    mut one: S,
    mut two: T,
    example: &Example,
) -> anyhow::Result<()> {
    println!(rt; "{}", example.title)?;
    let answers = compare(heap, &mut one, &mut two, example.opening, example.steps)?;
    show_answers(rt, heap, example.steps, &answers)?;
    show_pairs(rt, "bit rows", &one)?;
    show_pairs(rt, "pair list", &two)?;
    let agree = answers.iter().all(|answer| answer.one == answer.two);
    show_verdict(rt, agree, first_difference(&one, &two))?;
    Ok(())
}
