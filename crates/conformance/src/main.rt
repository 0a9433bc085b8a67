//! Holds the character sets against vectors that another converter made: counts what agrees, prints
//! every difference of a known kind, and ends with an error at one of no known kind. The vectors in
//! `stdin` are from outside: `tools/vectors.py` makes them with the system's converter. `stdout` is
//! this program's own output, and of it only the converter's answers are from outside.
#![tactic(auto)]

ghost use Rattle.std.specs.Prelude.{OnOk};
ghost use Rattle.conformance.specs.Held.{Held};

mod answer;
mod known;
mod run;
mod vector;

use run::{ShownTo, Stretch};
use std::io::{BufRead, BufReader};
use vector::Vector;

// How many answers agree, and how many differ.
#[derive(Clone, Copy, Default)]
struct Count {
    agree: u64,
    differ: u64,
}

impl Count {
    // Counts a run, and prints it if it differs.
    fn add(&mut self, rt: &HostRuntime, run: &Stretch) -> anyhow::Result<()> {
        let questions = run.question_count();
        if run.agrees() {
            self.agree = self.agree.saturating_add(questions);
        } else {
            println!(rt; "{run}")?;
            self.differ = self.differ.saturating_add(questions);
        }
        Ok(())
    }

    // Puts the questions of a vector to our set, and stops at an answer that differs in no known
    // way. A loop: to collect the answers first and group them would take memory for a million of
    // them.
    fn hold(&mut self, rt: &HostRuntime, vector: &Vector) -> anyhow::Result<()>
        ensures { OnOk result (Held vector.now) }
    {
        let mut run = Stretch::at(vector, vector.from)?;
        for number in vector.from..=vector.to {
            let next = Stretch::at(vector, number)?;
            if let Some(longer) = run.followed_by(next) {
                run = longer;
            } else {
                self.add(rt, &run)?;
                run = next;
            }
        }
        self.add(rt, &run)
    }
}

// A vector whose first number lies behind its last asks for nothing, and nothing is counted. Where
// our answer to the first differs, that is printed.
fn tell_empty(rt: &HostRuntime, vector: &Vector) -> anyhow::Result<()> {
    let run = Stretch::at(vector, vector.from)?;
    if !run.agrees() {
        let shown = ShownTo { run, to: vector.to };
        println!(rt; "{shown}")?;
    }
    Ok(())
}

fn hold_all(rt: &HostRuntime) -> anyhow::Result<()> {
    let mut count = Count::default();
    for line in BufReader::new(rt.alloc(), rt.stdin())?.lines(rt.alloc()) {
        let vector = line?.as_str().parse::<Vector>()?;
        if vector.from > vector.to {
            tell_empty(rt, &vector)?;
        } else {
            count.hold(rt, &vector)?;
        }
    }
    println!(rt; "{} answers agree, {} differ", count.agree, count.differ)?;
    Ok(())
}

fn main(rt: HostRuntime) -> anyhow::Result<()> {
    hold_all(&rt)
}
