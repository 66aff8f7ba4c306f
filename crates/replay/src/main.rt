#![tactic(auto)]

mod answers;
mod calls;
mod reading;

use answers::Answer;
use anyhow::Context;
use calls::perform;
use reading::{Case, Stop};
use std::alloc::Global;
use std::io::{self, BufRead, BufReader, BufWriter, Write};

/// The answer to the case of a line: what its call gives, or the refusal.
fn answer_to(heap: Global, line: &str) -> anyhow::Result<Answer> {
    match perform(&mut Case::new(heap, line)) {
        Ok(answer) => Ok(answer),
        Err(Stop::Refused(refusal)) => Ok(Answer::Refused(refusal)),
        Err(Stop::Failed(error)) => Err(error),
    }
}

fn run(rt: &HostRuntime) -> anyhow::Result<()> {
    let heap = rt.alloc();
    let mut out = BufWriter::new(heap, io::writer(rt))?;
    for (i, line) in BufReader::new(heap, rt.reader())?.lines(heap).enumerate() {
        let line = line?;
        let answer = answer_to(heap, line.as_str()).context(format_args!("line {}", i + 1))?;
        writeln!(out, "{answer}")?;
    }
    out.flush()?;
    Ok(())
}

fn main(rt: HostRuntime) -> anyhow::Result<()> {
    run(&rt)
}
