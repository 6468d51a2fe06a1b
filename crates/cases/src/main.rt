// Reads the plans of data/plans one after the other and prints a line for each: the outcome's number and place, what an
// accepted plan holds, and the answers to its flows. A plan stands there behind its length in two bytes.
#![tactic(auto)]

ghost use Rattle.pairs.specs.Scene.{Scene};

use engine::analyse_plan;
use framing::returned::Refusal;
use model::{Answer, Verdict};
use plan::Plan;
use plan_values::{Flow, Platform};
use std::fs::File;
use std::io::{self, BufReader, BufWriter, ErrorKind, Read, Write};

fn put_platform<W: Write>(out: &mut W, p: Platform) -> io::Result<()> {
    write!(
        out,
        "{} {} {} {} {} {} {} ",
        p.columns, p.rows, p.link, p.routing, p.buffer, p.method, p.priority_flits
    )
}

fn put_flow<W: Write>(out: &mut W, f: Flow) -> io::Result<()> {
    write!(
        out,
        "{} {} {} {} {} {} {} {} ",
        f.id, f.priority, f.source, f.destination, f.flits, f.period, f.deadline, f.jitter
    )
}

// The verdict's number, the named flow, the bound and the rounds, as the independent program prints them.
fn put_answer<W: Write>(out: &mut W, a: Answer) -> io::Result<()> {
    let (verdict, named, bound, rounds) = match a.verdict {
        Verdict::Bounded(bound, rounds) => (0u8, u16::MAX, bound, rounds),
        Verdict::Late(rounds) => (1u8, u16::MAX, 0u32, rounds),
        Verdict::Waits(id) => (2u8, id, 0u32, 0u32),
    };
    write!(out, "{} {verdict} {named} {bound} {rounds} ", a.id)
}

fn put_plan<W: Write>(out: &mut W, plan: Plan) -> io::Result<()> {
    put_platform(out, plan.platform)?;
    for flow in plan.flows.iter().take(plan.count) {
        put_flow(out, *flow)?;
    }
    Ok(())
}

// Acceptance is number 0 at place 0, and then come the plan and its answers.
fn put_accepted<W: Write>(out: &mut W, plan: Plan) -> io::Result<()>
    requires { Scene plan.platform plan.flows plan.count }
{
    write!(out, "0 0 ")?;
    put_plan(out, plan)?;
    for answer in analyse_plan(plan).iter().take(plan.count) {
        put_answer(out, *answer)?;
    }
    Ok(())
}

// Behind a refusal stands a blank platform without flows.
fn put_refused<W: Write>(out: &mut W, refusal: Refusal) -> io::Result<()> {
    let Refusal(fault, place) = refusal;
    let number = u8::from(fault);
    write!(out, "{number} {place} ")?;
    put_platform(out, Platform::default())
}

fn put_case<W: Write>(out: &mut W, bytes: &[u8]) -> io::Result<()> {
    match plan::read(bytes) {
        Ok(plan) => put_accepted(out, plan)?,
        Err(refusal) => put_refused(out, refusal)?,
    }
    writeln!(out)
}

// Fills the whole buffer, or tells that the file ends before: a yes or no without a value.
fn fill<R: Read>(file: &mut R, into: &mut [u8]) -> io::Result<bool> {
    match file.read_exact(into) {
        Ok(()) => Ok(true),
        Err(error) if error.kind() == ErrorKind::UnexpectedEof => Ok(false),
        Err(error) => Err(error),
    }
}

// The next plan, unless the file ends or the buffer has no room for it.
fn next_plan<'a, R: Read>(file: &mut R, buffer: &'a mut [u8]) -> io::Result<Option<&'a [u8]>> {
    let mut head = [0u8; 2];
    if !fill(file, &mut head)? {
        return Ok(None);
    }
    let n = usize::from(u16::from_be_bytes(head));
    let Some(bytes) = buffer.get_mut(..n) else {
        return Ok(None);
    };
    if fill(file, bytes)? {
        Ok(Some(bytes))
    } else {
        Ok(None)
    }
}

// At most 10,000 plans.
fn put_cases<R: Read, W: Write>(file: &mut R, out: &mut W) -> io::Result<()> {
    let mut buffer = [0u8; 4096];
    for _ in 0..10000 {
        let Some(bytes) = next_plan(file, &mut buffer)? else {
            break;
        };
        put_case(out, bytes)?;
    }
    out.flush()
}

fn main(rt: HostRuntime) -> io::Result<()> {
    match File::open(&rt, "plans") {
        Ok(file) => {
            let mut reader = BufReader::new(rt.alloc(), file)?;
            let mut writer = BufWriter::new(rt.alloc(), io::writer(&rt))?;
            put_cases(&mut reader, &mut writer)
        }
        Err(error) => eprintln!(rt; "plans: {error}"),
    }
}
