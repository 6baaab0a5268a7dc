//! Times optimising, running, walking and copying, and optimising from text to text, on shapes of scripts at three sizes.
#![tactic(auto)]

mod shapes;
mod times;

use rhai_lang::AST;
use shapes::{Shape, script_of, shapes};
use std::rt::Clock;
use std::time::Duration;
use std::{env, io};
use times::{Bench, Times, nodes_of};

/// The sizes of scripts. Without an argument the first is shown.
const SIZES: [u16; 3] = [25, 100, 400];

/// Nanoseconds for each node, or of a run with turns for each turn.
#[derive(Clone, Copy)]
struct Costs {
    optimise: u128,
    run: u128,
    walk: u128,
    copy: u128,
    text: u128,
}

impl Costs {
    const NONE: Costs = Costs {
        optimise: 0,
        run: 0,
        walk: 0,
        copy: 0,
        text: 0,
    };
}

fn main(rt: HostRuntime) -> io::Result<()> {
    let is_timed = match env::args(&rt)?.nth(1) {
        Some(word) => word.as_str() == "time",
        None => false,
    };
    match Bench::new(rt.alloc()) {
        Ok(bench) if is_timed => print_times(&rt, &bench),
        Ok(bench) => print_shapes(&rt, &bench),
        Err(error) => println!(rt; "{error}"),
    }
}

/// What the shapes are.
fn print_shapes(rt: &(impl Print + AllocGlobal), bench: &Bench) -> io::Result<()> {
    println!(rt; "shape        nodes  turns what is repeated")?;
    for shape in shapes() {
        let text = shape.text(rt.alloc(), SIZES[0])?;
        match script_of(rt.alloc(), text.as_str()) {
            Ok(script) => print_shape(rt, bench, shape, &script)?,
            Err(error) => println!(rt; "{}: {error}", shape.name)?,
        }
    }
    println!(rt;
        "The argument `time` prints the times, by `out/benchmark time` once `rt run` has built it."
    )
}

fn print_shape(rt: &impl Print, bench: &Bench, shape: Shape, script: &AST) -> io::Result<()> {
    let (nodes, turns) = (nodes_of(script)?, bench.run(script)?);
    let Shape {
        name,
        open,
        middle,
        close,
        again,
        ..
    } = shape;
    println!(rt; "{name:11} {nodes:6} {turns:6} {open}{middle}{close}{again}")
}

/// The table of times.
fn print_times(rt: &(impl Print + Clock + AllocGlobal), bench: &Bench) -> io::Result<()> {
    println!(rt;
        "Nanoseconds for each node, of a run with turns for each turn, and behind each how many times that of"
    )?;
    println!(rt;
        "the size before it is: 1.0 where the time grows as the script does, 4.0 where it grows as its square."
    )?;
    println!(rt; "shape        nodes    optimise         run        walk        copy        text")?;
    for shape in shapes() {
        print_growth(rt, bench, shape)?;
    }
    Ok(())
}

/// A shape at each size.
fn print_growth(
    rt: &(impl Print + Clock + AllocGlobal),
    bench: &Bench,
    shape: Shape,
) -> io::Result<()> {
    let mut before = Costs::NONE;
    for size in SIZES {
        let text = shape.text(rt.alloc(), size)?;
        match script_of(rt.alloc(), text.as_str()) {
            Ok(script) => {
                let times = bench.times(rt, text.as_str(), &script)?;
                let nodes = nodes_of(&script)?;
                let costs = costs_of(times, nodes, bench.run(&script)?);
                print_row(rt, shape.name, nodes, costs, before)?;
                before = costs;
            }
            Err(error) => println!(rt; "{}: {error}", shape.name)?,
        }
    }
    Ok(())
}

fn costs_of(times: Times, nodes: u64, turns: u64) -> Costs {
    let each = |time: Duration, count: u64| time.as_nanos() / u128::from(count.max(1));
    Costs {
        optimise: each(times.optimise, nodes),
        run: each(times.run, if turns > 0 { turns } else { nodes }),
        walk: each(times.walk, nodes),
        copy: each(times.copy, nodes),
        text: each(times.text, nodes),
    }
}

fn print_row(rt: &impl Print, name: &str, nodes: u64, now: Costs, before: Costs) -> io::Result<()> {
    print!(rt; "{name:11} {nodes:6}")?;
    print_cost(rt, now.optimise, before.optimise)?;
    print_cost(rt, now.run, before.run)?;
    print_cost(rt, now.walk, before.walk)?;
    print_cost(rt, now.copy, before.copy)?;
    print_cost(rt, now.text, before.text)?;
    println!(rt; "")
}

/// A cost, and how many times the one before it is, if there is one.
fn print_cost(rt: &impl Print, now: u128, before: u128) -> io::Result<()> {
    if before == 0 {
        return print!(rt; " {now:6}     ");
    }
    let tenths = now.saturating_mul(10) / before;
    let (whole, part) = (tenths / 10, tenths % 10);
    print!(rt; " {now:6} {whole:2}.{part}")
}
