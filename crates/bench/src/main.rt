//! The figures that no program outside can measure: one word a figure, as bench/README.md lists
//! them.
//!
//! With no word the program runs all of them with set counts, and prints no times. Then it also shows
//! what takes many triples, or several threads, and is no figure: conditions that nothing connects,
//! and which versions looks give. With a word it prints that figure's times; with `floor` it serves
//! what `podd` is measured beside.
#![tactic(auto)]

mod codec_figure;
mod floor;
mod graph_figure;
mod pages_figure;
mod process_usage;
mod unconnected_conditions;
mod view_figure;
mod view_versions;

use anyhow::bail;
use codec_figure::code_snapshot;
use floor::serve_floor;
use graph_figure::build_graph;
use pages_figure::lay_pages;
use std::alloc::Global;
use std::env;
use unconnected_conditions::solve_apart;
use view_figure::{Looks, read_versions};
use view_versions::{follow_versions, look_at_versions};

/// Prints how many looks gave a version, and the rates if asked.
fn print_looks(rt: &HostRuntime, looks: (Looks, Looks), times: bool) -> anyhow::Result<()> {
    let (alone, beside) = looks;
    println!(rt;
        "looks that gave a version: {} alone, {} beside a publisher",
        alone.given, beside.given
    )?;
    if times {
        println!(rt;
            "looks per second: {} alone, {} beside a publisher",
            alone.rate, beside.rate
        )?;
    }
    Ok(())
}

/// Runs the figures of one thread with set counts, and what takes many triples.
fn run_small(rt: &HostRuntime, alloc: Global) -> anyhow::Result<()> {
    build_graph(rt, alloc, 100_000, 2, false)?;
    solve_apart(rt, alloc)?;
    code_snapshot(rt, alloc, false)?;
    lay_pages(rt, alloc, 1, false)
}

fn main(rt: HostRuntime) -> anyhow::Result<()> {
    let alloc: Global = rt.alloc();
    let Some(word) = env::args(&rt)?.nth(1) else {
        run_small(&rt, alloc)?;
        let looks = read_versions(&rt, alloc, 1_000)?;
        print_looks(&rt, looks, false)?;
        look_at_versions(&rt, alloc, 1_000)?;
        return follow_versions(&rt, alloc, 10_000);
    };
    let count = env::args(&rt)?.nth(2);
    let count: usize = count.and_then(|count| count.parse().ok()).unwrap_or(0);
    match word.as_str() {
        "codec" => code_snapshot(&rt, alloc, true),
        "floor" => serve_floor(&rt, &rt),
        "graph" => build_graph(&rt, alloc, count, 1, true),
        "pages" => lay_pages(&rt, alloc, count, true),
        "view" => {
            let looks = read_versions(&rt, alloc, count as u64)?;
            print_looks(&rt, looks, true)
        }
        _ => bail!("there is no figure of this name"),
    }
}
